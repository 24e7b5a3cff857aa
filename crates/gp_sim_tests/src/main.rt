//! Cases of command words, and of runs in an order that numbers choose. They stand in the files of `data/`, each with what has to
//! come of it. That was worked out by hand from the rules of words and of the machine.
#![tactic(auto)]

mod runs;
mod words;

use gp_cases::{Page, Teller, Unanswered, walk, word};
use std::alloc::Global;

/// Answers cases of words and of runs.
struct OfRuns;

impl Teller for OfRuns {
    fn tell(alloc: Global, page: &mut Page, rows: &[&str]) -> Result<(), Unanswered> {
        let (head, rows) = rows.split_first().ok_or(Unanswered::Form)?;
        let (kind, rest) = word(head);
        match kind {
            "words" => words::words(alloc, page, rows),
            "picks" => words::picks(alloc, page, rows),
            "queue" => runs::queue(alloc, page),
            _ => runs::run(alloc, page, rest, rows),
        }
    }
}

fn main(rt: HostRuntime) -> Result<(), Unanswered> {
    walk::<OfRuns>(&rt, "words.txt")?;
    walk::<OfRuns>(&rt, "runs.txt")
}
