//! Cases of whole runs through the top call that has no threads. They stand in the files of `data/`, each with what has to come of
//! it. That was worked out by hand from the rules of the machine, or, as the bytes of profiles and runs in an order that numbers
//! choose, by other programs.
#![tactic(auto)]

mod telling;
mod tops;

use gp_cases::{Page, Teller, Unanswered, walk, word};
use std::alloc::Global;

/// Answers cases of whole runs.
struct OfTops;

impl Teller for OfTops {
    fn tell(alloc: Global, page: &mut Page, rows: &[&str]) -> Result<(), Unanswered> {
        let (head, rows) = rows.split_first().ok_or(Unanswered::Form)?;
        let (kind, rest) = word(head);
        match kind {
            "told" => tops::told(alloc, page, rest, rows),
            "each-write" => tops::writes(alloc, page, rest, rows),
            "twice" => tops::twice(alloc, page, rest, rows),
            _ => tops::top(alloc, page, rest, rows),
        }
    }
}

fn main(rt: HostRuntime) -> Result<(), Unanswered> {
    walk::<OfTops>(&rt, "tops.txt")?;
    walk::<OfTops>(&rt, "worked.txt")?;
    walk::<OfTops>(&rt, "ticks.txt")?;
    walk::<OfTops>(&rt, "generated.txt")
}
