//! Cases of goroutines' bodies and of wait lists. They stand in the files of `data/`, each with what has to come of it, which was
//! known beforehand.
#![tactic(auto)]

mod bodies;
mod waits;

use gp_cases::{Page, Teller, Unanswered, walk, word};
use std::alloc::Global;

/// Answers cases of bodies and wait lists.
struct OfBodies;

impl Teller for OfBodies {
    fn tell(alloc: Global, page: &mut Page, rows: &[&str]) -> Result<(), Unanswered> {
        let (head, rows) = rows.split_first().ok_or(Unanswered::Form)?;
        let (kind, rest) = word(head);
        match kind {
            "body" => bodies::walks(alloc, page, rest, rows),
            "cut" => bodies::cuts(alloc, page, rest, rows),
            _ => waits::effects(alloc, page),
        }
    }
}

fn main(rt: HostRuntime) -> Result<(), Unanswered> {
    walk::<OfBodies>(&rt, "bodies.txt")?;
    walk::<OfBodies>(&rt, "waits.txt")
}
