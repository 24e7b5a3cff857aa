//! Cases of programs and of their texts. They stand in the files of `data/`, each with what has to come of it, which was known
//! beforehand.
//!
//! A program that a file's text can say is given as one, with `;` for a line feed. Others, with names that stand for nothing, or
//! beyond a limit, are given in lines of words, in which statements name by number.
#![tactic(auto)]

mod files;
mod programs;
mod sequences;

use gp_cases::{Page, Teller, Unanswered, walk, word};
use std::alloc::Global;

/// Answers cases of programs and their texts.
struct OfPrograms;

impl Teller for OfPrograms {
    fn tell(alloc: Global, page: &mut Page, rows: &[&str]) -> Result<(), Unanswered> {
        let (head, rows) = rows.split_first().ok_or(Unanswered::Form)?;
        let (kind, _) = word(head);
        match kind {
            "limits" => programs::limits(alloc, page, rows),
            "check" => programs::checks(alloc, page, rows),
            "sequences" => sequences::shown(alloc, page),
            _ => files::readings(alloc, page, kind, rows),
        }
    }
}

fn main(rt: HostRuntime) -> Result<(), Unanswered> {
    walk::<OfPrograms>(&rt, "programs.txt")?;
    walk::<OfPrograms>(&rt, "files.txt")?;
    walk::<OfPrograms>(&rt, "grammar.txt")
}
