//! Cases of profiles: of goroutines, of samples that are given, of waits and of CPU ticks. They stand in the files of `data/`, each
//! with what has to come of it, which was known beforehand. Programs are given in lines of words.
#![tactic(auto)]

mod events;
mod profiles;
mod samples;
mod ticks;

use gp_cases::{Page, Teller, Unanswered, walk, word};
use std::alloc::Global;

/// Answers cases of profiles.
struct OfProfiles;

impl Teller for OfProfiles {
    fn tell(alloc: Global, page: &mut Page, rows: &[&str]) -> Result<(), Unanswered> {
        let (head, rows) = rows.split_first().ok_or(Unanswered::Form)?;
        let (kind, rest) = word(head);
        match kind {
            "goroutines" => profiles::goroutines(alloc, page, rest, rows),
            "large" => profiles::large(alloc, page, rest),
            "samples" => samples::samples(alloc, page, rest, rows),
            "sums" => events::sums(alloc, page, rest, rows),
            "contentions" => events::contentions(alloc, page, rest, rows),
            "keeps" => events::keeps(page, rest),
            _ => ticks::ticks(alloc, page, rest, rows),
        }
    }
}

fn main(rt: HostRuntime) -> Result<(), Unanswered> {
    walk::<OfProfiles>(&rt, "profiles.txt")?;
    walk::<OfProfiles>(&rt, "events.txt")?;
    walk::<OfProfiles>(&rt, "ticks.txt")
}
