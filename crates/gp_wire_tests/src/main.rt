//! Cases of profiles as bytes: what is written, what is read, and what it means. They stand in the files of `data/`, each with
//! what has to come of it, which was known beforehand.
#![tactic(auto)]

mod dumps;
mod messages;
mod readings;

use gp_cases::{Page, Teller, Unanswered, walk, word};
use std::alloc::Global;

/// Answers cases of profiles as bytes.
struct OfBytes;

impl Teller for OfBytes {
    fn tell(alloc: Global, page: &mut Page, rows: &[&str]) -> Result<(), Unanswered> {
        let (head, rows) = rows.split_first().ok_or(Unanswered::Form)?;
        let (kind, rest) = word(head);
        match kind {
            "decode" => readings::readings(alloc, page, rows),
            "dump" => dumps::dumps(alloc, page, rows),
            "prefixes" => readings::prefixes(alloc, page, rest),
            _ => messages::message(alloc, page, rows),
        }
    }
}

fn main(rt: HostRuntime) -> Result<(), Unanswered> {
    walk::<OfBytes>(&rt, "messages.txt")?;
    walk::<OfBytes>(&rt, "bytes.txt")
}
