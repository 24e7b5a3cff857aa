//! Cases of the status-word core. They stand in `data/events.txt`, each with what has to come of it, which was worked out by
//! hand from the rules of the protocol.
//!
//! A case is a command line, which has the options, a program's file, with `;` for a line feed, and rows:
//!
//! ```text
//! make EVENT, EVENT      makes events; what comes first that isn't enabled is told, and ends the row
//! journal                tells the entries added since the last such row
//! copies                 tells the copies recorded: the profile's epoch, the goroutine, its frames and its label set
//! may EVENT, EVENT       tells of each whether it is enabled
//! stops EVENTS / EVENT   from the first core on: makes events, and tells whether one more is enabled then
//! ```
#![tactic(auto)]

mod cores;
mod events;
mod telling;

use gp_cases::{Page, Teller, Unanswered, walk};
use std::alloc::Global;

/// Answers cases of the core.
struct OfCores;

impl Teller for OfCores {
    fn tell(alloc: Global, page: &mut Page, rows: &[&str]) -> Result<(), Unanswered> {
        let (line, rows) = rows.split_first().ok_or(Unanswered::Form)?;
        let (text, rows) = rows.split_first().ok_or(Unanswered::Form)?;
        cores::answers(alloc, page, line, text, rows)
    }
}

fn main(rt: HostRuntime) -> Result<(), Unanswered> {
    walk::<OfCores>(&rt, "events.txt")
}
