//! Calls on a world and of its profiler, one after another, each with what it answers: cases in the files of `data/`, worked out by
//! hand from the rules of the machine. Whole journals are made entry by entry so, and calls are made that no whole run shows: a
//! start that comes too late, with a copy and without, one that wants a copy and one that doesn't need it, a record that makes the
//! journal full, a second record of one goroutine, a profile that somebody wants to open while some run, or to close while one is
//! missing.
//!
//! A case is a command line, a program's file, and rows. A row is a number of an actor and what it calls; workers are numbered from
//! 0, and the profiler is behind them. Or it asks what the world tells of itself.
#![tactic(auto)]

mod bodies;
mod calls;
mod cases;
mod playing;
mod telling;

use crate::cases::OfWorlds;
use gp_cases::{Unanswered, walk};

fn main(rt: HostRuntime) -> Result<(), Unanswered> {
    walk::<OfWorlds>(&rt, "calls.txt")?;
    walk::<OfWorlds>(&rt, "journals.txt")
}
