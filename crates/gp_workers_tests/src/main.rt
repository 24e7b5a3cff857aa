//! Runs on threads. What each has to come to, whatever the order in which its threads go, stands in the files of `data/`, worked
//! out by hand from the rules of the machine. Each run's journal is replayed by those rules alone (`gp_replay`), and what the run
//! gave has to be what the journal comes to: each profile the goroutines that were live at its Open, with their stacks and labels,
//! each once; the sums of waits; the samples; the numbers of each actor.
//!
//! In `held.txt` gates hold a worker until the other one has gone on, and the profiler until workers have gone on while a profile
//! is open: only where threads really run, and run while a profile is taken, do these gates open. In `read.txt` a gate holds the
//! worker behind each sample until the reader has taken it: only where the reader reads while the worker runs does it open.
//!
//! At last the lock is held while the reader has two turns: a reader that takes the lock, or whose samples stand behind it, doesn't
//! come back from them.
#![tactic(auto)]

mod beside;
mod gates;
mod judge;
mod runs;

use crate::beside::beside;
use crate::gates::How;
use crate::runs::{Case, walk_case};
use gp_cases::Unanswered;
use std::fs;
use std::rt::Files;
use std::sync::Wait;
use std::thread::Threads;

fn walk<T: Threads + Wait + Sync + Files + Print + AllocGlobal>(
    rt: &T,
    path: &str,
    how: How,
) -> Result<(), Unanswered> {
    let alloc = rt.alloc();
    let file = fs::read_to_string(rt, path)?;
    let mut cases = 0_u64;
    let mut runs = 0_u64;
    let mut wrong = 0_u64;
    for block in file.as_str().split("\n\n") {
        if let Some(case) = Case::read(alloc, block)? {
            cases = cases.saturating_add(1);
            runs = runs.saturating_add(u64::from(case.times));
            wrong = wrong.saturating_add(walk_case(rt, alloc, &case, how)?);
        }
    }
    println!(rt; "{path}: cases {cases}, runs {runs}, of which wrong {wrong}")?;
    Ok(())
}

fn main(rt: HostRuntime) -> Result<(), Unanswered> {
    walk(&rt, "runs.txt", How::Free)?;
    walk(&rt, "held.txt", How::Workers)?;
    walk(&rt, "read.txt", How::Reader)?;
    let page = beside(
        &rt,
        rt.alloc(),
        "run a.gp --workers 1 --hz 1000 --ring 16 --tags 4",
        "func main {;work 20000;};",
    )?;
    println!(&rt; "beside the lock:{}", page.as_str())?;
    Ok(())
}
