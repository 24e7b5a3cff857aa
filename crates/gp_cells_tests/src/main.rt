//! Calls on two cells, one after another, each with what has to come of it; then a worker and a profiler come to one cell from
//! two threads.
#![tactic(auto)]

mod locked;
mod making;
mod row;
mod two;

use gp_cases::{Unanswered, program_of};
use row::row_on;
use two::two_at_one_cell;

const PROGRAM: &str = "func main;work 1000;end";

const TURNS: u64 = 900;

const PROFILES: u32 = 200;

fn main(rt: HostRuntime) -> Result<(), Unanswered> {
    let program = program_of(rt.alloc(), PROGRAM)?;
    row_on(&rt, rt.alloc(), &program)?;
    let (done, copies) = two_at_one_cell(&rt, rt.alloc(), &program, TURNS, PROFILES)?;
    println!(rt; "two threads: {done} turns, {copies} copies")?;
    Ok(())
}
