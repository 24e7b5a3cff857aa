//! Two threads share a book of two rows behind a lock. Each has the share of one row and counts its turns in it; then both
//! shares are checked.
#![tactic(auto)]

mod locked;
mod owners;

use gp_cases::Unanswered;
use owners::count_on_two;

const TURNS: u64 = 1000;

fn main(rt: HostRuntime) -> Result<(), Unanswered> {
    let (_, one, two) = count_on_two(&rt, rt.alloc(), TURNS, TURNS)?;
    println!(rt; "row {}: {} of {TURNS} turns", one.number(), one.row().a)?;
    println!(rt; "row {}: {} of {TURNS} turns", two.number(), two.row().a)?;
    Ok(())
}
