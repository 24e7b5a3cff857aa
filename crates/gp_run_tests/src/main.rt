//! The command `run` through the top call: on threads, in memory, of each run what no schedule changes.
#![tactic(auto)]

mod threads;

use gp_cases::Unanswered;

fn main(rt: HostRuntime) -> Result<(), Unanswered> {
    let told = threads::runs(&rt, rt.alloc())?;
    rt.println(told.as_str())?;
    Ok(())
}
