//! Runs on threads through the top call, each of which is held against its journal. For each line of the input one run is made, in
//! memory, and its journal replayed by the rules of the machine alone (`gp_replay`). All that the call gave has to be what the journal
//! comes to: the status; the records of each profile, the samples and the numbers of the report; each file that was put, as it is
//! decoded; and the summary. A line of the output tells how the run ended, and behind `WRONG` what isn't so.
//!
//! ```text
//! whole 0 0 0 gp run a.gp --workers 2 --at end : text chan c 0;func main {;recv c;};
//! |     |     |                                  |
//! |     |     the words                          the program's file, a `;` for each line feed
//! |     the read, the put and the write that fail, 0 for none
//! what is told of a run: `ends` what no schedule may change, `whole` all of its numbers
//!
//! status 6 Deadlock instructions 0 born 1 live 1 profiles 1 refused 0 entries 5 records 1 ..
//! ```
//!
//! A line of the kind `other` has a second call behind the first one's file, and the run is held against that: it has to be wrong.
//! Lines without words, and those that begin with `#`, are for the reader. The exit status is 0 where nothing was wrong but what has to
//! be, 1 where something was, and 2 for a line of another form or for want of memory.
#![tactic(auto)]

mod case;
mod expected;
mod files;
mod groups;
mod judge;
mod numbers;

use crate::case::Case;
use crate::judge::judge;
use gp_cases::Unanswered;
use std::process::ExitCode;
use std::sync::Wait;
use std::thread::Threads;

// Makes the run of a line, if it has one, and prints what came of it. It tells whether nothing was wrong, or something, as it has to be.
fn walk_line<T: Threads + Wait + Sync + Print + AllocGlobal>(
    rt: &T,
    line: &str,
) -> Result<bool, Unanswered> {
    if line.trim().is_empty() || line.starts_with('#') {
        return Ok(true);
    }
    let case = Case::read(line)?;
    let verdict = judge(rt, rt.alloc(), &case)?;
    rt.println(verdict.page.as_str())?;
    Ok(verdict.is_right != case.is_other)
}

fn walk<T: Threads + Wait + Sync + Input + Print + AllocGlobal>(
    rt: &T,
) -> Result<bool, Unanswered> {
    let mut all = true;
    for line in rt.lines(rt.alloc()) {
        let line = line?;
        all = walk_line(rt, line.as_str())? && all;
    }
    Ok(all)
}

fn main(rt: HostRuntime) -> ExitCode {
    ExitCode::from(match walk(&rt) {
        Ok(true) => 0,
        Ok(false) => 1,
        Err(_) => 2,
    })
}
