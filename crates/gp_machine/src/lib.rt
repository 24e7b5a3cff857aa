//! The machine: it runs goroutines on workers by the definitions of `gp_journal`, one entry of the journal at a time.
//!
//! The value of a `Machine` is the journal, and beside it it keeps the present state in place (`Present`): the
//! goroutines with their counts (`Goroutines`), the queue of the runnable (`Queue`), the wait lists of `gp_sync`, the
//! workers with marks of those that run one (`Workers`), the clock and the requests. `apply` makes one legal entry,
//! changes in place what that names and nothing else, and answers what the definitions tell; `specs/kept/` says what is
//! kept. Each call takes constant time, however many goroutines there are: from the queue, a ring of links by number, any
//! goroutine may leave, and who has still to be recorded stands in a bitmap that tells its least number (`IdSet`). `busy_at`
//! clears a bit for each busy worker before the one that it finds, 15 at most. Only `Machine::new` takes memory.
//!
//! What is kept before and after one entry, with three cells and one worker: goroutine 0 unlocks a mutex for which 1
//! and 2 have waited since clock 1000.
//!
//! ```text
//!                before Op{0, 0}                 after it
//! clock          1005                            1006
//! goroutine 0    Running{0}, 1005 points passed  1006 points passed
//! goroutine 1    Blocked since 1000              Runnable, granted, woken at 1005
//! goroutine 2    Blocked since 1000              Blocked since 1000
//! of them        3 live, 1 running, 0 runnable   3 live, 1 running, 1 runnable
//! mutex          held, 1 and 2 wait              held (it was handed over to 1), 2 waits
//! queue          -                               1
//! its links      end <-> end                     end <-> 1 <-> end
//! worker 0       runs 0, 1005 instructions       runs 0, 1006 instructions
//!                5 in its slice                  6 in its slice
//! entries made   12 by the worker                13 by the worker
//! ```
//!
//! `apply` answers `Passed`: goroutine 1 was woken, which had waited since 1000 for a mutex; no wait of 0 has ended, and
//! neither has its trace. `make` does the same, and tells no more than what became of goroutine 0 (`AtPoint`), for whoever
//! only moves bodies on.
#![tactic(auto)]

mod at_point;
mod beginning;
mod entries;
mod goroutines;
mod id_set;
mod judgement;
mod machine;
mod operations;
mod present;
mod queue;
mod workers;

pub use at_point::AtPoint;
pub use gp_journal::{
    Applied, Counts, Ended, Entry, Foreseen, Goroutine, Journal, NO_CELL, Picks, Refusals, Request,
    Requests, Run, Settings, SharedPoint, Status, UNLOCK_OF_FREE, Wait, Woken, Worker, law_entries,
    law_journal, law_numbers, law_records, law_runs, law_waits, law_worked,
};
pub use machine::Machine;
pub use queue::Queue;
