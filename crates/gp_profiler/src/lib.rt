//! The profiler's protocol on a world, after Go's `mprof.go`: a goroutine profile is asked for, and opened while nobody runs;
//! then the goroutines go on, and are recorded one by one; and once all are recorded it is closed.
//!
//! Each call is made with the world lent, so within a turn of its lock, and makes one entry or none. The world's value and the
//! share of who calls are told exactly by `specs/Calls.antt`, and so is each answer, as a function of the state before.
//!
//! | call | who | what it finds | entry | answer |
//! |---|---|---|---|---|
//! | `open_profile` | the profiler, asked for | some run | none | `NotStopped{running}` |
//! | | | nobody runs, `n` live, above the room | Refuse | `TooSmall{n, room}` |
//! | | | nobody runs, no more than the room | Open | `Opened{epoch, n}` |
//! | `record_one` | the profiler, or a worker that runs nobody | none is active, or g has the active epoch | none | `Already{epoch}` |
//! | | | g has an earlier one | Record | `Recorded` |
//! | `close_profile` | the profiler, one active | fewer records than were live at the Open | none | `Missing{have, n}` |
//! | | | as many | Close | `Closed{epoch}` |
//! | `finish` | the profiler, the run complete | | none: the ring of samples is closed | |
//!
//! Who runs while a profile is taken? A goroutine that has still to be recorded can't be started before it is, so it stands where
//! it stood at the Open, whoever records it: the profiler, or the worker that picks it. One that is born in between has the active
//! epoch from its birth and isn't recorded. So at any time the records made and the goroutines that have still to be recorded are
//! together those that were live at the Open (`proofs/AddUp.antt`), and to count is enough to see that nobody is missing.
//!
//! A worked picture, with goroutines 0 and 1 live at the Open, by epoch; goroutine 2 is born by 0:
//!
//! ```text
//!                            epochs of 0, 1, 2    records
//! open_profile               0  0                 -          Opened{1, 2}
//! record_one of 0, worker    1  0                 0          Recorded: worker 0 may now start it
//! close_profile              1  0                 0          Missing{1, 2}
//! 0 spawns 2                 1  0  1              0
//! record_one of 2, profiler  1  0  1              0          Already{1}
//! record_one of 1, profiler  1  1  1              0 1        Recorded
//! close_profile              1  1  1              0 1        Closed{1}
//! ```
//!
//! No call takes memory: the copies come from the caller, and the world has room for them from its beginning.
#![tactic(auto)]

mod answers;
mod closing;
mod opening;
mod recording;

pub use answers::{Closing, Opening, Recording};
pub use closing::{close_profile, finish};
pub use gp_stack::{Record, Records};
pub use opening::open_profile;
pub use recording::record_one;
