//! A run on threads: workers and a profiler, each in a loop of turns under one lock, and a reader of their samples, without it.
//!
//! **What is shared.** One `Mutex` holds the world (`gp_world`: the machine with its journal, who waits for a worker, the writer's
//! end of the ring of samples, a row for each actor) and the bodies of all goroutines. Whenever the lock is free, the journal is
//! legal, and the body of each live goroutine stands where the journal says (`Locked`). The reader's end of the ring and the
//! records that were taken from it are the reader's alone: the records are exactly those that it took (`Intake`).
//!
//! **Turns.** A worker or the profiler takes the lock, does one thing, lets the lock go, and only then passes the gate
//! (`Actor::turn`). So goroutines run on while a profile is made: nobody holds the lock from Open to Close. The reader reads the
//! ring once, whoever has the lock, and passes the gate.
//!
//! | actor | a turn, where it isn't idle | it is idle where | it is done |
//! |---|---|---|---|
//! | a worker that runs nobody | picks who waits longest; records that one if it has still to be recorded; starts it | a profile is asked for, or nobody waits | once the run is over |
//! | a worker that runs one | makes the entry that is due: Run, Op, Tick or Park; the body follows | never | |
//! | the profiler | opens or refuses the profile that is asked for; or records one goroutine; or closes the profile; or finishes, which closes the ring | nothing is asked for or active, or somebody still runs | once it has finished |
//! | the reader | reads the ring once: what is there goes behind its records | there was nothing, or a loss that it saw was another one by then | once it finds the end |
//!
//! A worked picture, with two workers and four goroutines. Time runs to the right, each word is one turn, and `.` is
//! an idle one. Goroutine 3 is recorded by the profiler, 0 and 1 by the workers that start them, each as it stood at Open:
//!
//! ```text
//!    worker 0   Run 0      Park 0   .        .   Record 0, Start 0   Run 0               Run 0 ..
//!    worker 1      Op 1       Park 1   .            Record 1, Start 1      Op 1             Park 1 ..
//!    profiler   .      .             .  Open 1            Record 3           Record 2   Close 1     .
//!    reader       read      .    .        read    .                 read          .            read ..
//! ```
//!
//! **Done, exactly.** A turn of a worker answers `Done` where its row says that it found the run over, one of the profiler where
//! its row says that it has finished, one of the reader where what it found last is the end, and no other one does. What the rows
//! say is the book's (`gp_tally`), which the lock has.
//!
//! **How much, and why idle.** A turn of a worker or of the profiler makes at most one Record and one other entry, one of the reader
//! none (`entries` of the calls on the lock; `few` of `Actor::turn`, by the share's count). It is idle only where the table says so:
//! for those two by what stands behind the lock (`idle` of the calls on it), for the reader by its own end of the ring (`idle` of
//! `Actor::turn`): it loaded the word of what is written in this turn, and took nothing.
//!
//! **Rest.** After a turn that had nothing to do an actor rests outside the lock (`Backoff` of `crossbeam_utils`), the longer the
//! more such turns come one after another. No loop spins without it.
//!
//! **Threads.** `run_all` starts one for each worker but the first, one for the profiler and one for the reader; the first worker
//! plays at home, on the caller's thread. A thread that can't be started gives its actor back: its closure is called at home,
//! with a flag set that makes it answer at once, and that actor plays at home too, in rotation with the others there.
//!
//! **Want of memory.** Who meets it notes so in the world under the lock, and beside the lock for the reader. Each later turn of
//! anybody sees that, and every loop ends; `run_all` answers `Memory`. What the reader took in a turn without memory isn't among its
//! records, and it keeps that there was such a turn.
//!
//! **The end.** After the threads have ended, each actor's share is checked against the book. So what the shares count, and hand
//! out as `done` and `made`, are the journal's numbers, and the profiler's share says that the run is complete. The profiler closed
//! the ring as it finished, and the reader came to its end; now it takes in the world's end of the ring (`World::settle`), and with
//! that it is known that its records cover the samples of the journal.
//!
//! Nothing here says that a thread gets on, or that two of them run at once: the tests show that.
#![tactic(auto)]

mod actor;
mod gate;
mod intake;
mod locked;
mod naming;
mod playing;
mod profiling;
mod run;
mod seats;
mod turn;
mod working;

pub use actor::{Actor, Shared};
pub use gate::{Gate, NoGate, Place};
pub use locked::Locked;
pub use naming::Naming;
pub use run::{Actors, Finished, run_all};
pub use turn::Turn;
