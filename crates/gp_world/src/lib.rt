//! What the goroutines of a run share, behind one lock: each turn of the lock makes at most one legal entry and one record.
//!
//! A `World` is what stands behind the lock: the run's `History` (the machine with its journal, the records of goroutine
//! profiles, the sums of block and mutex events), its end of the ring of samples, the book of its actors, and bodies for goroutines that
//! aren't born yet. Whoever has the lock knows by its type that the journal is legal, and that all that is kept beside it are
//! functions of the journal (`specs/kept/World.antt`). Where the bodies of live goroutines are is the caller's: `start`, `step`
//! and `enter_record` take one on loan.
//!
//! **Actors.** Workers 0, 1, .., and the profiler behind them, each have a row in the book and hold its share (`gp_tally`). So an
//! actor without the lock still knows what it has: nobody else can change its row. The first two numbers of a row say what it
//! has, the third how many entries it made, the fourth how many instructions it ran.
//!
//! | row of | first number | second |
//! |---|---|---|
//! | a worker | 0 nothing, 1 it has picked a goroutine, 2 it runs one, 3 the run was over as it looked for one | that goroutine |
//! | the profiler | 0 between profiles, 1 within one, 2 it has finished, 3 the reader has then taken in the ring's end | the last epoch given |
//!
//! The last two are always asked of the machine and never counted up, so a row is `row_of` the journal and its first two
//! numbers.
//!
//! **Who waits.** The machine has its own queue of runnable goroutines, which a `Start` alone leaves. A worker picks in one turn
//! of the lock and starts in another, and between the two nobody else may pick the same one. So the world has a line of its
//! own: `pick` takes its head, a start that can't be made puts it back there, and whom an entry wakes, bears or parks joins its
//! tail. For each goroutine, who waits in it and whom workers have picked are together who stands in the machine's queue.
//!
//! **Calls of a worker.** `pick` gives whom it may start next. `start` records that one first where it has still to be
//! recorded in the active profile, and then starts it; where a profile is asked for or the run is over it waits again. `step`
//! makes the entry that is due of whom the worker runs, and tells what became of it; the caller then moves the body on. What
//! takes memory, a copy of a stack for an event that is kept, and the event's bucket, is made before the entry, so that
//! without memory all is as before. A newborn's body is one of those that `new` made, one for each cell but the first.
//!
//! **Calls of the profiler** make one entry each (`enter_open`, `enter_refuse`, `enter_record`, `enter_close`), and `shut` closes
//! the ring. `enter_record` is for workers too.
//!
//! Two workers, goroutine 0 on worker 0, and the profile of epoch 1 active, in which 1 has still to be recorded. The rows are
//! `(first, second, entries, instructions)`.
//!
//! ```text
//!                              waits   in the machine's queue   row of 0        row of 1
//! before                       1, 2    1, 2                     (2, 0, 4, 90)   (0, 0, 2, 30)
//! pick, by worker 1            2       1, 2                     (2, 0, 4, 90)   (1, 1, 2, 30)
//! start: Record{1, 1}          2       1, 2                     (2, 0, 4, 90)   (1, 1, 3, 30)
//!   and Start{1, 1}            2       2                        (2, 0, 4, 90)   (2, 1, 4, 30)
//! step: Op{0, 0}, which        2, 3    2, 3                     (2, 0, 5, 91)   (2, 1, 4, 30)
//!   passes and wakes 3
//! ```
//!
//! Had that profile been closed and the next one asked for before worker 1 came to start goroutine 1, `start` would have left
//! `1, 2` waiting again, with row `(0, 0, 2, 30)`, and no entry.
//!
//! **The ring** of samples is one between two threads. The world has the end that offers: a Tick offers its goroutine's sample, as it
//! stands in the state before, so all offers are the samples of the journal. The reader's end is outside, and takes no lock. `shut`
//! closes the world's end, and once the reader has found that, `settle` lets it take that end in: then it is known that its records
//! cover the samples of the journal (`specs/RingEnds.antt`, `specs/kept/Ending.antt`).
//!
//! `specs/Scene.antt` is what a world is to its callers, `specs/Rows.antt` has the rows, `specs/Calls.antt` what the calls answer.
//! Each call that makes an entry stands in `entries.rt` and carries all that is kept; `start` and `step` stand on those and touch
//! nothing themselves. `new` takes memory, and `step` only where an Op leaves an event that is
//! added. Each call is meant to take constant time, but for the copy of a stack; no clause says so.
#![tactic(auto)]

mod actor_rows;
mod begun;
mod entries;
mod making;
mod pick;
mod picking;
mod ring_end;
mod starting;
mod step;
mod stepping;
mod world;

pub use begun::Begun;
pub use pick::Pick;
pub use ring_end::RingEnd;
pub use step::Step;
pub use world::{Made, World, WorldParts};
