//! The status-word core: how goroutines' bodies will leave the lock, as a pure machine of words, hands and copies.
//!
//! It is the protocol of the goroutine profile in Go's `runtime/mprof.go`, carried on to the bodies themselves. There each
//! goroutine has a word `goroutineProfiled`, *absent*, *in progress* or *satisfied*, and whoever comes to a goroutine that is
//! absent, the profiler or the scheduler that is about to run it, takes it from absent to in progress by one exchange, records
//! it, and stores satisfied (`tryRecordGoroutineProfile`, `doRecordGoroutineProfile`). Here each goroutine has a cell with a
//! word. The word also says who has the body that belongs into the cell, and it has an epoch, the number of a profile, so
//! that no pass over all goroutines makes them absent again: at an Open the epochs of all of them become those of before.
//!
//! | word | the body is | seen from the active profile `e` | `mprof.go` |
//! |---|---|---|---|
//! | `Dead` | not there: not yet borne, or buried | nobody to record | `_Gdead` |
//! | `Home(e - 1)` | in its cell | still to be recorded | absent |
//! | `Claimed(e, a)` | with actor `a`, which copies it for the profile | being recorded | in progress |
//! | `Home(e)` | in its cell | recorded, or born since the Open | satisfied |
//! | `Running(.., w)` | with worker `w`, which runs it | recorded by `w` before it starts | in progress, then satisfied |
//!
//! ```text
//!              bear                take
//!     Dead ----------> Home(e) <----------> Running(e, w) ----------> Dead
//!                        | ^       give           bury
//!             claim, as  | |  satisfy, once
//!             e + 1 is   | |  the goroutine
//!             active     v |  has e + 1
//!                  Claimed(e + 1, a)
//! ```
//!
//! State by state:
//!
//! - **Dead.** The goroutine isn't born, or was born and no worker has put its body there yet, or is dead and put away. `Bear`
//!   leads to `Home` with the goroutine's epoch, which for one that is born is the last profile opened: a newborn is satisfied,
//!   as in `newproc1`.
//! - **Home with the epoch before the active one: absent.** `Claim` takes it for the profile, `Take` for a worker that wants to
//!   run it. Both are an exchange of the very word that was found, so of the actors that come to one goroutine one wins, and
//!   the others find it in progress or satisfied.
//! - **Claimed: in progress.** Its actor has the body in hand and nobody else does. The goroutine doesn't run, so `Copy` can read
//!   its stack without the lock. `Commit` adds the Record with that copy, under the lock, and the goroutine has the active
//!   epoch from then on; `Satisfy` puts the body back. The copy isn't spoiled by a wake in between: a goroutine that is woken
//!   stays at its point until it runs.
//! - **Home with the last epoch: satisfied.** Only `Take` leads away, until the next profile is opened. No profile claims it
//!   twice, since a claim finds the epoch before the last alone.
//! - **Running.** Its worker has the body. `Begin` is the scheduler's side of `tryRecordGoroutineProfile`: where the goroutine
//!   has still to be recorded its worker must have copied it, and `Begin` adds the Record before the Start; else a copy is
//!   dropped. Each `Commit` adds the entry that is due and moves the body along. Once it doesn't run `Give` puts it back with
//!   the goroutine's epoch, or, where it is dead, `Bury` puts it away.
//!
//! `OpenAll` and `CloseAll` change no word. An Open comes while nobody runs, as under `stopTheWorld`; there is no second stop, a
//! Close comes once nobody is absent or in progress without its Record. Each event changes one word at most, and what an actor
//! holds doesn't move, so only `Begin`, `Commit`, `OpenAll` and `CloseAll`, which add entries to the journal, need the lock, each
//! for one turn.
//!
//! An example: `chan c 0`, `main` of goroutine 0 comes to its `send c`, goroutine 1 waits at its `recv c`, on line 9. There
//! is one worker, 0, and the profiler is actor 1. Both cells are at home with epoch 0.
//!
//! ```text
//! event          word of 0       word of 1       entries added
//! OpenAll        Home(0)         Home(0)         Open{1, 1024}
//! Claim{1, 1}    Home(0)         Claimed(1, 1)
//! Copy{1, 1}     Home(0)         Claimed(1, 1)                              the profiler copies line 9
//! Take{0, 0}     Running(0, 0)   Claimed(1, 1)
//! Copy{0, 0}     Running(0, 0)   Claimed(1, 1)
//! Begin{0, 0}    Running(0, 0)   Claimed(1, 1)   Record{0, 0}, Start{0, 0}
//! Commit{0, 0}   Running(0, 0)   Claimed(1, 1)   Op{0, 0}                   goroutine 1 is woken, and stays at line 9
//! Commit{1, 1}   Running(0, 0)   Claimed(1, 1)   Record{1, 1}               with the copy of line 9
//! Satisfy{1, 1}  Running(0, 0)   Home(1)
//! CloseAll       Running(0, 0)   Home(1)         Close{1}
//! ```
//!
//! The definitions are in `specs/`, to be read in this order: `CoreState` (what there is), `Enabled` (when each event may
//! come), `Stepped` (what it does), `Events` (lists of events), `Invariant` (its seven points), `CoreLaws`, and `WorkedEvents`
//! (lists worked out by hand). `specs/kept/` says what a `Core` keeps in place and what its calls test.
//!
//! Promised, of every program, all options in range and every list of events from the first state on, each enabled where
//! it comes: the journal that the events have added is legal, and with it everything that `gp_journal` proves of legal
//! journals; words and hands name each other, home words have the epochs of their goroutines, whoever runs has its body with
//! its worker, bodies have passed as many points as their goroutines, and a copy in a hand is the row of its goroutine
//! (`law_invariant`); and each copy recorded is its goroutine's row of those that were frozen as its profile was opened
//! (`law_copies`).
//!
//! A `Core` runs by them, with a machine, a body for each goroutine and the copies: `Core::enabled` answers for each event
//! exactly whether it is enabled, and `Core::step` makes exactly what it does. Its value is a state that such a list leads to,
//! so both laws are of it. No thread runs here, and nothing is said of which events come.
#![tactic(auto)]

mod asks;
mod conditions;
mod due;
mod entering;
mod event;
mod hold;
mod laws;
mod moving;
mod status_words;
mod word;

pub use event::CoreEvent;
pub use hold::{Hold, How};
pub use laws::{law_copies, law_invariant, law_worked_events};
pub use status_words::Core;
pub use word::Word;
