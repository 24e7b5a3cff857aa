//! Cells: the body of each goroutine stands in one, beside a status word. Whoever wins one exchange on the word holds the body
//! alone, outside of any lock, until it gives the body back.
//!
//! It is the protocol of the goroutine profile in Go's `runtime/mprof.go`, carried on to the bodies themselves. There each
//! goroutine has a word `goroutineProfiled`, *absent*, *in progress* or *satisfied*, and whoever comes to a goroutine that is
//! absent, the profiler or the scheduler that is about to run it, takes it from absent to in progress by one exchange. Here the
//! word also says who has the body, and it has an epoch, the number of a profile, so that no pass over all goroutines makes them
//! absent again.
//!
//! **The word** of a cell: bits 62 and 63 are its kind, bits 32 to 61 an epoch, and bits 0 to 31 an actor.
//!
//! | kind | word | the body is | for profile `e` | `mprof.go` |
//! |---|---|---|---|---|
//! | 0 | `Dead` | not there: its goroutine isn't born yet, or was put away | nobody to record | `_Gdead` |
//! | 1 | `Home(e - 1)` | in the slot of its cell | still to be recorded | absent |
//! | 2 | `Claimed(e, a)` | with actor `a`, which records it | being recorded | in progress |
//! | 1 | `Home(e)` | in the slot of its cell | recorded, or born since | satisfied |
//! | 3 | `Running(.., a)` | with actor `a`, which runs it | recorded by `a` before it starts | in progress, then satisfied |
//!
//! **The calls.** Each of the first three makes one exchange, and its answer has the word that this exchange found.
//!
//! ```text
//!              bear                take
//!     Dead ----------> Home(e) <----------> Running(e, a) ----------> Dead
//!                        | ^       give           bury
//!        claim in e + 1  | |  satisfy
//!                        v |
//!                  Claimed(e + 1, a)
//! ```
//!
//! `claim`, `take` and `bear` win exactly where the exchange found the word that it expected: the home word of the epoch before,
//! the home word that the caller names, the word of an empty cell. Of the actors that come to one cell one wins, and the others
//! are told what they found. `satisfy`, `give` and `bury` are one store each, of the cell's holder. `bear` is both: an exchange to
//! the word of one who runs the body, so that nobody else puts one there, and a store of the home word. No call waits, and only
//! `new` takes memory.
//!
//! **Who may do what** is told by values that can't be copied. A `Pass` is a caller's token. A claim or a take that wins gives a
//! `Held`: the body, and with it the right to give it back. `satisfy` asks for one of a claim by this very pass, `give` and
//! `bury` for one of a take. What is put into a cell is the body of that cell's goroutine (`IsBodyOf`): its share of the
//! goroutines' book (`gp_tally`) has the goroutine's number and a live row, and the body has the start, the set and the count
//! that the row says. So what is handed out is that too. A body whose goroutine has gone on, but whose row hasn't, can't be
//! given back. Since a row has one share, there is no second body of a goroutine.
//!
//! **The rule** (`specs/kept/CellRule.antt`) is what holds between any two steps of any threads, of the words, the bodies at home
//! and what all seats know. A seat has no bytes; its view exists in proofs alone, and changes only at a step on a word. Each word is
//! of one of the four kinds. Under a home word the slot is at home and has the goroutine's body. Under the word of an empty
//! cell it is at home and has none. Under any other word the slot is out with one seat, whose view has the cell and that word;
//! and a view has a cell only where the word says so.
//!
//! There are eight kinds of step. A won exchange takes the slot along, a store brings it home. A body is put into a slot, or
//! taken out of it, by whoever has the slot, which is no step.
//!
//! | step | what it is | in |
//! |---|---|---|
//! | claim, take, bear | an exchange, `seize` | `claim`, `take`, `bear` |
//! | satisfy, give, bury | a store, `settle` | `satisfy`, `give` and `bear`, `bury` |
//! | split | a seat is cut off another one: a new pass, or one that has won a slot, for a `Held` | `split`, `claim`, `take` |
//! | join | a seat that has no slot is taken in by another one | `join`, `satisfy`, `give`, `bury` |
//!
//! **A worked picture**: goroutine 0 with epoch 0, as profile 1 was opened. Worker 0 comes to run it and the profiler, actor 2, to
//! record it.
//!
//! ```text
//!    worker 0                        profiler                     the word of cell 0     the slot
//!                                                                 Home(0)                at home
//!                                    claim: Held, it copies       Claimed(1, 2)          with the profiler
//!    take from Home(0): Changed                                   Claimed(1, 2)          with the profiler
//!                                    satisfy                      Home(1)                at home
//!    take from Home(1): Held                                      Running(1, 0)          with worker 0
//!                                    claim: Busy                  Running(1, 0)          with worker 0
//!    give with epoch 1                                            Home(1)                at home
//!                                    claim: Satisfied             Home(1)                at home
//! ```
//!
//! Had the worker come first, its exchange would have found Home(0), and the profiler's claim Running(0, 0): the worker then
//! records the goroutine before it starts it.
//!
//! Nothing here says that an exchange ever wins, or that the holder of a cell gives its body back. A `Held` that is dropped leaves
//! its cell busy for ever.
#![tactic(auto)]

mod bear;
mod carried;
mod cells;
mod claim;
mod hand;
mod held;
mod pass;
mod roster;
mod steps;
mod take;
mod view;
mod word;

pub use bear::Bear;
pub use carried::Carried;
pub use cells::Cells;
pub use claim::Claim;
pub use held::Held;
pub use pass::Pass;
pub use roster::Roster;
pub use take::Take;
pub use word::{DEAD, home, is_home};
