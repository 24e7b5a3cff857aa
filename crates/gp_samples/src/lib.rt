//! The ring of a run's samples: how large it is, what a run offers to it, and what reads take from it.
//!
//! **It begins** with the rate record offered (`begun_ring`). It has the option's words, but no fewer than twice those of the
//! longest sample that the program can have, and the option's tags, both rounded up to powers of two; so each sample may be
//! offered to it, as long as the run's journal has room for an entry.
//!
//! **With each Tick** the sample of its goroutine is offered (`offer_sample`), told by the body, which stands where the
//! goroutine stands in the state before: the time in nanoseconds, header 1, the stack, cut to 64 frames, each frame one
//! word, and the number of the label set as tag. No other entry offers anything.
//!
//! **A read** takes what is unread, or else a pending loss, and puts it behind the records that were taken (`read`). Once the
//! ring is closed at most three reads find its end (`read_to_end`): one takes what is unread, one a pending loss, and one
//! finds nothing.
//!
//! ```text
//! main works thrice on line 2, and then calls f on line 3, which works on line 8; a tick comes after each instruction, and
//! the ring has tags for two records
//!
//! journal        the ring                                      taken so far
//!                rate                                          none
//! Run, Tick      rate, main:2 at 1000                          none
//! Run, Tick      rate, main:2 at 1000, one lost from 2000      none
//! a read         one lost from 2000                            rate, main:2 at 1000
//! Run, Tick      one lost from 2000, f:8 < main:3 at 3000      rate, main:2 at 1000
//! the end        none                                          rate, main:2 at 1000, one lost from 2000, f:8 < main:3 at 3000
//! ```
//!
//! **What is promised** (`specs/RunRing.antt`). A ring that a run has *keeps* its journal and the records taken
//! (`KeepsRing`): taken, unread and pending records cover the journal's samples, each delivered or counted in one loss, and
//! begin with their head. `law_run_ring` says for every program, whoever chooses the order of a run: the ring that begins
//! keeps the empty journal, each entry and each read leave a ring that keeps what there is then, and once it is closed and
//! read to its end the records alone cover the samples, and begin with their head.
//!
//! **Between two threads** (`begun_ends`, `write_sample`, `take`) the ring has two ends. The offers that the writer made are always
//! the samples of the journal (`AreOffers` in `specs/RunEnds.antt`), and the records are those that the reader took (`AddsTaken`).
//! What each of the two knows of the other is told at the end alone: once the reader has taken in the writer, its records cover the
//! samples of the journal and begin with their head (`law_run_ends`).
//!
//! Only `begun_ring` and `begun_ends`, for the ring, and `read` and `take`, for the records, take memory.
#![tactic(auto)]

mod ends;
mod laws;
mod reading;
mod ring;
mod sample;
mod taking;
mod took;

pub use ends::begun_ends;
pub use laws::{law_run_ends, law_run_ring};
pub use reading::{read, read_to_end};
pub use ring::begun_ring;
pub use sample::{offer_sample, write_sample};
pub use taking::take;
pub use took::Took;
