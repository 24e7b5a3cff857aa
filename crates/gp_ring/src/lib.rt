//! The ring of samples: one writer offers, one reader takes, and what has no room is counted. After Go's
//! `runtime/profbuf.go`.
//!
//! **What is promised** (`specs/Records.antt`). Whoever drives the ring carries two lists: all offers made, and all records
//! taken. The records taken, the unread ones and the pending loss *cover* the offers, in order: each offer is delivered as
//! it was made, or counted in one loss, which tells the time of the first offer that it counts. They begin with the *head*
//! of the offers, the longest front with no more offers than the ring has tags and whose words are twice over no more than
//! the ring's: so where all offers fit twice over, nothing is lost.
//!
//! **The words** are those of `gp_layout`, whose page says which bits they have and who writes what: data words and tags
//! between `r` and `w`, the overflow word with count and change number, its time, the end mark.
//!
//! **A write.** Where no loss is pending the record is written if there is room for it, and else a loss begins with this
//! offer. Where one is pending, it is written as a record of its own in front of this one if there is room for both, and
//! else counts this offer too. So a loss stands behind all records that were written before it.
//!
//! **A read** is a look and an act; writes and the close may come between the two. The look loads the end mark, then
//! overflow, then `w`. An act takes all records up to the `w` that was seen, if there are any. Else, if a loss was seen, it
//! takes that loss, provided that the overflow word is still the very word that was seen: a loss counted up or written
//! meanwhile leaves another word. Else the ring was empty: for good, if the end mark was seen.
//!
//! **The definitions** (`specs/PlainRing.antt`) are over plain lists and numbers, and name neither places nor threads; each
//! call of `Ring` is its step. `specs/Follows.antt` says what holds between a ring, offers and records taken: each call's
//! clause `follows` is for all of both, so a caller keeps its own lists. `law_ring` says it of every list of calls.
//!
//! `Ring` is for one thread: its words stand in vectors that are taken in `new`. No other call takes memory, and its time
//! grows with the words that it moves. A batch is handed out where it lies; one that goes over the end of the ring is put
//! together in a copy.
//!
//! **Between two threads** `new` gives the two ends of a ring without a lock, `Writer` and `Reader`, with the same words and the
//! same rules; `between.rt` has their page. There a write and a read are single steps on the words, which come in any order.
#![tactic(auto)]

mod between;
mod emit;
mod gather;
mod hand;
mod laws;
mod ring;
mod taken;
mod wrote;

pub use between::{Closed, Reader, Writer, new};
pub use laws::law_ring;
pub use ring::Ring;
pub use taken::Taken;
pub use wrote::Wrote;
