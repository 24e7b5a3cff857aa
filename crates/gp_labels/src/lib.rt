//! Label sets: what a program's goroutines may be labelled with.
//!
//! A label is a key with a value, and a label set has each key once. Program files write a set as pairs in any order, in
//! which a key may stand again; then its last value counts. [`canonical`] makes the set of such pairs: sorted by the bytes
//! of the keys, so that equal sets are equal lists. Sets are numbered in file order from 1, and number 0 is the empty set
//! that every goroutine begins with; [`pairs`] gives the pairs of a number.
//!
//! ```text
//!    labels red team=red zone=a team=blue        pairs as they are written
//!               team=blue zone=a                 the set: `team` first, with its last value
//! ```
//!
//! `specs/LabelSet.antt` has the set as pairs that are put in their places one after another, and which value of a key
//! counts.
#![tactic(auto)]

mod lookup;
mod ordering;

pub use lookup::pairs;
pub use ordering::canonical;
