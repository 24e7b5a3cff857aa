//! Events by stack, as Go's block and mutex profiles keep them (its `mprof.go`): how often something happened at a
//! stack, and what its delays add up to.
//!
//! [`Buckets`] have one sum for each stack. An event is added to its stack's sum, or is the first of a new one: the
//! frames of its stack are hashed once, all of them, so this takes constant time on average, however many stacks there
//! are and however much they share. Sums are kept in 128 bits. `sorted` gives them in the order of a profile, falling
//! delay and then stack, where frames stand by the name of their function and then by line.
//!
//! Three events, and what is kept once each was added. The lines are those of one function `f`:
//!
//! ```text
//! event                        f:8                       f:5, called on g:2
//! f:8               1  4000    count 1  delay 4000
//! f:5 < g:2         1  9000    count 1  delay 4000       count 1  delay 9000
//! f:8               1  2000    count 2  delay 6000       count 1  delay 9000
//!
//! sorted            f:5 < g:2  count 1  delay 9000,  then  f:8  count 2  delay 6000
//! ```
//!
//! [`Fraction`] says which events are kept where one in `f` is to be, on average: event k is kept where word k of the
//! generator PCG32, at a seed and on stream 54, is 0 modulo `f`. `keep` answers for the next event and goes on, `ahead`
//! answers the same and stays. At seed 42 and fraction 3:
//!
//! ```text
//! event k       0             1             2             3
//! word k        2707161783    2068313097    3122475824    2211639955
//! modulo 3      0, kept       0, kept       2             1
//! ```
//!
//! The definitions are in `specs/`: `Event` and `Sums` (what buckets hold is `sums` of what was added), `Order`,
//! `Fraction`. `law_sums` says how sums grow and that together they are all that was added; `law_fraction`, that which
//! event is kept is told by its number.
#![tactic(auto)]

mod buckets;
mod fraction;
mod laws;
mod order;
mod stack_key;
mod sum;

pub use buckets::Buckets;
pub use fraction::Fraction;
pub use laws::{law_fraction, law_sums};
pub use sum::{Sum, Sums};
