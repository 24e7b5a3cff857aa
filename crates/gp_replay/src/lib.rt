//! A journal is replayed entry by entry by the rules of the machine alone: slowly, with everything in lists, and with nothing of the
//! crates that run programs. Tests hold what a run gave against what its journal comes to here.
//!
//! A [`Replay`] has the goroutines, each with the statements at which it stands; the channels and mutexes with those that wait; whom
//! each worker runs; and what was seen so far: at each Open the stacks and labels of all that are live, which goroutines were recorded
//! since, the samples, the waits that ended, those at contended unlocks, and what each actor did. An entry that breaks a rule, or that
//! isn't the one that is due, isn't replayed.
//!
//! ```text
//! func main {
//!   spawn f        Start{0, 0} Op{0, 0}       0 at line 3, 1 at line 6
//!   work 5         Park{0, 0} Open{1, 1024}   profile 1 has to show 0 at line 3 and 1 at line 6
//! }                Record{1, 1} Start{0, 1}   1 may be started, since it was recorded; 0 may not
//! func f {
//!   work 2
//! }
//! ```
//!
//! [`is_profile`] and [`are_covered`] tell whether the records that a run gave are those.
#![tactic(auto)]

mod agreeing;
mod due;
mod entering;
mod goroutine;
mod replay;
mod route;
mod waiting;

pub use agreeing::{are_covered, is_profile};
pub use goroutine::Shown;
pub use replay::{Event, Profile, Replay, Sample, Sum};
