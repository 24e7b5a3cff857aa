//! What is told of samples that went through a ring, and how long it took.

use crate::passed::Passed;
use std::rt::Clock;
use std::time::Instant;

/// What came in order; and the nanoseconds of all writes together, and of both threads from their begin to their end, which are 0
/// where no clock tells.
#[derive(Clone, Copy, Debug)]
pub struct Figures {
    pub passed: Passed,
    pub writes: u64,
    pub whole: u64,
}

/// The nanoseconds since then, or 0 where no clock tells.
pub fn nanoseconds_since(clock: &impl Clock, begun: Option<Instant>) -> u64 {
    let Some(begun) = begun else {
        return 0;
    };
    let Ok(time) = begun.elapsed(clock) else {
        return 0;
    };
    u64::try_from(time.as_nanos()).unwrap_or(0)
}
