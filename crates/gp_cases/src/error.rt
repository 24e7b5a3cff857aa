use gp_isa::Memory;
use std::alloc::{AllocError, AllocFailed};
use std::io;
use std::num::ParseIntError;

/// Why nothing came of a case.
#[derive(Clone, Copy, Debug, PartialEq, Eq)]
pub enum Unanswered {
    /// An allocation was refused.
    Memory,
    /// The case has another form, or is of a program that isn't one.
    Form,
    /// The system refused a call.
    System,
}

impl From<Memory> for Unanswered {
    fn from(_error: Memory) -> Unanswered {
        Unanswered::Memory
    }
}

impl From<AllocError> for Unanswered {
    fn from(_error: AllocError) -> Unanswered {
        Unanswered::Memory
    }
}

impl<T: Drop> From<AllocFailed<T>> for Unanswered {
    fn from(_error: AllocFailed<T>) -> Unanswered {
        Unanswered::Memory
    }
}

impl From<ParseIntError> for Unanswered {
    fn from(_error: ParseIntError) -> Unanswered {
        Unanswered::Form
    }
}

impl From<io::Error> for Unanswered {
    fn from(_error: io::Error) -> Unanswered {
        Unanswered::System
    }
}
