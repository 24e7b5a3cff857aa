ghost use Rattle.std.specs.Prelude.{◌≡◌};
ghost use Rattle.gp_wire.specs.declared.error.Stop.TheVariants as stop;
ghost use Rattle.gp_wire.specs.declared.error.WireError.TheVariants.{Memory as OutOfMemory};

use crate::cause::Cause;
use gp_isa::Memory;
use std::alloc::{AllocError, AllocFailed};

/// Why no profile was read.
#[derive(Clone, Copy, Debug, PartialEq, Eq)]
pub enum WireError {
    /// The first fault: its cause, and a place in bytes. Where a field of the outermost message can't be read, or what
    /// stands in it, that is where the field's key begins; else it is the number of bytes.
    Refused { at: usize, cause: Cause },
    /// An allocation was refused.
    Memory,
}

impl From<Memory> for WireError {
    ghost from_gives = { λ _ e. e ≡ OutOfMemory };

    fn from(_error: Memory) -> WireError {
        WireError::Memory
    }
}

/// Why a field or a message wasn't read.
#[derive(Clone, Copy, Debug)]
pub(crate) enum Stop {
    /// It is no field, or no message.
    Fault(Cause),
    /// An allocation was refused.
    Memory,
}

impl From<Cause> for Stop {
    ghost from_gives = { λ cause e. e ≡ stop.Fault cause };

    fn from(cause: Cause) -> Stop {
        Stop::Fault(cause)
    }
}

impl From<Memory> for Stop {
    ghost from_gives = { λ _ e. e ≡ stop.Memory };

    fn from(_error: Memory) -> Stop {
        Stop::Memory
    }
}

impl From<AllocError> for Stop {
    ghost from_gives = { λ _ e. e ≡ stop.Memory };

    fn from(_error: AllocError) -> Stop {
        Stop::Memory
    }
}

impl<T: Drop> From<AllocFailed<T>> for Stop {
    ghost from_gives = { λ _ e. e ≡ stop.Memory };

    fn from(_error: AllocFailed<T>) -> Stop {
        Stop::Memory
    }
}

/// Where in a message reading stopped.
#[derive(Clone, Copy, Debug)]
pub(crate) struct Halt {
    /// The number of bytes from the key of the field on in which it stopped.
    pub(crate) left: usize,
    pub(crate) stop: Stop,
}
