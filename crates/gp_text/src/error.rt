ghost use Rattle.std.specs.Prelude.{◌≡◌};
ghost use Rattle.gp_text.specs.declared.error.TextError.TheVariants.{Memory as OutOfMemory};

use crate::cause::Cause;
use gp_isa::Memory;
use std::alloc::{AllocError, AllocFailed};

/// Why no program was read.
#[derive(Clone, Copy, Debug, PartialEq, Eq)]
pub enum TextError {
    /// The first fault: its line, counted from 1, and its cause. Line 0 stands for the whole file.
    Refused { line: u32, cause: Cause },
    /// An allocation was refused.
    Memory,
}

impl From<Memory> for TextError {
    ghost from_gives = { λ _ e. e ≡ OutOfMemory };

    fn from(_error: Memory) -> TextError {
        TextError::Memory
    }
}

impl From<AllocError> for TextError {
    ghost from_gives = { λ _ e. e ≡ OutOfMemory };

    fn from(_error: AllocError) -> TextError {
        TextError::Memory
    }
}

impl<T: Drop> From<AllocFailed<T>> for TextError {
    ghost from_gives = { λ _ e. e ≡ OutOfMemory };

    fn from(_error: AllocFailed<T>) -> TextError {
        TextError::Memory
    }
}
