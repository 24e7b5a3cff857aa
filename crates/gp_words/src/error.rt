ghost use Rattle.std.specs.Prelude.{◌≡◌};
ghost use Rattle.gp_words.specs.declared.error.WordError.TheVariants.{Memory as OutOfMemory};

use gp_isa::Memory;

/// Why words are no job.
#[derive(Clone, Copy, Debug, PartialEq, Eq)]
pub enum WordError {
    /// The first fault in the words: the place of a word, counted from 0, and one of the causes of [`crate::cause`].
    Usage { place: u32, cause: u8 },
    /// An allocation was refused.
    Memory,
}

impl From<Memory> for WordError {
    ghost from_gives = { λ _ e. e ≡ OutOfMemory };

    fn from(_error: Memory) -> WordError {
        WordError::Memory
    }
}
