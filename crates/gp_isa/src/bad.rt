ghost use Rattle.std.specs.Prelude.{◌≡◌};
ghost use Rattle.gp_isa.specs.declared.bad.Bad.TheVariants.{Memory as OutOfMemory};

use crate::memory::Memory;

/// Why parts are no program. Functions are numbered from 0 in file order.
#[derive(Clone, Copy, Debug, PartialEq, Eq)]
pub enum Bad {
    /// No function is called `main`.
    NoMain,
    /// The first function in which it or one of its loops has no statement.
    Empty { function: u32 },
    /// The first function that can call itself.
    Recursion { function: u32 },
    /// The first function whose trace has more than 2^40 points.
    TooLong { function: u32 },
    /// An allocation was refused.
    Memory,
}

impl From<Memory> for Bad {
    ghost from_gives = { λ _ e. e ≡ OutOfMemory };

    fn from(_error: Memory) -> Bad {
        Bad::Memory
    }
}
