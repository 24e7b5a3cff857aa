use gp_stack::Operation;

/// The cause of the fault that an unlock of a free mutex makes.
pub const UNLOCK_OF_FREE: u8 = 1;

/// The cause of the fault that is made where a goroutine is to be born and no cell is left.
pub const NO_CELL: u8 = 2;

/// A goroutine's next point where it is shared: what it does, and the labels that the goroutine has there, which one
/// that is born of it inherits.
#[derive(Clone, Copy, Debug, PartialEq, Eq)]
pub struct SharedPoint {
    pub operation: Operation,
    /// The number of a label set.
    pub labels: u8,
}

/// What an entry did.
#[derive(Clone, Copy, Debug, PartialEq, Eq)]
pub enum Applied {
    /// An entry that isn't an Op was made. `died`: the goroutine's trace ended with it.
    Plain {
        died: bool,
    },
    /// A point was passed. It may have woken another goroutine, and it may have been the one at which the goroutine
    /// had waited, which is a block event. `died`: the trace ended with it.
    Passed {
        woke: Option<Woken>,
        event: Option<Wait>,
        died: bool,
    },
    /// Goroutine `g` was born. `died`: the trace of its creator ended with it.
    Born {
        g: u32,
        died: bool,
    },
    /// The goroutine waits now.
    Blocked,
    /// A fault was made, by `UNLOCK_OF_FREE` or `NO_CELL`.
    Fault {
        cause: u8,
    },
}

/// A goroutine that was woken.
#[derive(Clone, Copy, Debug, PartialEq, Eq)]
pub struct Woken {
    /// The clock at which it blocked, in instructions.
    pub since: u64,
    pub g: u32,
    /// It waited for a mutex, which was unlocked.
    pub contended: bool,
}

/// The wait of a goroutine that goes on.
#[derive(Clone, Copy, Debug, PartialEq, Eq)]
pub struct Wait {
    /// In nanoseconds, 1 at least.
    pub delay: u64,
}

/// What a due Op will tell, before it is made.
#[derive(Clone, Copy, Debug, PartialEq, Eq)]
pub struct Foreseen {
    /// The delay of the block event that it makes at rate 1, in nanoseconds.
    pub wait: Option<u64>,
    /// Where it unlocks a mutex for which a goroutine waits: how long the first of them has waited, in nanoseconds.
    pub contended: Option<u64>,
}
