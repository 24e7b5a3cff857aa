ghost use Rattle.std.specs.Prelude.{◌≡◌};
ghost use Rattle.gp_history.specs.Events.{frames_of};

use gp_isa::limits::{BLOCK_FRAMES, MUTEX_FRAMES};

/// What an Op leaves for the profiles of waits.
#[derive(Clone, Copy, Debug, PartialEq, Eq)]
pub enum OpEvent {
    /// No event.
    Nothing,
    /// It ends a wait of so many nanoseconds, which is a block event.
    Block { delay: u64 },
    /// It unlocks a mutex for which another goroutine has waited so many nanoseconds, and this mutex event is kept.
    Mutex { delay: u64 },
    /// Such an unlock whose event isn't kept.
    Skipped,
}

impl OpEvent {
    /// How many frames of the goroutine's stack, from the leaf on, go with the event.
    pub fn frames(self) -> u32
        ensures { result ≡ frames_of self }
    {
        match self {
            OpEvent::Nothing => 0,
            OpEvent::Block { .. } => BLOCK_FRAMES,
            OpEvent::Mutex { .. } => MUTEX_FRAMES,
            OpEvent::Skipped => 0,
        }
    }
}
