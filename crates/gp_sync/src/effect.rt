ghost use Rattle.std.specs.Prelude.{◌≡◌};

/// What an operation does to the goroutine that makes it.
#[derive(Clone, Copy, Debug, PartialEq, Eq)]
pub enum Effect {
    /// It is passed.
    Done,
    /// The goroutine waits at the tail of a line.
    Blocks,
    /// It is passed, and goroutine `g`, which has waited since the clock `since`, is woken.
    Wakes { g: u32, since: u64 },
    /// An unlock of a mutex that is free.
    Fault,
}

/// A goroutine that waits in a line, and the clock at which it blocked.
#[derive(Clone, Copy, Debug, PartialEq, Eq)]
pub struct Waiter {
    pub g: u32,
    pub since: u64,
}

impl Waiter {
    /// That this one is woken.
    pub fn woken(self) -> Effect
        ensures { result ≡ Effect.Wakes self.g self.since }
    {
        Effect::Wakes {
            g: self.g,
            since: self.since,
        }
    }
}
