/// What a worker that has nothing is given.
#[derive(Clone, Copy, Debug, PartialEq, Eq)]
pub enum Pick {
    /// The goroutine that has waited longest, which no other worker can pick now. `epoch` is the active profile's, or 0.
    Go { g: u32, epoch: u32 },
    /// A profile is asked for, or nobody waits.
    Idle,
    /// The run is over.
    Over,
}
