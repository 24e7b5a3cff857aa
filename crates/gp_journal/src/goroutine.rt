/// What a goroutine is doing.
#[derive(Clone, Copy, Debug, PartialEq, Eq)]
pub enum Status {
    /// It could run, and no worker runs it.
    Runnable,
    /// Worker `w` runs it.
    Running { w: u32 },
    /// It waits at a channel or a mutex.
    Blocked,
    /// It made a fault.
    Faulted,
    /// Its trace is ended.
    Dead,
}

/// A goroutine that was born: where it stands, what it does, and when.
#[derive(Clone, Copy, Debug, PartialEq, Eq)]
pub struct Goroutine {
    /// The function that it runs.
    pub start: u32,
    /// The label set that it was born with.
    pub set: u8,
    /// How many points of its trace it has passed.
    pub count: u64,
    pub status: Status,
    /// It was woken, and its next point, at which it waited, is granted.
    pub granted: bool,
    /// The last profile in which it was recorded or born.
    pub epoch: u32,
    /// The clock at which it last blocked, in instructions.
    pub blocked: u64,
    /// The clock at which it was last woken, in instructions.
    pub woken: u64,
}

/// A worker: what it runs, and how far it has come.
#[derive(Clone, Copy, Debug, PartialEq, Eq)]
pub struct Worker {
    pub runs: Option<u32>,
    /// Instructions of all goroutines that it has run.
    pub instructions: u64,
    /// Instructions since it started what it runs.
    pub slice: u64,
    /// A CPU sample is due.
    pub tick: bool,
}
