use gp_isa::Sequence;

/// The entries of a run, in their order.
pub type Journal = Sequence<Entry>;

/// Numbers of entries or of instructions, one for each actor or worker.
pub type Counts = Sequence<u64>;

/// The room and the number of live goroutines of each refused profile.
pub type Refusals = Sequence<(u32, u32)>;

/// One event of the machine. `w` is a worker, `g` a goroutine, each counted from 0; the profiler's number as an
/// actor is the number of workers.
#[derive(Clone, Copy, Debug, PartialEq, Eq)]
pub enum Entry {
    /// Worker `w` begins to run `g`.
    Start { w: u32, g: u32 },
    /// `g` passes `n` local points on `w`.
    Run { w: u32, g: u32, n: u64 },
    /// `g` comes to its next point, a shared one, on `w`.
    Op { w: u32, g: u32 },
    /// A CPU sample of `g` is offered.
    Tick { w: u32, g: u32 },
    /// `w` puts `g` back.
    Park { w: u32, g: u32 },
    /// Profile `epoch` is opened into room for `room` records.
    Open { epoch: u32, room: u32 },
    /// No profile is opened, since `n` goroutines are live.
    Refuse { room: u32, n: u32 },
    /// `actor` records `g`.
    Record { actor: u32, g: u32 },
    /// Profile `epoch` is closed.
    Close { epoch: u32 },
}

/// How a run ended.
#[derive(Clone, Copy, Debug, PartialEq, Eq)]
pub enum Ended {
    /// `main` came to its end.
    Main,
    /// By `UNLOCK_OF_FREE`, or by `NO_CELL`.
    Fault { cause: u8 },
    /// The journal has at least as many entries as the option `entries` says, and a goroutine could go on.
    Full,
    /// Every live goroutine waits.
    Deadlock,
}
