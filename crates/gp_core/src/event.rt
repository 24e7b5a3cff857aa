/// One event of the core. `a` is an actor, `w` a worker, `g` a goroutine, each counted from 0; the profiler is the actor
/// behind the workers.
#[derive(Clone, Copy, Debug, PartialEq, Eq)]
pub enum CoreEvent {
    /// `a` claims `g`, which has still to be recorded.
    Claim { a: u32, g: u32 },
    /// `a` copies the row of `g`, which it holds.
    Copy { a: u32, g: u32 },
    /// `a` puts `g` back, which is recorded.
    Satisfy { a: u32, g: u32 },
    /// `w` takes `g`, to run it.
    Take { w: u32, g: u32 },
    /// `w` records `g` where it has to, and starts it where it may.
    Begin { w: u32, g: u32 },
    /// `a` adds the Record of its claim, or the entry that is due on it.
    Commit { a: u32, g: u32 },
    /// `w` puts `g` back.
    Give { w: u32, g: u32 },
    /// `w` puts the body of `g` into its cell, which was born.
    Bear { w: u32, g: u32 },
    /// `w` puts away the body of `g`, which is dead.
    Bury { w: u32, g: u32 },
    /// A profile is opened, or refused.
    OpenAll,
    /// The active profile is closed.
    CloseAll,
}
