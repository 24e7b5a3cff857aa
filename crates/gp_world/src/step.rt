use gp_ring::Wrote;
use gp_stack::Body;

/// What became of the goroutine that a worker runs, by the entry that was due.
#[derive(Drop)]
pub enum Step {
    /// It runs so many points, by which its body is to advance before the next call.
    Advance {
        n: u64,
    },
    /// Its trace ended. Its body isn't advanced any more.
    Died,
    /// It bore goroutine `g`, whose epoch and body these are. `died`: its own trace ended with that.
    Born {
        g: u32,
        epoch: u32,
        body: Body,
        died: bool,
    },
    /// It was sampled.
    Ticked {
        wrote: Wrote,
    },
    /// It passed a shared point.
    Passed,
    /// It waits at a shared point.
    Blocked,
    /// It waits for a worker again.
    Parked,
    /// It made a fault, by this cause.
    Faulted {
        cause: u8,
    },
}
