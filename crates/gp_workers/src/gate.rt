/// Where an actor stands between two turns of the lock.
#[derive(Clone, Copy, Debug, PartialEq, Eq)]
pub enum Place {
    /// Worker `w` has picked a goroutine.
    Picked { w: u32 },
    /// An actor has goroutine `g` to itself.
    Claimed { actor: u32, g: u32 },
    /// Worker `w` has made an entry.
    Entered { w: u32 },
    /// The profile of an epoch is open.
    Opened { epoch: u32 },
    /// An actor has recorded goroutine `g` in the active profile.
    Recorded { actor: u32, g: u32 },
    /// The profile of an epoch is closed.
    Closed { epoch: u32 },
    /// The reader has read the ring once. So many records it has taken so far.
    ReadOnce { records: u64 },
}

/// A hook between the turns of a run: each actor passes it after a step, at the place of that step, and holds no lock
/// then. It changes nothing of the run.
pub trait Gate: Sync {
    fn pass(&self, place: Place);
}

/// A gate that nobody has to wait at.
#[derive(Clone, Copy, Debug)]
pub struct NoGate;

impl Gate for NoGate {
    fn pass(&self, _place: Place) {}
}
