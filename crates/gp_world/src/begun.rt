use gp_stack::Record;

/// What became of a start.
#[derive(Debug, Drop)]
pub enum Begun {
    /// A profile is asked for, or the run is over; the goroutine waits again, before all others. A copy that wasn't entered
    /// comes back.
    NotNow { copy: Option<Record>, epoch: u32 },
    /// The goroutine has still to be recorded in the active profile, whose epoch this is, and no copy came. Nothing was entered.
    NeedCopy { epoch: u32 },
    /// It runs. `epoch` is the goroutine's.
    Started { epoch: u32 },
}
