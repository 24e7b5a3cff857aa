/// What became of a profile that is asked for. In it `n` is the number of goroutines that are live.
#[derive(Clone, Copy, Debug, PartialEq, Eq)]
pub enum Opening {
    /// It is opened, under this epoch.
    Opened { epoch: u32, n: u32 },
    /// It is refused: nobody runs, and more are live than its room allows.
    TooSmall { n: u32, room: u32 },
    /// So many goroutines run. Nothing was entered.
    NotStopped { running: u32 },
}

/// What became of the copy of a goroutine.
#[derive(Clone, Copy, Debug, PartialEq, Eq)]
pub enum Recording {
    /// It is the goroutine's record in the active profile.
    Recorded,
    /// No profile is active, or the goroutine has the active one's epoch: it was recorded, or born after the Open. The epoch
    /// is the goroutine's. Nothing was entered, and the copy is dropped.
    Already { epoch: u32 },
}

/// What became of the active profile.
#[derive(Clone, Copy, Debug, PartialEq, Eq)]
pub enum Closing {
    /// It is closed. This was its epoch.
    Closed { epoch: u32 },
    /// It has `have` records, fewer than the `n` goroutines that were live at its Open. Nothing was entered.
    Missing { have: u32, n: u32 },
}
