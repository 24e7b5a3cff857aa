use gp_isa::{Frame, Sequence};

/// A stack: its frames, the leaf first.
pub type Stack = Sequence<Frame>;

/// The records of one profile.
pub type Records = Sequence<Record>;

/// The records of each profile, by epoch.
pub type Profiles = Sequence<Records>;

/// What a profile has of goroutine `g`: its stack, cut to the frame limit, and the number of its label set.
#[derive(Debug, Drop)]
pub struct Record {
    pub g: u32,
    pub stack: Stack,
    pub set: u8,
}
