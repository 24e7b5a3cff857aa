ghost use Rattle.std.specs.Prelude.{◌≡◌};
ghost use Rattle.gp_machine.specs.AtPoint.{at_point};

use gp_journal::Applied;

/// What becomes of a goroutine that comes to a shared point.
#[derive(Clone, Copy, Debug, PartialEq, Eq)]
pub enum AtPoint {
    /// It waits there, or made a fault. Of an entry that isn't an Op this is told too.
    Stays,
    /// It has passed the point.
    Passes,
    /// It has passed the point, and another goroutine was born, which has the last number.
    Bears,
}

impl AtPoint {
    /// What the answer to an entry tells of it.
    pub fn of(answer: Applied) -> AtPoint
        ensures { result ≡ at_point answer }
    {
        match answer {
            Applied::Passed { .. } => AtPoint::Passes,
            Applied::Born { .. } => AtPoint::Bears,
            Applied::Plain { .. } => AtPoint::Stays,
            Applied::Blocked => AtPoint::Stays,
            Applied::Fault { .. } => AtPoint::Stays,
        }
    }
}
