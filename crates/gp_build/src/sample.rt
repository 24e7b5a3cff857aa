ghost use Rattle.std.specs.Prelude.{◌≡◌, IfOk};

use crate::site::Sites;
use gp_isa::{Memory, Sequence, Text};
use gp_wire::Values;
use std::alloc::Global;

/// What a value counts.
pub type Kinds = Sequence<Kind>;

/// What is counted, and in which unit, as goroutines by their count, or delays in nanoseconds.
#[derive(Debug, Drop)]
pub struct Kind {
    pub name: Text,
    pub unit: Text,
}

impl Kind {
    /// The kind with this name and this unit.
    pub fn new(alloc: Global, name: &str, unit: &str) -> Result<Kind, Memory>
        ensures { IfOk result (λ kind. kind ≡ record { name = name.now; unit = unit.now }) }
    {
        Ok(Kind {
            name: Text::from_str(alloc, name)?,
            unit: Text::from_str(alloc, unit)?,
        })
    }
}

/// What a profile says of all its samples.
#[derive(Debug, Drop)]
pub struct Header {
    /// What the values of a sample count, one for each value.
    pub types: Kinds,
    /// What lies between two samples.
    pub period_type: Option<Kind>,
    /// The events between two samples, in the unit of the period type.
    pub period: i64,
    /// Nanoseconds.
    pub duration: i64,
}

/// A sample: its stack, its label set by number, of which 0 is the empty one, and one value a sample type.
#[derive(Debug, Drop)]
pub struct StackSample {
    pub stack: Sites,
    pub set: u8,
    pub values: Values,
}
