use crate::sample::{Kind, Kinds};
use gp_isa::{Sequence, Text};
use gp_wire::Values;

pub type MeantSamples = Sequence<MeantSample>;

/// The frames of a sample, the leaf first.
pub type MeantFrames = Sequence<MeantFrame>;

pub type MeantLabels = Sequence<MeantLabel>;

/// What a profile means: its texts, and no numbers that stand for them.
#[derive(Debug, Drop)]
pub struct Meaning {
    /// What the values of a sample count, one for each value.
    pub types: Kinds,
    /// What lies between two samples.
    pub period_type: Option<Kind>,
    /// The events between two samples, in the unit of the period type.
    pub period: i64,
    /// Nanoseconds.
    pub duration: i64,
    pub samples: MeantSamples,
}

/// A sample with its values, in the order of the sample types.
#[derive(Debug, Drop)]
pub struct MeantSample {
    pub values: Values,
    pub frames: MeantFrames,
    pub labels: MeantLabels,
}

/// A line of a function's file, counted from 1. Where nothing is known of the function, name and file are empty.
#[derive(Debug, Drop)]
pub struct MeantFrame {
    pub name: Text,
    pub file: Text,
    pub line: i64,
}

/// A label: its key with a text, or with a number in a unit, which may be empty.
#[derive(Debug, Drop)]
pub enum MeantLabel {
    Said { key: Text, value: Text },
    Number { key: Text, number: i64, unit: Text },
}
