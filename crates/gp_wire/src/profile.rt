use gp_isa::{Sequence, Text};

pub type ValueTypes = Sequence<ValueType>;

pub type Samples = Sequence<Sample>;

pub type Locations = Sequence<Location>;

pub type Functions = Sequence<Function>;

/// The string table. Other messages name a text by its place in it, counted from 0.
pub type Strings = Sequence<Text>;

pub type Words = Sequence<u64>;

pub type Values = Sequence<i64>;

pub type Labels = Sequence<Label>;

pub type Lines = Sequence<Line>;

/// The message `Profile` of `profile.proto`, without the fields that gp neither writes nor keeps.
#[derive(Debug, Drop)]
pub struct Profile {
    /// What the values of a sample count, one for each value.
    pub sample_types: ValueTypes,
    pub samples: Samples,
    pub locations: Locations,
    pub functions: Functions,
    pub strings: Strings,
    /// What lies between two samples.
    pub period_type: Option<ValueType>,
    /// The events between two samples, in the unit of the period type.
    pub period: i64,
    /// Nanoseconds.
    pub duration: i64,
}

/// The message `ValueType`: `kind` is its field `type`. Both are places in the string table.
#[derive(Clone, Copy, Debug, PartialEq, Eq)]
pub struct ValueType {
    pub kind: i64,
    pub unit: i64,
}

/// The message `Sample`: the ids of its locations, the leaf first, one value a sample type, and labels.
#[derive(Debug, Drop)]
pub struct Sample {
    pub location_ids: Words,
    pub values: Values,
    pub labels: Labels,
}

/// The message `Label`: `text` is its field `str`. Key, text and unit are places in the string table.
#[derive(Clone, Copy, Debug, PartialEq, Eq)]
pub struct Label {
    pub key: i64,
    pub text: i64,
    pub num: i64,
    pub num_unit: i64,
}

/// The message `Location`, its lines from the innermost inlined call outwards.
#[derive(Debug, Drop)]
pub struct Location {
    pub id: u64,
    pub lines: Lines,
}

/// The message `Line`: a function's id and a line of its file, counted from 1.
#[derive(Clone, Copy, Debug, PartialEq, Eq)]
pub struct Line {
    pub function_id: u64,
    pub line: i64,
}

/// The message `Function`. The names are places in the string table.
#[derive(Clone, Copy, Debug, PartialEq, Eq)]
pub struct Function {
    pub id: u64,
    pub name: i64,
    pub system_name: i64,
    pub filename: i64,
    pub start_line: i64,
}
