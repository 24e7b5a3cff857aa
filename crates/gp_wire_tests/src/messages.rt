//! Messages that no builder makes, as bytes in hexadecimal text.
use crate::readings::tell_bytes;
use gp_cases::{Page, Unanswered, halves, integer, integers, number_64, word, words};
use gp_isa::{Sequence, Text};
use gp_wire::{Function, Label, Labels, Line, Location, Profile, Sample, ValueType};
use std::alloc::Global;

// A kind, as two places in the string table.
fn kind(row: &str) -> Result<ValueType, Unanswered> {
    let (kind, unit) = word(row);
    Ok(ValueType {
        kind: integer(kind)?,
        unit: integer(unit)?,
    })
}

fn ids(alloc: Global, row: &str) -> Result<Sequence<u64>, Unanswered> {
    let mut ids = Sequence::new(alloc);
    for word in words(alloc, row)? {
        ids.push(number_64(word)?)?;
    }
    Ok(ids)
}

// Labels, four numbers each: key, text, number and unit.
fn labels(alloc: Global, row: &str) -> Result<Labels, Unanswered> {
    let fields = integers(alloc, row)?;
    let mut labels = Sequence::new(alloc);
    for label in fields.as_slice().chunks(4) {
        let [key, text, num, num_unit] = label else {
            return Err(Unanswered::Form);
        };
        labels.push(Label {
            key: *key,
            text: *text,
            num: *num,
            num_unit: *num_unit,
        })?;
    }
    Ok(labels)
}

// A sample: its location ids, its values and its labels.
fn sample(alloc: Global, row: &str) -> Result<Sample, Unanswered> {
    let (location_ids, rest) = halves(row, '/')?;
    let (values, all_labels) = halves(rest, '/')?;
    Ok(Sample {
        location_ids: ids(alloc, location_ids)?,
        values: integers(alloc, values)?,
        labels: labels(alloc, all_labels)?,
    })
}

// A location: its id, and its lines as function and line.
fn location(alloc: Global, row: &str) -> Result<Location, Unanswered> {
    let (id, rest) = word(row);
    let mut lines = Sequence::new(alloc);
    for line in words(alloc, rest)? {
        let (function_id, line) = halves(line, ':')?;
        lines.push(Line {
            function_id: number_64(function_id)?,
            line: integer(line)?,
        })?;
    }
    Ok(Location {
        id: number_64(id)?,
        lines,
    })
}

// A function: its id, and then name, system name, filename and start line.
fn function(alloc: Global, row: &str) -> Result<Function, Unanswered> {
    let (id, rest) = word(row);
    let fields = integers(alloc, rest)?;
    let [name, system_name, filename, start_line] = fields.as_slice() else {
        return Err(Unanswered::Form);
    };
    Ok(Function {
        id: number_64(id)?,
        name: *name,
        system_name: *system_name,
        filename: *filename,
        start_line: *start_line,
    })
}

fn add(alloc: Global, profile: &mut Profile, row: &str) -> Result<(), Unanswered> {
    let (field, rest) = word(row);
    match field {
        "type" => profile.sample_types.push(kind(rest)?)?,
        "sample" => profile.samples.push(sample(alloc, rest)?)?,
        "location" => profile.locations.push(location(alloc, rest)?)?,
        "function" => profile.functions.push(function(alloc, rest)?)?,
        "string" => profile.strings.push(Text::from_str(alloc, rest)?)?,
        "period-type" => profile.period_type = Some(kind(rest)?),
        "period" => profile.period = integer(rest)?,
        _ => profile.duration = integer(rest)?,
    }
    Ok(())
}

/// The bytes of the rows' fields.
pub fn message(alloc: Global, page: &mut Page, rows: &[&str]) -> Result<(), Unanswered> {
    let mut profile = Profile {
        sample_types: Sequence::new(alloc),
        samples: Sequence::new(alloc),
        locations: Sequence::new(alloc),
        functions: Sequence::new(alloc),
        strings: Sequence::new(alloc),
        period_type: None,
        period: 0,
        duration: 0,
    };
    for row in rows {
        add(alloc, &mut profile, row)?;
    }
    tell_bytes(alloc, page, &profile)
}
