//! The messages of a profile, which name texts, locations and functions by their numbers.

ghost use Rattle.std.specs.Prelude.{◌≡◌, ◌∷◌, [], map, All, IfOk};
ghost use Rattle.gp_wire.specs.RoundTrip.{IsWord, IsInt64, IsText, TypeFits, PeriodFits, LabelFits, SampleFits, LocationFits, FunctionFits};
ghost use Rattle.gp_build.specs.Numbers as numbers;
ghost use Rattle.gp_build.specs.Numbers.{string_number, text_of};
ghost use Rattle.gp_build.specs.Message.{type_of, period_type_of, label_of, sample_of, location_of, function_in};

use crate::lines::{Lines, is_at};
use crate::lookup::{self, filename, header_line, name};
use crate::need::Need;
use crate::sample::{Kind, StackSample};
use crate::site::{Routine, Site};
use crate::tables::place;
use gp_isa::{Memory, Pair, Parts, Sequence, Text};
use gp_wire::{
    Function, Functions, Label, Labels, Line, Location, Locations, Sample, Samples, Strings,
    ValueType, ValueTypes, Values, Words,
};
use indexmap::IndexSet;
use std::alloc::Global;

/// An empty list with room for `n` elements.
pub(crate) fn room<T>(alloc: Global, n: usize) -> Result<Sequence<T>, Memory>
    ensures { IfOk result (λ items. items ≡ []) }
{
    Ok(Sequence::from_vec(Vec::with_capacity(alloc, n)?))
}

/// A list of one.
pub(crate) fn one<T: Drop>(alloc: Global, item: T) -> Result<Sequence<T>, Memory>
    ensures { IfOk result (λ items. items ≡ item ∷ []) }
{
    let mut items = room(alloc, 1)?;
    items.push(item)?;
    Ok(items)
}

// The number of a text.
fn number<'a>(strings: &IndexSet<Need<'a>>, need: &Need<'a>) -> i64
    ensures { result ≡ string_number strings.now.keys need.now }
{
    place(strings, need) as i64
}

fn kind<'a>(strings: &IndexSet<Need<'a>>, kind: &'a Kind) -> ValueType
    ensures kind { result ≡ type_of strings.now.keys kind.now }
    ensures fits { TypeFits result }
{
    ValueType {
        kind: number(strings, &Need::text(kind.name.as_str())),
        unit: number(strings, &Need::text(kind.unit.as_str())),
    }
}

/// The sample types.
pub(crate) fn kinds<'a>(
    alloc: Global,
    strings: &IndexSet<Need<'a>>,
    kinds: &'a [Kind],
) -> Result<ValueTypes, Memory>
    ensures types { IfOk result (λ types. types ≡ map (type_of strings.now.keys) kinds.now) }
    ensures fit { IfOk result (λ types. All TypeFits types) }
{
    let mut types = room(alloc, kinds.len())?;
    for item in kinds {
        types.push(kind(strings, item))?;
    }
    Ok(types)
}

/// The period type.
pub(crate) fn period_type<'a>(
    strings: &IndexSet<Need<'a>>,
    period: &'a Option<Kind>,
) -> Option<ValueType>
    ensures kind { result ≡ period_type_of strings.now.keys period.now }
    ensures fits { PeriodFits result }
{
    match period {
        None => None,
        Some(item) => Some(kind(strings, item)),
    }
}

fn label<'a>(strings: &IndexSet<Need<'a>>, pair: &'a Pair) -> Label
    ensures label { result ≡ label_of strings.now.keys pair.now }
    ensures fits { LabelFits result }
{
    Label {
        key: number(strings, &Need::text(pair.key.as_str())),
        text: number(strings, &Need::value(pair.value.as_str())),
        num: 0,
        num_unit: 0,
    }
}

fn labels<'a>(
    alloc: Global,
    strings: &IndexSet<Need<'a>>,
    pairs: &'a [Pair],
) -> Result<Labels, Memory>
    ensures labels { IfOk result (λ labels. labels ≡ map (label_of strings.now.keys) pairs.now) }
    ensures fit { IfOk result (λ labels. All LabelFits labels) }
{
    let mut labels = room(alloc, pairs.len())?;
    for pair in pairs {
        labels.push(label(strings, pair))?;
    }
    Ok(labels)
}

// Ids are counted from 1.
fn location_id(locations: &IndexSet<Site>, site: Site) -> u64
    ensures { result ≡ numbers.location_id locations.now.keys site }
{
    place(locations, &site) as u64 + 1
}

fn function_id(functions: &IndexSet<Routine>, routine: Routine) -> u64
    ensures { result ≡ numbers.function_id functions.now.keys routine }
{
    place(functions, &routine) as u64 + 1
}

// The same id, without a look-up by hash where the site's line was met.
fn met_id(locations: &IndexSet<Site>, lines: &Lines, site: Site) -> u64
    ensures { result ≡ numbers.location_id locations.now.keys site }
{
    let met = lines.place(site);
    if is_at(locations, met, site) {
        return met as u64 + 1;
    }
    location_id(locations, site)
}

fn location_ids(
    alloc: Global,
    locations: &IndexSet<Site>,
    lines: &Lines,
    stack: &[Site],
) -> Result<Words, Memory>
    ensures ids { IfOk result (λ ids. ids ≡ map (numbers.location_id locations.now.keys) stack.now) }
    ensures fit { IfOk result (λ ids. All IsWord ids) }
{
    let mut ids = room(alloc, stack.len())?;
    for site in stack {
        ids.push(met_id(locations, lines, *site))?;
    }
    Ok(ids)
}

fn values(alloc: Global, values: &[i64]) -> Result<Values, Memory>
    ensures values { IfOk result (λ copy. copy ≡ values.now) }
    ensures fit { IfOk result (λ copy. All IsInt64 copy) }
{
    let mut copy = room(alloc, values.len())?;
    for value in values {
        copy.push(*value)?;
    }
    Ok(copy)
}

fn sample<'a>(
    alloc: Global,
    parts: &'a Parts,
    strings: &IndexSet<Need<'a>>,
    locations: &IndexSet<Site>,
    lines: &Lines,
    sample: &StackSample,
) -> Result<Sample, Memory>
    ensures message { IfOk result (λ message. message ≡ sample_of parts.now strings.now.keys locations.now.keys sample.now) }
    ensures fits { IfOk result (λ message. SampleFits message) }
{
    Ok(Sample {
        location_ids: location_ids(alloc, locations, lines, sample.stack.as_slice())?,
        values: values(alloc, sample.values.as_slice())?,
        labels: labels(alloc, strings, lookup::labels(parts, sample.set))?,
    })
}

pub(crate) fn samples<'a>(
    alloc: Global,
    parts: &'a Parts,
    strings: &IndexSet<Need<'a>>,
    locations: &IndexSet<Site>,
    lines: &Lines,
    samples: &[StackSample],
) -> Result<Samples, Memory>
    ensures messages { IfOk result (λ messages. messages ≡ map (sample_of parts.now strings.now.keys locations.now.keys) samples.now) }
    ensures fit { IfOk result (λ messages. All SampleFits messages) }
{
    let mut messages = room(alloc, samples.len())?;
    for item in samples {
        messages.push(sample(alloc, parts, strings, locations, lines, item)?)?;
    }
    Ok(messages)
}

fn location(
    alloc: Global,
    locations: &IndexSet<Site>,
    functions: &IndexSet<Routine>,
    site: Site,
) -> Result<Location, Memory>
    ensures location { IfOk result (λ location. location ≡ location_of locations.now.keys functions.now.keys site) }
    ensures fits { IfOk result (λ location. LocationFits location) }
{
    let line = Line {
        function_id: function_id(functions, site.routine),
        line: i64::from(site.line),
    };
    Ok(Location {
        id: location_id(locations, site),
        lines: one(alloc, line)?,
    })
}

pub(crate) fn locations(
    alloc: Global,
    table: &IndexSet<Site>,
    functions: &IndexSet<Routine>,
) -> Result<Locations, Memory>
    ensures locations { IfOk result (λ locations. locations ≡ map (location_of table.now.keys functions.now.keys) table.now.keys) }
    ensures fit { IfOk result (λ locations. All LocationFits locations) }
{
    let mut locations = room(alloc, table.len())?;
    for site in table.as_slice() {
        locations.push(location(alloc, table, functions, *site)?)?;
    }
    Ok(locations)
}

fn function<'a>(
    parts: &'a Parts,
    file: &'a str,
    strings: &IndexSet<Need<'a>>,
    functions: &IndexSet<Routine>,
    routine: Routine,
) -> Function
    ensures function { result ≡ function_in parts.now file.now strings.now.keys functions.now.keys routine }
    ensures fits { FunctionFits result }
{
    let name = number(strings, &Need::text(name(parts, routine)));
    Function {
        id: function_id(functions, routine),
        name,
        system_name: name,
        filename: number(strings, &Need::text(filename(file, routine))),
        start_line: i64::from(header_line(parts, routine)),
    }
}

pub(crate) fn functions<'a>(
    alloc: Global,
    parts: &'a Parts,
    file: &'a str,
    strings: &IndexSet<Need<'a>>,
    table: &IndexSet<Routine>,
) -> Result<Functions, Memory>
    ensures functions { IfOk result (λ all. all ≡ map (function_in parts.now file.now strings.now.keys table.now.keys) table.now.keys) }
    ensures fit { IfOk result (λ all. All FunctionFits all) }
{
    let mut functions = room(alloc, table.len())?;
    for routine in table.as_slice() {
        functions.push(function(parts, file, strings, table, *routine))?;
    }
    Ok(functions)
}

pub(crate) fn strings(alloc: Global, table: &IndexSet<Need>) -> Result<Strings, Memory>
    ensures strings { IfOk result (λ strings. strings ≡ map text_of table.now.keys) }
    ensures texts { IfOk result (λ strings. All IsText strings) }
{
    let mut strings = room(alloc, table.len())?;
    for need in table.as_slice() {
        strings.push(Text::from_str(alloc, need.as_str())?)?;
    }
    Ok(strings)
}
