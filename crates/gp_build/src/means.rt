//! What a profile means. Numbers of texts, locations and functions are followed: those of texts as places, and ids mostly
//! as places counted from 1, so that few of them are looked for by hash.

ghost use Rattle.std.specs.Prelude.{◌≡◌, ◌==◌, ℕ, None, false, [], ◌++◌, map, find, IfOk, OnOk};
ghost use Rattle.std.specs.List.{flat_map};
ghost use Rattle.std.specs.Option.{option_copied, option_map};
ghost use Rattle.gp_wire.specs.Valid.{cause_of, bad_ids};
ghost use Rattle.gp_build.specs.Meant.{text_at, kind_meant, frame_in, frame_meant, frames_of_lines, frames_meant};
ghost use Rattle.gp_build.specs.Meant.{label_meant, sample_meant, meaning_of};
ghost use Rattle.gp_build.specs.kept.Ids.{AreIds};

use crate::meant::{
    Meaning, MeantFrame, MeantFrames, MeantLabel, MeantLabels, MeantSample, MeantSamples,
};
use crate::messages::room;
use crate::sample::{Kind, Kinds};
use gp_isa::{Memory, Sequence, Text};
use gp_wire::{Function, Label, Line, Location, Profile, Sample, Strings, ValueType};
use indexmap::IndexSet;
use std::alloc::Global;

// The text at a place of the string table.
fn text(alloc: Global, strings: &Strings, place: i64) -> Result<Text, Memory>
    ensures { IfOk result (λ text. text ≡ text_at strings.now place) }
{
    if place >= 0 {
        if let Some(text) = strings.get(place as usize) {
            return Text::from_str(alloc, text.as_str());
        }
    }
    Text::from_str(alloc, "")
}

fn kind(alloc: Global, strings: &Strings, kind: ValueType) -> Result<Kind, Memory>
    ensures { IfOk result (λ meant. meant ≡ kind_meant strings.now kind) }
{
    Ok(Kind {
        name: text(alloc, strings, kind.kind)?,
        unit: text(alloc, strings, kind.unit)?,
    })
}

fn kinds(alloc: Global, strings: &Strings, types: &[ValueType]) -> Result<Kinds, Memory>
    ensures { IfOk result (λ meant. meant ≡ map (kind_meant strings.now) types.now) }
{
    let mut meant = room(alloc, types.len())?;
    for item in types {
        meant.push(kind(alloc, strings, *item)?)?;
    }
    Ok(meant)
}

fn period_type(
    alloc: Global,
    strings: &Strings,
    period: Option<ValueType>,
) -> Result<Option<Kind>, Memory>
    ensures { IfOk result (λ meant. meant ≡ option_map (kind_meant strings.now) period) }
{
    match period {
        None => Ok(None),
        Some(item) => Ok(Some(kind(alloc, strings, item)?)),
    }
}

/// A message that has an id.
trait HasId {
    ghost id_of: { Self → ℕ };

    fn id(&self) -> u64
        ensures { result ≡ id_of self.now };
}

impl HasId for Location {
    ghost id_of = { λ l. l.id };

    fn id(&self) -> u64 {
        self.id
    }
}

impl HasId for Function {
    ghost id_of = { λ f. f.id };

    fn id(&self) -> u64 {
        self.id
    }
}

// The ids of messages, each at the place of its message.
fn id_set<M: HasId>(alloc: Global, items: &[M]) -> Result<IndexSet<u64>, Memory>
    requires { bad_ids (map M.id_of items.now) ≡ false }
    ensures { IfOk result (λ set. set.keys ≡ map M.id_of items.now) }
{
    let mut set = IndexSet::with_capacity(alloc, items.len())?;
    for item in items {
        set.insert(item.id())?;
    }
    Ok(set)
}

// The message with an id.
fn with_id<'a, M: HasId>(set: &IndexSet<u64>, items: &'a Sequence<M>, id: u64) -> Option<&'a M>
    requires ids { set.now.keys ≡ map M.id_of items.now }
    requires once { bad_ids set.now.keys ≡ false }
    ensures { option_copied result ≡ find (λ item. M.id_of item == id) items.now }
{
    if id > 0 {
        if let Some(item) = items.get(id as usize - 1) {
            if item.id() == id {
                return Some(item);
            }
        }
    }
    match set.get_index_of(&id) {
        Some(at) => items.get(at),
        None => None,
    }
}

/// The ids of a profile's functions and locations.
#[derive(Drop)]
struct Ids {
    functions: IndexSet<u64>,
    locations: IndexSet<u64>,
}

impl Ids {
    fn new(alloc: Global, profile: &Profile) -> Result<Ids, Memory>
        requires { cause_of profile.now ≡ None }
        ensures { IfOk result (λ ids. AreIds profile.now ids) }
    {
        Ok(Ids {
            functions: id_set(alloc, profile.functions.as_slice())?,
            locations: id_set(alloc, profile.locations.as_slice())?,
        })
    }
}

#[tactic(auto, unfolding(crate::specs::Meant::frame_meant))]
fn frame(alloc: Global, profile: &Profile, ids: &Ids, line: &Line) -> Result<MeantFrame, Memory>
    requires { AreIds profile.now ids.now }
    ensures { IfOk result (λ frame. frame ≡ frame_meant profile.now.strings profile.now.functions line.now) }
{
    let strings = &profile.strings;
    match with_id(&ids.functions, &profile.functions, line.function_id) {
        Some(function) => Ok(MeantFrame {
            name: text(alloc, strings, function.name)?,
            file: text(alloc, strings, function.filename)?,
            line: line.line,
        }),
        None => unknown(alloc, line.line),
    }
}

// A line of which nothing else is known.
fn unknown(alloc: Global, line: i64) -> Result<MeantFrame, Memory>
    ensures { IfOk result (λ frame. frame ≡ frame_in [] line None) }
{
    Ok(MeantFrame {
        name: Text::from_str(alloc, "")?,
        file: Text::from_str(alloc, "")?,
        line,
    })
}

fn push_lines(
    alloc: Global,
    profile: &Profile,
    ids: &Ids,
    lines: &[Line],
    frames: &mut MeantFrames,
) -> Result<(), Memory>
    requires { AreIds profile.now ids.now }
    ensures { OnOk result (frames.new ≡ frames.old ++ map (frame_meant profile.now.strings profile.now.functions) lines.now) }
{
    for line in lines {
        frames.push(frame(alloc, profile, ids, line)?)?;
    }
    Ok(())
}

// The frames of a location go to the end of a list.
#[tactic(auto, unfolding(crate::specs::Meant::frames_meant))]
fn push_frames(
    alloc: Global,
    profile: &Profile,
    ids: &Ids,
    id: u64,
    frames: &mut MeantFrames,
) -> Result<(), Memory>
    requires { AreIds profile.now ids.now }
    ensures { OnOk result (frames.new ≡ frames.old ++ frames_meant profile.now id) }
{
    match with_id(&ids.locations, &profile.locations, id) {
        Some(location) => {
            let lines = location.lines.as_slice();
            if lines.is_empty() {
                frames.push(unknown(alloc, 0)?)
            } else {
                push_lines(alloc, profile, ids, lines, frames)
            }
        }
        None => Ok(()),
    }
}

fn frames(
    alloc: Global,
    profile: &Profile,
    ids: &Ids,
    location_ids: &[u64],
) -> Result<MeantFrames, Memory>
    requires { AreIds profile.now ids.now }
    ensures { IfOk result (λ frames. frames ≡ flat_map (frames_meant profile.now) location_ids.now) }
{
    let mut frames = room(alloc, location_ids.len())?;
    for id in location_ids {
        push_frames(alloc, profile, ids, *id, &mut frames)?;
    }
    Ok(frames)
}

fn label(alloc: Global, strings: &Strings, label: &Label) -> Result<MeantLabel, Memory>
    ensures { IfOk result (λ meant. meant ≡ label_meant strings.now label.now) }
{
    let key = text(alloc, strings, label.key)?;
    if label.text == 0 {
        Ok(MeantLabel::Number {
            key,
            number: label.num,
            unit: text(alloc, strings, label.num_unit)?,
        })
    } else {
        Ok(MeantLabel::Said {
            key,
            value: text(alloc, strings, label.text)?,
        })
    }
}

fn labels(alloc: Global, strings: &Strings, labels: &[Label]) -> Result<MeantLabels, Memory>
    ensures { IfOk result (λ meant. meant ≡ map (label_meant strings.now) labels.now) }
{
    let mut meant = room(alloc, labels.len())?;
    for item in labels {
        meant.push(label(alloc, strings, item)?)?;
    }
    Ok(meant)
}

fn sample(
    alloc: Global,
    profile: &Profile,
    ids: &Ids,
    sample: &Sample,
) -> Result<MeantSample, Memory>
    requires { AreIds profile.now ids.now }
    ensures { IfOk result (λ meant. meant ≡ sample_meant profile.now sample.now) }
{
    Ok(MeantSample {
        values: Sequence::from_slice(alloc, sample.values.as_slice())?,
        frames: frames(alloc, profile, ids, sample.location_ids.as_slice())?,
        labels: labels(alloc, &profile.strings, sample.labels.as_slice())?,
    })
}

fn samples(alloc: Global, profile: &Profile, ids: &Ids) -> Result<MeantSamples, Memory>
    requires { AreIds profile.now ids.now }
    ensures { IfOk result (λ meant. meant ≡ map (sample_meant profile.now) profile.now.samples) }
{
    let mut meant = room(alloc, profile.samples.len())?;
    for item in profile.samples.as_slice() {
        meant.push(sample(alloc, profile, ids, item)?)?;
    }
    Ok(meant)
}

/// What a profile means. It has to be valid, as the profiles are that `decode` of `gp_wire` reads and those that the
/// builders of this crate make.
#[tactic(auto, unfolding(crate::specs::Meant::meaning_of))]
pub fn meaning(alloc: Global, profile: &Profile) -> Result<Meaning, Memory>
    requires valid { cause_of profile.now ≡ None }
    ensures { IfOk result (λ meaning. meaning ≡ meaning_of profile.now) }
{
    let ids = Ids::new(alloc, profile)?;
    let strings = &profile.strings;
    Ok(Meaning {
        types: kinds(alloc, strings, profile.sample_types.as_slice())?,
        period_type: period_type(alloc, strings, profile.period_type)?,
        period: profile.period,
        duration: profile.duration,
        samples: samples(alloc, profile, &ids)?,
    })
}
