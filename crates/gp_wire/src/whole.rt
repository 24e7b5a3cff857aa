//! The faults of a profile as a whole: the string table, the places in it, and the ids of locations and functions.

ghost use Rattle.std.specs.Prelude.{◌≡◌, ℕ, ℤ, List, not, true, false, map, IfOk, MatchOption, option_to_list};
ghost use Rattle.std.specs.List.{list_any};
ghost use Rattle.gp_wire.specs.Valid.{begins_empty, is_place, strange_places, places_of_type, places_of_function, places_of_label};
ghost use Rattle.gp_wire.specs.Valid.{has_bad_place, is_id_among, bad_ids, strange_location, strange_function, location_ids, has_bad_name, has_bad_id, cause_of};

use crate::cause::Cause;
use crate::profile::{Function, Label, Line, Location, Profile, Sample, ValueType};
use gp_isa::{Memory, Text};
use indexmap::IndexSet;
use std::alloc::Global;

// Whether a place in the string table is there.
fn is_place(strings: &[Text], place: i64) -> bool
    ensures { result ≡ is_place strings.now place }
{
    place >= 0 && place.cast_unsigned() < strings.len() as u64
}

/// A message that names places in the string table.
trait NamesPlaces {
    ghost places: { Self → List ℤ };

    /// Whether one of them isn't there.
    fn is_strange(&self, strings: &[Text]) -> bool
        ensures { result ≡ list_any (λ place. not (is_place strings.now place)) (places self.now) };
}

impl NamesPlaces for ValueType {
    ghost places = { places_of_type };

    fn is_strange(&self, strings: &[Text]) -> bool {
        !is_place(strings, self.kind) || !is_place(strings, self.unit)
    }
}

impl NamesPlaces for Function {
    ghost places = { places_of_function };

    fn is_strange(&self, strings: &[Text]) -> bool {
        !is_place(strings, self.name)
            || !is_place(strings, self.system_name)
            || !is_place(strings, self.filename)
    }
}

impl NamesPlaces for Label {
    ghost places = { places_of_label };

    fn is_strange(&self, strings: &[Text]) -> bool {
        !is_place(strings, self.key)
            || !is_place(strings, self.text)
            || !is_place(strings, self.num_unit)
    }
}

fn are_strange<M: NamesPlaces>(strings: &[Text], items: &[M]) -> bool
    ensures { result ≡ strange_places strings.now M.places items.now }
{
    items.iter().any(|item| item.is_strange(strings))
}

fn is_strange_period(strings: &[Text], period_type: &Option<ValueType>) -> bool
    ensures { result ≡ strange_places strings.now places_of_type (option_to_list period_type.now) }
{
    match period_type {
        Some(kind) => kind.is_strange(strings),
        None => false,
    }
}

#[tactic(auto, unfolding(crate::specs::Valid::has_bad_place))]
fn has_bad_place(profile: &Profile) -> bool
    ensures { result ≡ has_bad_place profile.now }
{
    let strings = profile.strings.as_slice();
    are_strange(strings, profile.sample_types.as_slice())
        || is_strange_period(strings, &profile.period_type)
        || are_strange(strings, profile.functions.as_slice())
        || have_strange_labels(strings, profile.samples.as_slice())
}

fn have_strange_labels(strings: &[Text], samples: &[Sample]) -> bool
    ensures { result ≡ list_any (λ (s : Sample). strange_places strings.now places_of_label s.labels) samples.now }
{
    samples
        .iter()
        .any(|sample| are_strange(strings, sample.labels.as_slice()))
}

/// A message that has an id.
trait HasId {
    ghost id_of: { Self → ℕ };

    fn id(&self) -> u64
        ensures { result ≡ id_of self.now };
}

impl HasId for Location {
    ghost id_of = { λ l. l.id };

    fn id(&self) -> u64 {
        self.id
    }
}

impl HasId for Function {
    ghost id_of = { λ f. f.id };

    fn id(&self) -> u64 {
        self.id
    }
}

// The ids of messages, in their order, unless one is 0 or stands twice.
fn id_set<M: HasId>(alloc: Global, items: &[M]) -> Result<Option<IndexSet<u64>>, Memory>
    ensures { let ids = map M.id_of items.now in
        IfOk result (λ found. MatchOption found (bad_ids ids ≡ true) (λ set. (set.keys ≡ ids) × (bad_ids ids ≡ false))) }
{
    let mut set = IndexSet::with_capacity(alloc, items.len())?;
    for item in items {
        let id = item.id();
        if id == 0 {
            return Ok(None);
        }
        let new = set.insert(id)?;
        if !new {
            return Ok(None);
        }
    }
    Ok(Some(set))
}

// Whether an id is there. Ids mostly count from 1 in their order, and are then found without a hash.
fn has_id(set: &IndexSet<u64>, id: u64) -> bool
    ensures { result ≡ is_id_among set.now.keys id }
{
    if id > 0 {
        if let Some(other) = set.as_slice().get(id as usize - 1) {
            if id == *other {
                return true;
            }
        }
    }
    set.contains(&id)
}

fn names_strange_location(set: &IndexSet<u64>, sample: &Sample) -> bool
    ensures { result ≡ strange_location set.now.keys sample.now }
{
    sample.location_ids.iter().any(|id| !has_id(set, *id))
}

fn is_strange_line(set: &IndexSet<u64>, line: &Line) -> bool
    ensures { result ≡ strange_function set.now.keys line.now }
{
    line.function_id != 0 && !has_id(set, line.function_id)
}

fn names_strange_function(set: &IndexSet<u64>, location: &Location) -> bool
    ensures { result ≡ list_any (strange_function set.now.keys) location.now.lines }
{
    location.lines.iter().any(|line| is_strange_line(set, line))
}

fn name_strange_locations(set: &IndexSet<u64>, samples: &[Sample]) -> bool
    ensures { result ≡ list_any (strange_location set.now.keys) samples.now }
{
    samples
        .iter()
        .any(|sample| names_strange_location(set, sample))
}

fn name_strange_functions(set: &IndexSet<u64>, locations: &[Location]) -> bool
    ensures { result ≡ list_any (λ (l : Location). list_any (strange_function set.now.keys) l.lines) locations.now }
{
    locations
        .iter()
        .any(|location| names_strange_function(set, location))
}

// Whether an id is bad, where those of the locations are in a set.
#[tactic(auto, unfolding(crate::specs::Valid::has_bad_name))]
fn has_bad_name(alloc: Global, profile: &Profile, locations: &IndexSet<u64>) -> Result<bool, Memory>
    requires { locations.now.keys ≡ location_ids profile.now }
    ensures { IfOk result (λ bad. bad ≡ has_bad_name profile.now) }
{
    match id_set(alloc, profile.functions.as_slice())? {
        None => Ok(true),
        Some(functions) => Ok(
            name_strange_locations(locations, profile.samples.as_slice())
                || name_strange_functions(&functions, profile.locations.as_slice()),
        ),
    }
}

#[tactic(auto, unfolding(crate::specs::Valid::has_bad_id))]
fn has_bad_id(alloc: Global, profile: &Profile) -> Result<bool, Memory>
    ensures { IfOk result (λ bad. bad ≡ has_bad_id profile.now) }
{
    match id_set(alloc, profile.locations.as_slice())? {
        None => Ok(true),
        Some(locations) => has_bad_name(alloc, profile, &locations),
    }
}

// Whether the string table begins with the empty text.
fn begins_empty(strings: &[Text]) -> bool
    ensures { result ≡ begins_empty strings.now }
{
    match strings {
        [] => false,
        [text, ..] => text.len() == 0,
    }
}

/// The first fault of a profile as a whole. The time grows with the numbers of messages and of ids.
#[tactic(auto, unfolding(crate::specs::Valid::cause_of))]
pub(crate) fn cause(alloc: Global, profile: &Profile) -> Result<Option<Cause>, Memory>
    ensures { IfOk result (λ cause. cause ≡ cause_of profile.now) }
{
    if !begins_empty(profile.strings.as_slice()) {
        return Ok(Some(Cause::BadFirstString));
    }
    if has_bad_place(profile) {
        return Ok(Some(Cause::BadStringIndex));
    }
    if has_bad_id(alloc, profile)? {
        return Ok(Some(Cause::BadId));
    }
    Ok(None)
}
