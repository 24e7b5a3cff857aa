//! The tables that number texts, locations and functions, each in the order of first need.

ghost use Rattle.std.specs.Prelude.{◌≡◌, ◌<◌, ◌^◌, ◌∷◌, [], ◌++◌, not, OnOk, IfOk};
ghost use Rattle.std.specs.List.{flat_map, list_any};
ghost use Rattle.indexmap.specs.IndexSet.{insert_key};
ghost use Rattle.gp_build.specs.FirstNeed.{place_in, first_seen};
ghost use Rattle.gp_build.specs.Numbers.{text, same_need, kind_needs, period_needs, site_needs, label_needs, sample_needs, all_sites};
ghost use Rattle.gp_build.specs.Numbers.{string_table, location_table, function_table};
ghost use Rattle.gp_build.specs.kept.Tables.{with_needs, HasNeeds, Enters};

use crate::lines::{Lines, is_at};
use crate::lookup::{filename, labels, name};
use crate::need::Need;
use crate::sample::{Header, Kind, StackSample};
use crate::site::{Routine, Site};
use gp_isa::{Memory, Pair, Parts};
use indexmap::IndexSet;
use std::alloc::Global;
use std::hash::Hash;

/// The tables of a profile.
#[derive(Drop)]
pub(crate) struct Tables<'a> {
    pub strings: IndexSet<Need<'a>>,
    pub locations: IndexSet<Site>,
    pub functions: IndexSet<Routine>,
}

// A key goes to the end of a table, where it isn't there yet. The answer is its place, and whether it was new.
fn enter<K: Eq + Hash + Drop>(table: &mut IndexSet<K>, key: K) -> Result<(usize, bool), Memory>
    ensures keys { OnOk result (table.new.keys ≡ insert_key K.eq table.old.keys key) }
    ensures new { IfOk result (λ r. r.1 ≡ not (list_any (K.eq key) table.old.keys)) }
{
    Ok(table.insert_full(key)?)
}

// The name and the unit of a kind.
fn need_kind<'a>(strings: &mut IndexSet<Need<'a>>, kind: &'a Kind) -> Result<(), Memory>
    ensures { OnOk result (strings.new.keys ≡ with_needs strings.old.keys (kind_needs kind.now)) }
{
    enter(strings, Need::text(kind.name.as_str()))?;
    enter(strings, Need::text(kind.unit.as_str()))?;
    Ok(())
}

fn need_kinds<'a>(strings: &mut IndexSet<Need<'a>>, kinds: &'a [Kind]) -> Result<(), Memory>
    ensures { OnOk result (strings.new.keys ≡ with_needs strings.old.keys (flat_map kind_needs kinds.now)) }
{
    for kind in kinds {
        need_kind(strings, kind)?;
    }
    Ok(())
}

fn need_period<'a>(
    strings: &mut IndexSet<Need<'a>>,
    period_type: &'a Option<Kind>,
) -> Result<(), Memory>
    ensures { OnOk result (strings.new.keys ≡ with_needs strings.old.keys (period_needs period_type.now)) }
{
    match period_type {
        None => Ok(()),
        Some(kind) => need_kind(strings, kind),
    }
}

// The empty text, and what the header needs.
fn first_strings<'a>(alloc: Global, header: &'a Header) -> Result<IndexSet<Need<'a>>, Memory>
    ensures { let needs = (text [] ∷ flat_map kind_needs header.now.types) ++ period_needs header.now.period_type in
        IfOk result (λ strings. strings.keys ≡ first_seen same_need needs) }
{
    let mut strings = IndexSet::new(alloc);
    enter(&mut strings, Need::text(""))?;
    need_kinds(&mut strings, header.types.as_slice())?;
    need_period(&mut strings, &header.period_type)?;
    Ok(strings)
}

// A site, and where it is new its function with its name and its file. Those of a site that was there are there too.
fn need_site<'a>(
    all: &mut Tables<'a>,
    lines: &mut Lines,
    parts: &'a Parts,
    file: &'a str,
    site: Site,
) -> Result<(), Memory>
    requires { HasNeeds parts.now file.now all.old }
    ensures { OnOk result (Enters parts.now file.now (site_needs parts.now file.now site) (site ∷ []) all.old all.new) }
{
    if is_at(&all.locations, lines.place(site), site) {
        return Ok(());
    }
    let (place, new) = enter(&mut all.locations, site)?;
    lines.meet(site, place);
    if new {
        enter(&mut all.functions, site.routine)?;
        enter(&mut all.strings, Need::text(name(parts, site.routine)))?;
        enter(&mut all.strings, Need::text(filename(file, site.routine)))?;
    }
    Ok(())
}

fn need_stack<'a>(
    all: &mut Tables<'a>,
    lines: &mut Lines,
    parts: &'a Parts,
    file: &'a str,
    stack: &[Site],
) -> Result<(), Memory>
    requires { HasNeeds parts.now file.now all.old }
    ensures { OnOk result (Enters parts.now file.now (flat_map (site_needs parts.now file.now) stack.now) stack.now all.old all.new) }
{
    for site in stack {
        need_site(all, lines, parts, file, *site)?;
    }
    Ok(())
}

// The key and the value of each label.
fn need_labels<'a>(strings: &mut IndexSet<Need<'a>>, labels: &'a [Pair]) -> Result<(), Memory>
    ensures { OnOk result (strings.new.keys ≡ with_needs strings.old.keys (flat_map label_needs labels.now)) }
{
    for pair in labels {
        enter(strings, Need::text(pair.key.as_str()))?;
        enter(strings, Need::value(pair.value.as_str()))?;
    }
    Ok(())
}

fn need_sample<'a>(
    all: &mut Tables<'a>,
    lines: &mut Lines,
    parts: &'a Parts,
    file: &'a str,
    sample: &StackSample,
) -> Result<(), Memory>
    requires { HasNeeds parts.now file.now all.old }
    ensures { let needs = sample_needs parts.now file.now sample.now in
        OnOk result (Enters parts.now file.now needs sample.now.stack all.old all.new) }
{
    need_stack(all, lines, parts, file, sample.stack.as_slice())?;
    need_labels(&mut all.strings, labels(parts, sample.set))?;
    Ok(())
}

fn need_samples<'a>(
    all: &mut Tables<'a>,
    lines: &mut Lines,
    parts: &'a Parts,
    file: &'a str,
    samples: &[StackSample],
) -> Result<(), Memory>
    requires { HasNeeds parts.now file.now all.old }
    ensures { let needs = flat_map (sample_needs parts.now file.now) samples.now in
        OnOk result (Enters parts.now file.now needs (all_sites samples.now) all.old all.new) }
{
    for sample in samples {
        need_sample(all, lines, parts, file, sample)?;
    }
    Ok(())
}

impl<'a> Tables<'a> {
    /// The tables of samples, whose sites are met.
    pub(crate) fn new(
        alloc: Global,
        parts: &'a Parts,
        file: &'a str,
        header: &'a Header,
        samples: &[StackSample],
        lines: &mut Lines,
    ) -> Result<Tables<'a>, Memory>
        ensures strings { IfOk result (λ all. all.strings.keys ≡ string_table parts.now file.now header.now samples.now) }
        ensures locations { IfOk result (λ all. all.locations.keys ≡ location_table samples.now) }
        ensures functions { IfOk result (λ all. all.functions.keys ≡ function_table samples.now) }
    {
        let mut all = Tables {
            strings: first_strings(alloc, header)?,
            locations: IndexSet::new(alloc),
            functions: IndexSet::new(alloc),
        };
        need_samples(&mut all, lines, parts, file, samples)?;
        Ok(all)
    }
}

/// The place of a key in a table, counted from 0.
pub(crate) fn place<K: Eq + Hash>(table: &IndexSet<K>, key: &K) -> usize
    ensures place { result ≡ place_in K.eq table.now.keys key.now }
    ensures small { result < 2 ^ 63 }
{
    let _ = table.len();
    table.get_index_of(key).unwrap_or(0)
}
