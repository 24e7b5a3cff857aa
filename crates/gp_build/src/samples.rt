ghost use Rattle.std.specs.Prelude.{◌≡◌, ◌+◌, ◌<◌, ◌^◌, All, map, unwrap_or, OnOk, IfOk};
ghost use Rattle.indexmap.specs.IndexMap.{get, insert_entry};
ghost use Rattle.gp_build.specs.declared.samples.Group.{Group};
ghost use Rattle.gp_build.specs.declared.spelled.Spelled.{Spelled as SpelledGroup};
ghost use Rattle.gp_build.specs.Site.{site_of};
ghost use Rattle.gp_build.specs.Shown.{shown_in, same_shown};
ghost use Rattle.gp_build.specs.Samples.{group_of, groups_of, groups_in_order};
ghost use Rattle.gp_build.specs.Profile.{sample_of_group, goroutine_samples};

use crate::messages::{one, room};
use crate::ranks::Ranks;
use crate::sample::StackSample;
use crate::shown::Shown;
use crate::site::{Site, Sites};
use crate::spelled::{Spelled, compare, spell_all};
use gp_isa::{Frame, Memory, Parts};
use gp_stack::Record;
use indexmap::{IndexMap, IndexSet};
use std::alloc::Global;

/// What is shown, and how many records show it.
#[derive(Drop)]
pub(crate) struct Group<'a> {
    pub shown: Shown<'a>,
    pub count: u64,
}

// One record more shows this.
fn count<'a>(counts: &mut IndexMap<Shown<'a>, u64>, shown: Shown<'a>) -> Result<(), Memory>
    requires { unwrap_or (get same_shown counts.old shown) 0 + 1 < 2 ^ 64 }
    ensures { let before = unwrap_or (get same_shown counts.old shown.entry) 0 in
        OnOk result (counts.new.entries ≡ insert_entry same_shown counts.old.entries shown.entry (before + 1)) }
{
    let count = counts.entry(shown)?.or_insert(0);
    *count += 1;
    Ok(())
}

// Each stack with labels that records show, in the order of first sight, with the number of those records.
fn counts<'a>(
    alloc: Global,
    parts: &'a Parts,
    records: &'a [Record],
) -> Result<IndexMap<Shown<'a>, u64>, Memory>
    ensures { IfOk result (λ counts. map group_of counts.entries ≡ groups_of (map (shown_in parts.now) records.now)) }
{
    let mut counts = IndexMap::with_capacity(alloc, records.len())?;
    for record in records {
        count(&mut counts, Shown::new(parts, record))?;
    }
    Ok(counts)
}

// Counts as a list, to be sorted.
fn list<'a>(alloc: Global, counts: IndexMap<Shown<'a>, u64>) -> Result<Vec<Group<'a>>, Memory>
    ensures { IfOk result (λ samples. samples.items ≡ map group_of counts.entry.entries) }
{
    let mut samples = Vec::with_capacity(alloc, counts.len())?;
    for (shown, count) in counts {
        samples.push(Group { shown, count })?;
    }
    Ok(samples)
}

// What records show, counted, in order: each group with the numbers of its stack's blocks.
fn groups<'a>(
    alloc: Global,
    parts: &'a Parts,
    records: &'a [Record],
) -> Result<Vec<Spelled<'a>>, Memory>
    ensures groups { IfOk result (λ all. map (λ it. it.group) all.items ≡ groups_in_order parts.now records.now) }
    ensures small { IfOk result (λ all. All (λ (it : SpelledGroup). it.group.count < 2 ^ 63) all.items) }
{
    let counted = list(alloc, counts(alloc, parts, records)?)?;
    let mut table = IndexSet::new(alloc);
    let mut all = spell_all(alloc, &mut table, counted)?;
    let blocks = table.as_slice();
    let ranks = Ranks::new(alloc, parts)?;
    all.sort_by(|a, b| compare(&ranks, blocks, a, b))?;
    Ok(all)
}

fn sites(alloc: Global, stack: &[Frame]) -> Result<Sites, Memory>
    ensures { IfOk result (λ sites. sites ≡ map site_of stack.now) }
{
    let mut sites = room(alloc, stack.len())?;
    for frame in stack {
        sites.push(Site::new(*frame))?;
    }
    Ok(sites)
}

fn sample(alloc: Global, group: &Group) -> Result<StackSample, Memory>
    requires { group.now.count < 2 ^ 63 }
    ensures { IfOk result (λ sample. sample ≡ sample_of_group group.now) }
{
    Ok(StackSample {
        stack: sites(alloc, group.shown.stack())?,
        set: group.shown.set(),
        values: one(alloc, group.count as i64)?,
    })
}

fn samples_of(alloc: Global, all: &[Spelled]) -> Result<Vec<StackSample>, Memory>
    requires { All (λ (it : SpelledGroup). it.group.count < 2 ^ 63) all.now }
    ensures { IfOk result (λ samples. samples.items ≡ map (λ it. sample_of_group it.group) all.now) }
{
    let mut samples = Vec::with_capacity(alloc, all.len())?;
    for it in all {
        samples.push(sample(alloc, &it.group)?)?;
    }
    Ok(samples)
}

/// The samples of a goroutine profile, in their order.
#[tactic(auto, unfolding(crate::specs::Profile::goroutine_samples))]
pub(crate) fn samples(
    alloc: Global,
    parts: &Parts,
    records: &[Record],
) -> Result<Vec<StackSample>, Memory>
    ensures { IfOk result (λ samples. samples.items ≡ goroutine_samples parts.now records.now) }
{
    let all = groups(alloc, parts, records)?;
    samples_of(alloc, all.as_slice())
}
