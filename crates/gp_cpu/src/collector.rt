ghost use Rattle.std.specs.Prelude.{◌≡◌, ◌+◌, ◌<◌, ◌^◌, [], ◌∷◌, ◌++◌, OnOk, OnErr, IfOk};
ghost use Rattle.gp_cpu.specs.declared.record.CpuRecord.TheVariants.{Lost as LostRecord};
ghost use Rattle.gp_cpu.specs.Batch.{AreRecords, records_in};
ghost use Rattle.gp_cpu.specs.Sums.{counted, key_of, samples_of, cpu_sums, sums_by_key};
ghost use Rattle.gp_cpu.specs.kept.Counts.{count_at, entered, sums_of_entries};

use crate::frames::first_record;
use crate::record::{CpuRecord, CpuRecords};
use crate::sum::{CpuKey, CpuSum, CpuSums};
use gp_isa::{Memory, Sequence};
use gp_stack::Stack;
use indexmap::IndexMap;
use std::alloc::Global;
use std::marker::Model;
use std::mem;

/// The records that a reader took from the ring of samples, in the order in which they were added.
#[derive(Debug, Drop)]
pub struct Collector {
    records: CpuRecords,
}

impl Model for Collector {
    ghost use Rattle.std.specs.Prelude.{List};
    ghost use Rattle.gp_cpu.specs.declared.record.CpuRecord.{CpuRecord};

    ghost Value = { List CpuRecord };

    ghost view = { λ c. c.records };
}

// The records that a batch spells.
fn spelled_records(alloc: Global, words: &[u64], tags: &[u64]) -> Result<Vec<CpuRecord>, Memory>
    requires { AreRecords words.now tags.now }
    ensures { IfOk result (λ records. records.items ≡ records_in words.now tags.now) }
{
    let mut records = Vec::with_capacity(alloc, tags.len())?;
    let mut rest = words;
    for tag in tags {
        records.push(first_record(alloc, rest, *tag)?)?;
        rest = &rest[rest[0] as usize..];
    }
    Ok(records)
}

// Records more at the end.
fn append(alloc: Global, records: &mut CpuRecords, more: Vec<CpuRecord>) -> Result<(), Memory>
    ensures ok { OnOk result (records.new ≡ records.old ++ more.items) }
    ensures err { OnErr result (records.new ≡ records.old) }
{
    let mut more = more;
    let mut all = mem::replace(records, Sequence::new(alloc)).into_vec();
    let outcome = all.append(&mut more);
    *records = Sequence::from_vec(all);
    match outcome {
        Ok(()) => Ok(()),
        Err(_) => Err(Memory),
    }
}

// The records that are counted: all but the rate record.
fn counted_records(records: &[CpuRecord]) -> &[CpuRecord]
    ensures { result.now ≡ counted records.now }
{
    match records.first() {
        Some(CpuRecord::Sample { stack, .. }) if stack.is_empty() => &records[1..],
        _ => records,
    }
}

// What a record is counted by, with a copy of its stack.
fn key(alloc: Global, it: &CpuRecord) -> Result<CpuKey, Memory>
    ensures { IfOk result (λ key. key ≡ key_of it.now) }
{
    match it {
        CpuRecord::Sample { tag, stack, .. } => Ok(CpuKey::At {
            stack: Stack::from_slice(alloc, stack.as_slice())?,
            tag: *tag,
        }),
        CpuRecord::Lost { .. } => Ok(CpuKey::Lost),
    }
}

// How many samples a record stands for.
fn samples(it: &CpuRecord) -> u64
    ensures { result ≡ samples_of it.now }
{
    match it {
        CpuRecord::Sample { .. } => 1,
        CpuRecord::Lost { count, .. } => *count,
    }
}

// So many samples more of a key.
fn enter(counts: &mut IndexMap<CpuKey, u128>, key: CpuKey, samples: u64) -> Result<(), Memory>
    requires { count_at counts.old.entries key + samples < 2 ^ 128 }
    ensures { OnOk result (counts.new.entries ≡ entered counts.old.entries key samples) }
{
    let count = counts.entry(key)?.or_insert(0);
    *count += u128::from(samples);
    Ok(())
}

// The counts of records by their keys.
fn count(alloc: Global, records: &[CpuRecord]) -> Result<IndexMap<CpuKey, u128>, Memory>
    ensures { IfOk result (λ counts. sums_of_entries counts.entries ≡ sums_by_key records.now) }
{
    let mut counts = IndexMap::new(alloc);
    for it in records {
        let key = key(alloc, it)?;
        enter(&mut counts, key, samples(it))?;
    }
    Ok(counts)
}

// The counts as sums, in their order.
fn list(alloc: Global, counts: IndexMap<CpuKey, u128>) -> Result<CpuSums, Memory>
    ensures { IfOk result (λ sums. sums ≡ sums_of_entries counts.entries) }
{
    let mut all = Vec::with_capacity(alloc, counts.len())?;
    for (key, count) in counts {
        all.push(CpuSum { key, count })?;
    }
    Ok(Sequence::from_vec(all))
}

/// How many samples there were of each stack with each tag, and how many were lost, in the order in which they were first
/// met. The rate record, the first one where that has no frames, isn't counted.
pub fn sums(alloc: Global, records: &CpuRecords) -> Result<CpuSums, Memory>
    ensures { IfOk result (λ sums. sums ≡ cpu_sums records.now) }
{
    let counts = count(alloc, counted_records(records.as_slice()))?;
    list(alloc, counts)
}

impl Collector {
    /// No records yet, which takes no memory so far.
    pub fn new(alloc: Global) -> Result<Collector, Memory>
        ensures { IfOk result (λ collector. collector ≡ []) }
    {
        Ok(Collector {
            records: Sequence::new(alloc),
        })
    }

    /// Adds the records of a batch: their words one behind the other, with one header word each, and the tag of each. A
    /// record with header 0 tells of a loss, and its stack is one word, the count. Where there is no memory nothing is
    /// added.
    pub fn add(&mut self, alloc: Global, words: &[u64], tags: &[u64]) -> Result<(), Memory>
        requires { AreRecords words.now tags.now }
        ensures ok { OnOk result (self.new ≡ self.old ++ records_in words.now tags.now) }
        ensures err { OnErr result (self.new ≡ self.old) }
    {
        let more = spelled_records(alloc, words, tags)?;
        append(alloc, &mut self.records, more)
    }

    /// Adds a loss that was taken by itself: how many samples it counts, and the time of the first, in nanoseconds. Where
    /// there is no memory nothing is added.
    pub fn add_lost(&mut self, alloc: Global, count: u64, time: u64) -> Result<(), Memory>
        ensures ok { OnOk result (self.new ≡ self.old ++ LostRecord count time ∷ []) }
        ensures err { OnErr result (self.new ≡ self.old) }
    {
        let _ = alloc;
        self.records.push(CpuRecord::Lost { count, time })
    }

    /// The records, in their order.
    pub fn records(&self) -> &CpuRecords
        ensures { result.now ≡ self.now }
    {
        &self.records
    }

    /// The records, in their order, which takes no memory.
    pub fn into_records(self) -> CpuRecords
        ensures { result ≡ self }
    {
        let Collector { records } = self;
        records
    }

    /// The sums of the records, as [`sums`] gives them.
    pub fn sums(&self, alloc: Global) -> Result<CpuSums, Memory>
        ensures { IfOk result (λ sums. sums ≡ cpu_sums self.now) }
    {
        sums(alloc, &self.records)
    }
}
