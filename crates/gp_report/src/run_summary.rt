ghost use Rattle.std.specs.Prelude.{◌≡◌, ◌++◌, sum, sum_by, string_bytes, IfOk, OnOk};
ghost use Rattle.gp_cpu.specs.Sums as cpu;
ghost use Rattle.gp_report.specs.Summary as definition;
ghost use Rattle.gp_report.specs.Summary.{end_text, delivered_by, lost_by, run_lines, profiles_lines, summary_text};
ghost use Rattle.gp_report.specs.Summary.{end_line, entries_line, instructions_line, born_line, ticks_line, profiles_line, waits_line};

use crate::pieces::push_text;
use crate::report::Report;
use crate::totals::Totals;
use gp_cpu::CpuRecord;
use gp_isa::{Memory, Text};
use gp_journal::{Ended, Entry};
use std::alloc::Global;
use std::fmt::Write;

// Samples of the CPU that a reader took.
#[derive(Clone, Copy)]
struct Samples {
    delivered: u64,
    lost: u128,
}

fn is_tick(entry: &Entry) -> bool
    ensures { result ≡ definition.is_tick entry.now }
{
    match *entry {
        Entry::Tick { .. } => true,
        _ => false,
    }
}

// The Tick entries.
fn ticks(journal: &[Entry]) -> usize
    ensures { result ≡ definition.ticks journal.now }
{
    journal.iter().filter(|entry| is_tick(entry)).count()
}

// The instructions of all workers.
fn instructions(done: &[u64]) -> u128
    ensures { result ≡ sum done.now }
{
    let mut all = 0_u128;
    for count in done {
        all += u128::from(*count);
    }
    all
}

// The records that are counted: all but the rate record.
fn counted(records: &[CpuRecord]) -> &[CpuRecord]
    ensures { result.now ≡ cpu.counted records.now }
{
    match records.first() {
        Some(CpuRecord::Sample { stack, .. }) if stack.is_empty() => &records[1..],
        _ => records,
    }
}

// What records say that are counted.
fn count_samples(records: &[CpuRecord]) -> Samples
    ensures delivered { result.delivered ≡ sum_by delivered_by records.now }
    ensures lost { result.lost ≡ sum_by lost_by records.now }
{
    let mut all = Samples {
        delivered: 0,
        lost: 0,
    };
    for it in records {
        match it {
            CpuRecord::Sample { .. } => all.delivered += 1,
            CpuRecord::Lost { count, .. } => all.lost += u128::from(*count),
        }
    }
    all
}

fn push_end(out: &mut String, ended: Ended) -> Result<(), Memory>
    ensures { OnOk result (string_bytes out.new ≡ string_bytes out.old ++ end_text ended) }
{
    match ended {
        Ended::Main => push_text(out, "main"),
        Ended::Fault { cause } => {
            write!(out, "fault {cause}")?;
            Ok(())
        }
        Ended::Full => push_text(out, "full"),
        Ended::Deadlock => push_text(out, "deadlock"),
    }
}

fn push_end_line(out: &mut String, ended: Ended) -> Result<(), Memory>
    ensures { OnOk result (string_bytes out.new ≡ string_bytes out.old ++ end_line ended) }
{
    push_text(out, "end ")?;
    push_end(out, ended)?;
    push_text(out, "\n")
}

fn push_entries(out: &mut String, entries: usize) -> Result<(), Memory>
    ensures { OnOk result (string_bytes out.new ≡ string_bytes out.old ++ entries_line entries) }
{
    write!(out, "entries {entries}\n")?;
    Ok(())
}

fn push_instructions(out: &mut String, instructions: u128) -> Result<(), Memory>
    ensures { OnOk result (string_bytes out.new ≡ string_bytes out.old ++ instructions_line instructions) }
{
    write!(out, "instructions {instructions}\n")?;
    Ok(())
}

fn push_born(out: &mut String, born: u32, live: u32) -> Result<(), Memory>
    ensures { OnOk result (string_bytes out.new ≡ string_bytes out.old ++ born_line born live) }
{
    write!(out, "born {born} live {live}\n")?;
    Ok(())
}

fn push_ticks(out: &mut String, ticks: usize, samples: u64, lost: u128) -> Result<(), Memory>
    ensures { OnOk result (string_bytes out.new ≡ string_bytes out.old ++ ticks_line ticks samples lost) }
{
    write!(out, "ticks {ticks} samples {samples} lost {lost}\n")?;
    Ok(())
}

fn push_profiles(out: &mut String, opened: usize, refused: usize) -> Result<(), Memory>
    ensures { OnOk result (string_bytes out.new ≡ string_bytes out.old ++ profiles_line opened refused) }
{
    write!(out, "profiles {opened} refused {refused}\n")?;
    Ok(())
}

fn push_waits(out: &mut String, kind: &str, count: u64, delay: u64) -> Result<(), Memory>
    ensures { OnOk result (string_bytes out.new ≡ string_bytes out.old ++ waits_line kind.now count delay) }
{
    push_text(out, kind)?;
    write!(out, " {count} {delay}\n")?;
    Ok(())
}

// How a run ended, and what it ran.
#[tactic(auto, unfolding(crate::specs::Summary::run_lines))]
fn push_run(out: &mut String, report: &Report) -> Result<(), Memory>
    ensures { OnOk result (string_bytes out.new ≡ string_bytes out.old ++ run_lines report.now) }
{
    push_end_line(out, report.ended)?;
    push_entries(out, report.journal.len())?;
    push_instructions(out, instructions(report.done.as_slice()))?;
    push_born(out, report.born, report.live)
}

// Its samples and its goroutine profiles.
#[tactic(auto, unfolding(crate::specs::Summary::profiles_lines))]
fn push_sampled(out: &mut String, report: &Report) -> Result<(), Memory>
    ensures { OnOk result (string_bytes out.new ≡ string_bytes out.old ++ profiles_lines report.now) }
{
    let ticks = ticks(report.journal.as_slice());
    let samples = count_samples(counted(report.cpu_records.as_slice()));
    push_ticks(out, ticks, samples.delivered, samples.lost)?;
    push_profiles(out, report.goroutine_records.len(), report.refused.len())
}

/// The summary of a run that is complete, in eight lines. The time grows with the journal and with the records.
#[tactic(auto, unfolding(crate::specs::Summary::summary_text))]
pub fn summary(alloc: Global, report: &Report, sums: &Totals) -> Result<Text, Memory>
    ensures { IfOk result (λ text. text ≡ summary_text report.now sums.now) }
{
    let mut out = String::new(alloc);
    push_run(&mut out, report)?;
    push_sampled(&mut out, report)?;
    push_waits(&mut out, "block", sums.block_count, sums.block_delay)?;
    push_waits(&mut out, "mutex", sums.mutex_count, sums.mutex_delay)?;
    Ok(Text::from_string(out))
}
