//! Events by stack: their sums in order, the profile of sums, and which events are kept at a fraction.
ghost use Rattle.std.specs.Prelude.{◌≤◌, ◌+◌, ◌<◌, ◌^◌, OnOk};
ghost use Rattle.gp_events.specs.Sums.{total_count, total_delay};

use crate::profiles::{stack, tell_bytes};
use gp_build::contention_profile;
use gp_cases::{Page, Unanswered, number_32, number_64, program_of, word};
use gp_events::{Buckets, Fraction, Sum, Sums};
use gp_isa::{Program, Sequence};
use std::alloc::{AllocError, Global};

fn number_128(word: &str) -> Result<u128, Unanswered> {
    Ok(word.parse()?)
}

// Adds the event of a row: `COUNT DELAY FRAMES`, the leaf first.
fn add_event(alloc: Global, buckets: &mut Buckets, row: &str) -> Result<(), Unanswered>
    requires count { total_count buckets.old < 2 ^ 100 }
    requires delay { total_delay buckets.old < 2 ^ 100 }
    ensures count { OnOk result (total_count buckets.new < total_count buckets.old + 2 ^ 64) }
    ensures delay { OnOk result (total_delay buckets.new < total_delay buckets.old + 2 ^ 64) }
{
    let (count, rest) = word(row);
    let (delay, frames) = word(rest);
    let stack = stack(alloc, frames)?;
    let count = number_64(count)?;
    let delay = number_64(delay)?;
    buckets.add(alloc, &stack, count, u128::from(delay))?;
    Ok(())
}

fn tell_sum(page: &mut Page, sum: &Sum) -> Result<(), AllocError> {
    page.debug("\n", &sum.count)?;
    page.debug(" ", &sum.delay)?;
    for frame in sum.stack.iter() {
        page.number(" ", u64::from(frame.function))?;
        page.number(":", u64::from(frame.line))?;
    }
    Ok(())
}

/// Tells sums, each in a line: its count, its delay, and its frames, the leaf first; or that there is none.
pub fn tell_sums(page: &mut Page, sums: &Sums) -> Result<(), AllocError> {
    if sums.is_empty() {
        page.line("none")?;
    }
    for sum in sums.iter() {
        tell_sum(page, sum)?;
    }
    Ok(())
}

fn tell_sorted(
    alloc: Global,
    page: &mut Page,
    program: &Program,
    buckets: &Buckets,
) -> Result<(), Unanswered> {
    let sums = buckets.sorted(alloc, program)?;
    tell_sums(page, &sums)?;
    Ok(())
}

/// The sums of the rows' events in order, of a program.
pub fn sums(alloc: Global, page: &mut Page, text: &str, rows: &[&str]) -> Result<(), Unanswered> {
    if rows.len() > 65_536 {
        return Err(Unanswered::Form);
    }
    let mut buckets = Buckets::new(alloc)?;
    for row in rows {
        add_event(alloc, &mut buckets, row)?;
    }
    let program = program_of(alloc, text)?;
    tell_sorted(alloc, page, &program, &buckets)
}

fn sum(alloc: Global, row: &str) -> Result<Sum, Unanswered> {
    let (count, rest) = word(row);
    let (delay, frames) = word(rest);
    Ok(Sum {
        stack: stack(alloc, frames)?,
        count: number_128(count)?,
        delay: number_128(delay)?,
    })
}

fn tell_profile(
    alloc: Global,
    page: &mut Page,
    program: &Program,
    sums: &Sums,
) -> Result<(), Unanswered> {
    let profile = contention_profile(alloc, program, "a.gp", sums)?;
    tell_bytes(alloc, page, &profile)
}

/// The bytes of the profile of the rows' sums, of a program in the file `a.gp`.
pub fn contentions(
    alloc: Global,
    page: &mut Page,
    text: &str,
    rows: &[&str],
) -> Result<(), Unanswered> {
    let mut sums = Sequence::new(alloc);
    for row in rows {
        sums.push(sum(alloc, row)?)?;
    }
    let program = program_of(alloc, text)?;
    tell_profile(alloc, page, &program, &sums)
}

/// Whether each of the first events is kept at a fraction, and what is told ahead: `SEED FRACTION COUNT`.
pub fn keeps(page: &mut Page, head: &str) -> Result<(), Unanswered> {
    let (seed, rest) = word(head);
    let (f, count) = word(rest);
    let seed = number_64(seed)?;
    let f = number_32(f)?;
    let count = number_32(count)?;
    if f == 0 {
        return Err(Unanswered::Form);
    }
    let mut fraction = Fraction::new(seed, f);
    for k in 0..count {
        page.debug(if k == 0 { "\n" } else { " " }, &fraction.ahead())?;
        page.debug("/", &fraction.keep())?;
    }
    Ok(())
}
