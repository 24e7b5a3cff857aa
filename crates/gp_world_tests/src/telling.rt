//! What calls answer, and what a world tells of itself, in lines.
use crate::calls::Answer;
use gp_cases::{Page, Unanswered};
use gp_cpu::{CpuRecord, CpuRecords};
use gp_events::Buckets;
use gp_isa::Program;
use gp_machine::Run;
use gp_samples::Took;
use gp_stack::Stack;
use gp_world::{Begun, Step, World};
use std::alloc::{AllocError, Global};

fn tell_begun(page: &mut Page, begun: &Begun) -> Result<(), AllocError> {
    match begun {
        Begun::NotNow { copy, epoch } => {
            page.number("\nNotNow ", u64::from(*epoch))?;
            page.text(if copy.is_some() {
                ", a copy comes back"
            } else {
                ""
            })
        }
        Begun::NeedCopy { epoch } => page.number("\nNeedCopy ", u64::from(*epoch)),
        Begun::Started { epoch } => page.number("\nStarted ", u64::from(*epoch)),
    }
}

fn tell_step(page: &mut Page, step: &Step) -> Result<(), AllocError> {
    match step {
        Step::Advance { n } => page.number("\nAdvance ", *n),
        Step::Died => page.line("Died"),
        Step::Born {
            g,
            epoch,
            body,
            died,
        } => {
            page.number("\nBorn ", u64::from(*g))?;
            page.number(" with epoch ", u64::from(*epoch))?;
            page.number(", at point ", body.count())?;
            page.number(" of ", u64::from(body.start()))?;
            page.text(if *died { ", and died" } else { "" })
        }
        Step::Ticked { wrote } => page.debug("\nTicked ", wrote),
        Step::Passed => page.line("Passed"),
        Step::Blocked => page.line("Blocked"),
        Step::Parked => page.line("Parked"),
        Step::Faulted { cause } => page.number("\nFaulted ", u64::from(*cause)),
    }
}

/// Tells what a call came to.
pub fn tell(page: &mut Page, answer: &Answer) -> Result<(), AllocError> {
    match answer {
        Answer::NotNow => page.line("-"),
        Answer::Pick(it) => page.debug("\n", it),
        Answer::Begun(it) => tell_begun(page, it),
        Answer::Step(it) => tell_step(page, it),
        Answer::Opening(it) => page.debug("\n", it),
        Answer::Recording(it) => page.debug("\n", it),
        Answer::Closing(it) => page.debug("\n", it),
        Answer::Finished => page.line("finished"),
        Answer::Settled => page.line("settled"),
        Answer::Checked(row) => {
            page.number("\n", row.a)?;
            page.number(" ", row.b)?;
            page.number("; entries ", row.c)?;
            page.number(", instructions ", row.d)
        }
        Answer::Has(g) => page.number("\n", u64::from(*g)),
    }
}

/// Tells a world's entries.
pub fn tell_journal<R: Run>(page: &mut Page, world: &World<R>) -> Result<(), AllocError> {
    page.line("")?;
    for (at, entry) in world.machine().journal().iter().enumerate() {
        page.debug(if at == 0 { "" } else { ", " }, entry)?;
    }
    Ok(())
}

/// Tells how far a run has come.
pub fn tell_state<R: Run>(page: &mut Page, world: &World<R>) -> Result<(), AllocError> {
    page.number("\nrunning ", u64::from(world.running()))?;
    page.number(" live ", u64::from(world.live()))?;
    page.number(" expected ", u64::from(world.expected()))?;
    for (what, holds) in [
        (", asked", world.asked()),
        (", over", world.over()),
        (", complete", world.complete()),
        (", failed", world.failed()),
    ] {
        page.text(if holds { what } else { "" })?;
    }
    Ok(())
}

// Tells the leaf of a stack, as function and line, if it has one.
fn tell_leaf(page: &mut Page, stack: &Stack) -> Result<(), AllocError> {
    if let Some(leaf) = stack.as_slice().first() {
        page.number("@", u64::from(leaf.function))?;
        page.number(":", u64::from(leaf.line))?;
    }
    Ok(())
}

/// Tells the records of the profile of an epoch: the goroutine, its label set, and its leaf as function and line.
pub fn tell_records<R: Run>(
    page: &mut Page,
    world: &World<R>,
    epoch: u32,
) -> Result<(), Unanswered> {
    if epoch == 0 {
        return Err(Unanswered::Form);
    }
    page.line("records")?;
    for record in world.records(epoch) {
        page.number(" ", u64::from(record.g))?;
        page.number("/", u64::from(record.set))?;
        tell_leaf(page, &record.stack)?;
    }
    Ok(())
}

// Tells the sums of some events, each bucket's.
fn tell_buckets(
    alloc: Global,
    program: &Program,
    page: &mut Page,
    name: &str,
    buckets: &Buckets,
) -> Result<(), Unanswered> {
    page.text(name)?;
    for sum in buckets.sorted(alloc, program)?.iter() {
        page.debug(" ", &sum.count)?;
        page.debug("*", &sum.delay)?;
    }
    Ok(())
}

/// Tells the sums of block events and of mutex events.
pub fn tell_sums<R: Run>(
    alloc: Global,
    program: &Program,
    page: &mut Page,
    world: &World<R>,
) -> Result<(), Unanswered> {
    tell_buckets(alloc, program, page, "\nblock", world.block())?;
    tell_buckets(alloc, program, page, "; mutex", world.mutex())
}

fn tell_record(page: &mut Page, record: &CpuRecord) -> Result<(), AllocError> {
    match record {
        CpuRecord::Sample {
            time,
            tag,
            header,
            stack,
        } => {
            page.number("; sample ", *time)?;
            page.number("/", *tag)?;
            page.number(" ", *header)?;
            tell_leaf(page, stack)
        }
        CpuRecord::Lost { count, time } => {
            page.number("; lost ", *count)?;
            page.number(" from ", *time)
        }
    }
}

/// Tells what a read of the ring came to: whether more may come, and the records that it took, which stand behind some others. Of
/// a sample its time, label set, header and leaf.
pub fn tell_read(
    page: &mut Page,
    took: Took,
    records: &CpuRecords,
    before: usize,
) -> Result<(), AllocError> {
    page.text(match took {
        Took::End => "\nthe end",
        Took::Records => "\nmore to come",
        Took::Nothing => "\nmore to come",
    })?;
    for record in records.iter().skip(before) {
        tell_record(page, record)?;
    }
    Ok(())
}
