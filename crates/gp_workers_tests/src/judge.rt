//! Whether what a run gave is what its journal comes to, as it is replayed.
use crate::gates::How;
use gp_cases::{Page, Unanswered};
use gp_cpu::CpuRecord;
use gp_events::Buckets;
use gp_isa::Program;
use gp_machine::{Entry, Run, Settings};
use gp_replay::{Replay, Sum, are_covered, is_profile};
use gp_ring::Taken;
use gp_workers::Finished;
use std::alloc::{AllocError, Global};

fn are_profiles<R: Run>(run: &Finished<R>, replay: &Replay) -> bool {
    let mut all = run.records.len() == replay.profiles.len();
    for (records, profile) in run.records.iter().zip(replay.profiles.iter()) {
        all = all && is_profile(records, profile);
    }
    all
}

// The sums of a profile of waits, all together.
fn sum_of(alloc: Global, program: &Program, buckets: &Buckets) -> Result<Sum, Unanswered> {
    let mut all = Sum { count: 0, delay: 0 };
    for sum in buckets.sorted(alloc, program)?.iter() {
        all.count = all.count.saturating_add(sum.count);
        all.delay = all.delay.saturating_add(sum.delay);
    }
    Ok(all)
}

// Where all events are kept their sums are those of the replay, and where none is there are none.
fn are_events(kept: u32, sum: Sum, replayed: Sum) -> bool {
    match kept {
        0 => sum == Sum { count: 0, delay: 0 },
        1 => sum == replayed,
        _ => true,
    }
}

// How many records were delivered, and how many were lost.
fn records_of<R: Run>(run: &Finished<R>) -> (u64, u64) {
    let mut delivered = 0_u64;
    let mut lost = 0_u64;
    for record in run.cpu.records().iter() {
        match record {
            CpuRecord::Sample { .. } => delivered = delivered.saturating_add(1),
            CpuRecord::Lost { count, .. } => lost = lost.saturating_add(*count),
        }
    }
    (delivered, lost)
}

// The records cover the samples of the replay, each delivered or counted lost, and the reader came to the end.
fn are_samples<R: Run>(run: &Finished<R>, settings: &Settings, replay: &Replay) -> bool {
    run.reader.shown() == Taken::End
        && are_covered(
            run.cpu.records().as_slice(),
            settings.hz,
            replay.samples.as_slice(),
        )
}

fn are_numbers<R: Run>(run: &Finished<R>, replay: &Replay) -> bool {
    run.done.as_slice() == replay.done.as_slice()
        && run.made.as_slice() == replay.made.as_slice()
        && run.machine.births() as usize == replay.born()
        && run.machine.live() as usize == replay.live()
        && run.machine.complete()
        && run.machine.ended() == replay.ended()
}

fn agrees<R: Run>(
    alloc: Global,
    program: &Program,
    settings: &Settings,
    run: &Finished<R>,
    replay: &Replay,
) -> Result<bool, Unanswered> {
    let block = sum_of(alloc, program, &run.block)?;
    let mutex = sum_of(alloc, program, &run.mutex)?;
    Ok(
        are_profiles(run, replay)
            && are_numbers(run, replay)
            && are_samples(run, settings, replay)
            && are_events(settings.block, block, Sum::of(replay.block.as_slice()))
            && are_events(settings.mutex, mutex, Sum::of(replay.mutex.as_slice()))
            && replay.is_complete(),
    )
}

// How the run ended, and its numbers.
fn tell<R: Run>(page: &mut Page, run: &Finished<R>, replay: &Replay) -> Result<(), AllocError> {
    let mut instructions = 0_u64;
    for done in run.done.iter() {
        instructions = instructions.saturating_add(*done);
    }
    if run.machine.complete() {
        page.debug("", &run.machine.ended())?;
    }
    page.number(" instructions ", instructions)?;
    page.number(" born ", u64::from(run.machine.births()))?;
    page.number(" live ", u64::from(run.machine.live()))?;
    page.number(" profiles ", run.records.len() as u64)?;
    page.number(" refused ", replay.refused.len() as u64)
}

// Whether a worker ran between the Open of a profile and its last Record.
fn ran_within_profile(journal: &[Entry]) -> bool {
    let mut is_open = false;
    let mut ran = false;
    let mut found = false;
    for entry in journal {
        match *entry {
            Entry::Open { .. } => {
                is_open = true;
                ran = false;
            }
            Entry::Run { .. } => ran = is_open,
            Entry::Record { .. } => found = found || (is_open && ran),
            Entry::Close { .. } => is_open = false,
            _ => {}
        }
    }
    found
}

// What the gates are for: whether a worker ran within a profile; how many entries there were, and what the reader took.
fn tell_gates<R: Run>(page: &mut Page, run: &Finished<R>, how: How) -> Result<(), AllocError> {
    match how {
        How::Free => Ok(()),
        How::Workers => page.debug(" ran within ", &ran_within_profile(run.machine.journal())),
        How::Reader => {
            let (delivered, lost) = records_of(run);
            page.number(" entries ", run.machine.journal().len() as u64)?;
            page.number(" delivered ", delivered)?;
            page.number(" lost ", lost)
        }
    }
}

/// Tells how a run ended and its numbers; and where its journal breaks a rule, or it gave what its journal doesn't come to,
/// that.
pub fn judge<R: Run>(
    alloc: Global,
    program: &Program,
    settings: &Settings,
    run: &Finished<R>,
    how: How,
) -> Result<Page, Unanswered> {
    let mut page = Page::new(alloc);
    let mut replay = Replay::new(alloc, program, settings)?;
    for entry in run.machine.journal() {
        if replay.enter(alloc, program, entry).is_err() {
            page.debug("breaks a rule: ", entry)?;
            return Ok(page);
        }
    }
    tell(&mut page, run, &replay)?;
    tell_gates(&mut page, run, how)?;
    if !agrees(alloc, program, settings, run, &replay)? {
        page.text(" but isn't what its journal comes to")?;
    }
    Ok(page)
}
