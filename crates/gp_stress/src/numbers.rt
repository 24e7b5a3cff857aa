//! What is told of a run.
use crate::groups::{Groups, capped};
use gp_cases::{Page, Unanswered};
use gp_machine::Entry;
use gp_replay::Replay;
use gp_top::Report;

/// What a journal has of records and of what workers did meanwhile.
#[derive(Clone, Copy)]
struct Mix {
    records: u64,
    // by workers
    records_of_workers: u64,
    // Runs and Ops between an Open and its Close
    within: u64,
    // entries by another actor than the one before
    changes: u64,
}

fn more(number: &mut u64, counts: bool) {
    if counts {
        *number = number.saturating_add(1);
    }
}

fn actor_of(entry: &Entry, profiler: u32) -> u32 {
    match *entry {
        Entry::Start { w, .. } => w,
        Entry::Run { w, .. } => w,
        Entry::Op { w, .. } => w,
        Entry::Tick { w, .. } => w,
        Entry::Park { w, .. } => w,
        Entry::Record { actor, .. } => actor,
        _ => profiler,
    }
}

fn mix_of(journal: &[Entry], workers: u32) -> Mix {
    let mut mix = Mix {
        records: 0,
        records_of_workers: 0,
        within: 0,
        changes: 0,
    };
    let mut is_open = false;
    let mut last = workers;
    for entry in journal {
        let actor = actor_of(entry, workers);
        more(&mut mix.changes, actor != last);
        last = actor;
        match *entry {
            Entry::Open { .. } => is_open = true,
            Entry::Close { .. } => is_open = false,
            Entry::Run { .. } | Entry::Op { .. } => more(&mut mix.within, is_open),
            Entry::Record { actor, .. } => {
                more(&mut mix.records, true);
                more(&mut mix.records_of_workers, actor != workers);
            }
            _ => {}
        }
    }
    mix
}

/// How a run ended, and its numbers that no schedule may change.
pub fn tell_end(page: &mut Page, replay: &Replay) -> Result<(), Unanswered> {
    page.debug(" ", &replay.ended())?;
    page.number(" instructions ", replay.clock)?;
    page.number(" born ", replay.born() as u64)?;
    page.number(" live ", replay.live() as u64)?;
    page.number(" profiles ", replay.profiles.len() as u64)?;
    page.number(" refused ", replay.refused.len() as u64)?;
    Ok(())
}

/// The others.
pub fn tell_whole(
    page: &mut Page,
    report: &Report,
    replay: &Replay,
    workers: u32,
    block: &Groups,
    mutex: &Groups,
) -> Result<(), Unanswered> {
    let mix = mix_of(report.journal.as_slice(), workers);
    page.number(" entries ", replay.length)?;
    page.number(" changes ", mix.changes)?;
    page.number(" records ", mix.records)?;
    page.number(" by workers ", mix.records_of_workers)?;
    page.number(" within ", mix.within)?;
    page.number(" ticks ", replay.samples.len() as u64)?;
    page.number(" taken ", report.cpu_records.len() as u64)?;
    page.number(" block ", capped(block.count))?;
    page.number(" mutex ", capped(mutex.count))?;
    Ok(())
}
