//! What the files and the summary of a run have to say by its replay, as text.
use crate::groups::{Groups, capped};
use gp_cases::{Page, Unanswered};
use gp_cpu::CpuRecord;
use gp_isa::{Frame, Program};
use gp_machine::{Ended, Settings};
use gp_replay::{Event, Profile, Replay};
use rand_core::utils::NextWord;
use rand_pcg::Pcg32;
use std::alloc::Global;

/// The stream of the numbers that choose mutex events.
const STREAM: u64 = 54;

/// The nanoseconds of a second.
const SECOND: u128 = 1_000_000_000;

/// The nanoseconds of an instruction.
const INSTRUCTION: u64 = 1000;

fn name_of(program: &Program, function: u32) -> &str {
    match program.parts().functions.get(function as usize) {
        Some(function) => function.name.as_str(),
        None => "",
    }
}

fn tell_labels(page: &mut Page, program: &Program, set: u8) -> Result<(), Unanswered> {
    let at = usize::from(set).wrapping_sub(1);
    if let Some(labels) = program.parts().labels.get(at) {
        for pair in labels.pairs.iter() {
            page.text(" ")?;
            page.text(pair.key.as_str())?;
            page.text("=")?;
            page.text(pair.value.as_str())?;
        }
    }
    Ok(())
}

// A stack and the labels of a set, as a profile's text has them. (No name here has a byte that is escaped.)
fn site(alloc: Global, program: &Program, frames: &[Frame], set: u8) -> Result<Page, Unanswered> {
    let mut page = Page::new(alloc);
    page.text(" |")?;
    for frame in frames {
        page.text(" ")?;
        page.text(name_of(program, frame.function))?;
        page.number("@a.gp:", u64::from(frame.line))?;
    }
    page.text(" |")?;
    tell_labels(&mut page, program, set)?;
    Ok(page)
}

/// The text of a goroutine profile.
pub fn goroutines(alloc: Global, program: &Program, profile: &Profile) -> Result<Page, Unanswered> {
    let mut groups = Groups::new(alloc);
    for shown in profile.frozen.iter() {
        let site = site(alloc, program, shown.frames.as_slice(), shown.set)?;
        groups.add(alloc, 0, site.as_str(), 1, 0)?;
    }
    let mut page = Page::new(alloc);
    page.line("type goroutine count")?;
    page.line("period goroutine count 1")?;
    page.line("duration 0")?;
    groups.tell(&mut page, false)?;
    Ok(page)
}

/// The samples of a CPU profile, by stack and label set, and what was lost.
pub fn samples(
    alloc: Global,
    program: &Program,
    settings: &Settings,
    records: &[CpuRecord],
) -> Result<Groups, Unanswered> {
    let period = SECOND.checked_div(u128::from(settings.hz)).unwrap_or(0);
    let mut groups = Groups::new(alloc);
    for record in records.iter().skip(1) {
        match record {
            CpuRecord::Sample { tag, stack, .. } => {
                let set = u8::try_from(*tag).unwrap_or(0);
                let site = site(alloc, program, stack.as_slice(), set)?;
                groups.add(alloc, set, site.as_str(), 1, period)?;
            }
            CpuRecord::Lost { count, .. } => {
                let count = u128::from(*count);
                let lost = " | runtime/pprof.lostProfileEvent@:0 |";
                groups.add(alloc, 0, lost, count, count.saturating_mul(period))?;
            }
        }
    }
    Ok(groups)
}

/// The text of the CPU profile.
pub fn cpu(
    alloc: Global,
    settings: &Settings,
    clock: u64,
    groups: &Groups,
) -> Result<Page, Unanswered> {
    let period = SECOND.checked_div(u128::from(settings.hz)).unwrap_or(0);
    let mut page = Page::new(alloc);
    page.line("type samples count")?;
    page.line("type cpu nanoseconds")?;
    page.line("period cpu nanoseconds")?;
    page.number(" ", capped(period))?;
    page.line("duration")?;
    page.number(" ", clock.saturating_mul(INSTRUCTION))?;
    groups.tell(&mut page, true)?;
    Ok(page)
}

// An event, which stands for so many.
fn add_event(
    alloc: Global,
    program: &Program,
    groups: &mut Groups,
    event: &Event,
    weight: u32,
) -> Result<(), Unanswered> {
    let site = site(alloc, program, event.frames.as_slice(), 0)?;
    let weight = u128::from(weight);
    let delay = u128::from(event.delay).saturating_mul(weight);
    groups.add(alloc, 0, site.as_str(), weight, delay)
}

/// The block events that are kept, by stack.
pub fn block(
    alloc: Global,
    program: &Program,
    settings: &Settings,
    replay: &Replay,
) -> Result<Groups, Unanswered> {
    let mut groups = Groups::new(alloc);
    if settings.block == 1 {
        for event in replay.block.iter() {
            add_event(alloc, program, &mut groups, event, 1)?;
        }
    }
    Ok(groups)
}

/// The mutex events that are kept, by stack: one in so many, by the words of a generator.
pub fn mutex(
    alloc: Global,
    program: &Program,
    settings: &Settings,
    replay: &Replay,
) -> Result<Groups, Unanswered> {
    let mut groups = Groups::new(alloc);
    let mut generator = Pcg32::new(settings.seed, STREAM);
    for event in replay.mutex.iter() {
        if generator.next_word().checked_rem(settings.mutex) == Some(0) {
            add_event(alloc, program, &mut groups, event, settings.mutex)?;
        }
    }
    Ok(groups)
}

/// The text of a profile of waits.
pub fn waits(alloc: Global, groups: &Groups) -> Result<Page, Unanswered> {
    let mut page = Page::new(alloc);
    page.line("type contentions count")?;
    page.line("type delay nanoseconds")?;
    page.line("period contentions count 1")?;
    page.line("duration 0")?;
    groups.tell(&mut page, true)?;
    Ok(page)
}

fn end_of(ended: Ended) -> &'static str {
    match ended {
        Ended::Main => "end main\n",
        Ended::Fault { cause: 1 } => "end fault 1\n",
        Ended::Fault { .. } => "end fault 2\n",
        Ended::Full => "end full\n",
        Ended::Deadlock => "end deadlock\n",
    }
}

fn lost_of(records: &[CpuRecord]) -> u64 {
    let mut lost = 0_u64;
    for record in records {
        if let CpuRecord::Lost { count, .. } = record {
            lost = lost.saturating_add(*count);
        }
    }
    lost
}

fn tell_sum(page: &mut Page, name: &str, sum: &Groups) -> Result<(), Unanswered> {
    page.number(name, capped(sum.count))?;
    page.number(" ", capped(sum.delay))?;
    page.text("\n")?;
    Ok(())
}

/// The summary.
pub fn summary(
    alloc: Global,
    replay: &Replay,
    records: &[CpuRecord],
    block: &Groups,
    mutex: &Groups,
) -> Result<Page, Unanswered> {
    let lost = lost_of(records);
    let ticks = replay.samples.len() as u64;
    let mut page = Page::new(alloc);
    page.text(end_of(replay.ended()))?;
    page.number("entries ", replay.length)?;
    page.number("\ninstructions ", replay.clock)?;
    page.number("\nborn ", replay.born() as u64)?;
    page.number(" live ", replay.live() as u64)?;
    page.number("\nticks ", ticks)?;
    page.number(" samples ", ticks.saturating_sub(lost))?;
    page.number(" lost ", lost)?;
    page.number("\nprofiles ", replay.profiles.len() as u64)?;
    page.number(" refused ", replay.refused.len() as u64)?;
    page.text("\n")?;
    tell_sum(&mut page, "block ", block)?;
    tell_sum(&mut page, "mutex ", mutex)?;
    Ok(page)
}
