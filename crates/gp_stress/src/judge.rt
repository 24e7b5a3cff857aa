//! A run, held against its journal.
use crate::case::{Call, Case};
use crate::expected;
use crate::files::WantedFiles;
use crate::groups::Groups;
use crate::numbers::{tell_end, tell_whole};
use gp_cases::{Devices, Failing, Page, Unanswered, command_words, word};
use gp_isa::Program;
use gp_machine::{Ended, Settings};
use gp_replay::{Replay, are_covered, is_profile};
use gp_telling::{program_in, tell_names};
use gp_top::{Outcome, Report, top};
use gp_words::{Job, job};
use gp_workers::NoGate;
use std::alloc::Global;
use std::sync::Wait;
use std::thread::Threads;

/// What is told of a run, and whether nothing was wrong.
#[derive(Drop)]
pub struct Verdict {
    pub page: Page,
    pub is_right: bool,
}

impl Verdict {
    // Something has to hold.
    fn holds(&mut self, what: &str, holds: bool) -> Result<(), Unanswered> {
        if !holds {
            self.page.text(" WRONG ")?;
            self.page.text(what)?;
            self.is_right = false;
        }
        Ok(())
    }
}

/// A run of a program with options that has come to its end, and what was kept of its waits by its journal.
#[derive(Drop)]
struct Replayed {
    program: Program,
    settings: Settings,
    replay: Replay,
    block: Groups,
    mutex: Groups,
}

fn settings_of(alloc: Global, command: &str) -> Result<Settings, Unanswered> {
    let words = command_words(alloc, command)?;
    match job(alloc, words.as_slice()) {
        Ok(Job::Run { settings, .. }) => Ok(settings),
        _ => Err(Unanswered::Form),
    }
}

fn program_of(alloc: Global, file: &str) -> Result<Program, Unanswered> {
    let (_, text) = word(file);
    let text = text.replace(alloc, ';', "\n")?;
    program_in(alloc, text.as_bytes())
}

// The status where a file can't be put, or the summary not be written.
const PUT_FAULT: u8 = 4;

// The status of a run, whose files may all be put and whose summary may be written whole.
fn status_of(replay: &Replay, is_whole: bool) -> u8 {
    if !is_whole {
        return PUT_FAULT;
    }
    match replay.ended() {
        Ended::Fault { .. } => 5,
        Ended::Deadlock => 6,
        Ended::Main if !replay.refused.is_empty() => 7,
        Ended::Full => 8,
        Ended::Main => 0,
    }
}

// The journal, replayed up to the first entry that breaks a rule, if there is one.
fn replay_of(
    alloc: Global,
    program: &Program,
    settings: &Settings,
    report: &Report,
) -> Result<Replay, Unanswered> {
    let mut replay = Replay::new(alloc, program, settings)?;
    for entry in report.journal.iter() {
        if replay.enter(alloc, program, entry).is_err() {
            break;
        }
    }
    Ok(replay)
}

fn replayed_of(alloc: Global, wanted: &Call, report: &Report) -> Result<Replayed, Unanswered> {
    let program = program_of(alloc, wanted.file)?;
    let settings = settings_of(alloc, wanted.command)?;
    let replay = replay_of(alloc, &program, &settings, report)?;
    let block = expected::block(alloc, &program, &settings, &replay)?;
    let mutex = expected::mutex(alloc, &program, &settings, &replay)?;
    Ok(Replayed {
        program,
        settings,
        replay,
        block,
        mutex,
    })
}

fn are_profiles(report: &Report, replay: &Replay) -> bool {
    let mut all = report.goroutine_records.len() == replay.profiles.len();
    for (records, profile) in report.goroutine_records.iter().zip(replay.profiles.iter()) {
        all = all && is_profile(records, profile);
    }
    all
}

fn are_refused(report: &Report, settings: &Settings, replay: &Replay) -> bool {
    let mut all = report.refused.len() == replay.refused.len();
    for ((room, live), n) in report.refused.iter().zip(replay.refused.iter()) {
        all = all && *room == settings.room && live == n;
    }
    all
}

fn are_numbers(report: &Report, replay: &Replay) -> bool {
    report.done.as_slice() == replay.done.as_slice()
        && report.made.as_slice() == replay.made.as_slice()
        && report.ended == replay.ended()
        && report.born as usize == replay.born()
        && report.live as usize == replay.live()
}

fn wanted_files(
    alloc: Global,
    report: &Report,
    replayed: &Replayed,
) -> Result<WantedFiles, Unanswered> {
    let Replayed {
        program,
        settings,
        replay,
        block,
        mutex,
    } = replayed;
    let mut wanted = WantedFiles::new(alloc);
    for (at, profile) in replay.profiles.iter().enumerate() {
        let text = expected::goroutines(alloc, program, profile)?;
        wanted.add_epoch(alloc, (at as u64).saturating_add(1), text)?;
    }
    let samples = expected::samples(alloc, program, settings, report.cpu_records.as_slice())?;
    let cpu = expected::cpu(alloc, settings, replay.clock, &samples)?;
    wanted.add(alloc, "cpu.pb", cpu)?;
    wanted.add(alloc, "block.pb", expected::waits(alloc, block)?)?;
    wanted.add(alloc, "mutex.pb", expected::waits(alloc, mutex)?)?;
    Ok(wanted)
}

// How many of so many calls are done where one of them fails, if it comes to that.
fn done_of(failing: u64, calls: usize) -> usize {
    if failing == 0 || failing > calls as u64 {
        calls
    } else {
        (failing as usize).saturating_sub(1)
    }
}

// The summary that has to be written.
fn wanted_summary(alloc: Global, report: &Report, replayed: &Replayed) -> Result<Page, Unanswered> {
    let Replayed {
        replay,
        block,
        mutex,
        ..
    } = replayed;
    expected::summary(alloc, replay, report.cpu_records.as_slice(), block, mutex)
}

// Whether what was written is the first so many bytes of a summary.
fn is_written(devices: &Devices, summary: &Page, written: usize) -> bool {
    let gained = devices.sink.held.written().as_slice();
    match summary.as_str().as_bytes().get(..written) {
        Some(front) => front == gained,
        None => false,
    }
}

// Whether the files were put, the summary written, and the status is the one that has to be. Behind a put that fails nothing is put or
// written; of a summary that can't be written whole a front is there.
fn judge_output(
    alloc: Global,
    verdict: &mut Verdict,
    failing: &Failing,
    devices: &Devices,
    status: u8,
    report: &Report,
    replayed: &Replayed,
) -> Result<(), Unanswered> {
    let wanted = wanted_files(alloc, report, replayed)?;
    let summary = wanted_summary(alloc, report, replayed)?;
    let put = done_of(failing.put, wanted.len());
    let are_put = put == wanted.len();
    let most = if are_put { summary.as_str().len() } else { 0 };
    let written = done_of(failing.write, most);
    let is_whole = are_put && written == summary.as_str().len();
    let has_to_be = status_of(&replayed.replay, is_whole);
    let are_files = wanted.are(alloc, devices.store.files(), put)?;
    verdict.holds("files", are_files)?;
    verdict.holds("summary", is_written(devices, &summary, written))?;
    verdict.holds("status", status == has_to_be)
}

fn judge_report(
    alloc: Global,
    verdict: &mut Verdict,
    report: &Report,
    replayed: &Replayed,
) -> Result<(), Unanswered> {
    let Replayed {
        settings,
        replay,
        ..
    } = replayed;
    let records = report.cpu_records.as_slice();
    let samples = replay.samples.as_slice();
    verdict.holds("journal", replay.length == report.journal.len() as u64)?;
    verdict.holds("end", replay.is_complete())?;
    verdict.holds("records", are_profiles(report, replay))?;
    verdict.holds("refusals", are_refused(report, settings, replay))?;
    verdict.holds("samples", are_covered(records, settings.hz, samples))?;
    verdict.holds("numbers", are_numbers(report, replay))
}

// The words of a case, run on threads.
fn call<R: Threads + Wait + Sync>(
    rt: &R,
    alloc: Global,
    words: &[String],
    devices: &mut Devices,
) -> Outcome {
    let Devices {
        source,
        store,
        sink,
    } = devices;
    top(rt, alloc, words, source, store, sink, &NoGate)
}

// What is told of a run.
fn tell(
    page: &mut Page,
    case: &Case,
    report: &Report,
    replayed: &Replayed,
) -> Result<(), Unanswered> {
    let Replayed {
        settings,
        replay,
        block,
        mutex,
        ..
    } = replayed;
    tell_end(page, replay)?;
    if case.is_whole {
        tell_whole(page, report, replay, settings.workers, block, mutex)?;
    }
    Ok(())
}

// A call that made a run.
fn judge_run(
    alloc: Global,
    verdict: &mut Verdict,
    case: &Case,
    devices: &Devices,
    status: u8,
    report: &Report,
) -> Result<(), Unanswered> {
    let replayed = replayed_of(alloc, &case.wanted, report)?;
    tell(&mut verdict.page, case, report, &replayed)?;
    judge_report(alloc, verdict, report, &replayed)?;
    let failing = &case.wanted.failing;
    judge_output(alloc, verdict, failing, devices, status, report, &replayed)
}

// A call that made none.
fn tell_refused(page: &mut Page, devices: &Devices) -> Result<(), Unanswered> {
    page.written(devices.sink.held.written().as_slice())?;
    tell_names(page, devices.store.files())?;
    Ok(())
}

/// Makes the run of a case, and judges it. Of a call without a report it tells the status, what was written, and which files were
/// put.
pub fn judge<R: Threads + Wait + Sync>(
    rt: &R,
    alloc: Global,
    case: &Case,
) -> Result<Verdict, Unanswered> {
    let Call {
        failing,
        command,
        file,
    } = case.made;
    let words = command_words(alloc, command)?;
    let mut devices = Devices::new(alloc, file, failing)?;
    let outcome = call(rt, alloc, words.as_slice(), &mut devices);
    let mut verdict = Verdict {
        page: Page::new(alloc),
        is_right: true,
    };
    verdict.page.number("status ", u64::from(outcome.status))?;
    match outcome.report.as_ref() {
        Some(report) => judge_run(alloc, &mut verdict, case, &devices, outcome.status, report)?,
        None => tell_refused(&mut verdict.page, &devices)?,
    }
    Ok(verdict)
}
