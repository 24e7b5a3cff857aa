//! Runs in an order that numbers choose: their journals, what the machine tells at the end, and the records of profiles.
ghost use Rattle.std.specs.Prelude.{◌≡◌, IfOk};
ghost use Rattle.gp_journal.specs.Settings.{AreInRange};

use gp_cases::{Page, Unanswered, command_words, lines};
use gp_isa::Program;
use gp_machine::{Machine, Queue, Run, Settings};
use gp_sim::{Simulated, simulate};
use gp_stack::{Profiles, Record, Records};
use gp_telling::{program_in, tell_cpu, tell_frames, tell_journal};
use gp_words::{Job, job};
use std::alloc::{AllocError, Global};
use std::marker::Brand;

fn settings_of(alloc: Global, line: &str) -> Result<Settings, Unanswered>
    ensures { IfOk result AreInRange }
{
    let words = command_words(alloc, line)?;
    match job(alloc, words.as_slice()) {
        Ok(Job::Sim { settings, .. }) => Ok(settings),
        _ => Err(Unanswered::Form),
    }
}

fn tell_record(page: &mut Page, record: &Record) -> Result<(), AllocError> {
    page.number(" ", u64::from(record.g))?;
    page.text(" at")?;
    tell_frames(page, " ", record.stack.as_slice())?;
    page.number(" with ", u64::from(record.set))
}

fn tell_profile(page: &mut Page, records: &Records) -> Result<(), AllocError> {
    page.text("profile:")?;
    for (at, record) in records.iter().enumerate() {
        if at > 0 {
            page.text(",")?;
        }
        tell_record(page, record)?;
    }
    Ok(())
}

fn tell_profiles(page: &mut Page, profiles: &Profiles) -> Result<(), AllocError> {
    page.line("")?;
    for (at, records) in profiles.iter().enumerate() {
        if at > 0 {
            page.text("; ")?;
        }
        tell_profile(page, records)?;
    }
    Ok(())
}

// What a machine tells of its run, with as many workers.
fn tell_end<R: Run>(page: &mut Page, machine: &Machine<R>, workers: u32) -> Result<(), AllocError>
    requires { workers ≡ R.settings.workers }
{
    page.line("")?;
    if machine.complete() {
        page.debug("", &machine.ended())?;
        page.text("; ")?;
    }
    page.number("clock ", machine.clock())?;
    page.number("; ", u64::from(machine.births()))?;
    page.number(" born, ", u64::from(machine.live()))?;
    page.number(" live, ", u64::from(machine.running()))?;
    page.number(" running; epochs ", u64::from(machine.active()))?;
    page.number(" ", u64::from(machine.last_epoch()))?;
    page.text("; done")?;
    for w in 0..workers {
        page.number(" ", machine.done(w))?;
    }
    page.text("; made")?;
    for actor in 0..=workers {
        page.number(" ", u64::from(machine.made(actor)))?;
    }
    Ok(())
}

fn tell_run<R: Run>(
    page: &mut Page,
    ran: &Simulated<R>,
    workers: u32,
    rows: &[&str],
) -> Result<(), AllocError>
    requires { workers ≡ R.settings.workers }
{
    for row in rows {
        match *row {
            "journal" => tell_journal(page, ran.machine.journal())?,
            "records" => tell_profiles(page, &ran.records)?,
            "cpu" => tell_cpu(page, ran.cpu.records().as_slice())?,
            _ => tell_end(page, &ran.machine, workers)?,
        }
    }
    Ok(())
}

fn run_and_tell<R: Run>(
    alloc: Global,
    page: &mut Page,
    program: &Program,
    settings: &Settings,
    rows: &[&str],
) -> Result<(), Unanswered>
    requires program { program.now ≡ R.program }
    requires settings { settings.now ≡ R.settings }
    requires range { AreInRange settings.now }
{
    let ran = simulate::<R>(alloc, program, settings)?;
    tell_run(page, &ran, settings.workers, rows)?;
    Ok(())
}

/// What comes of a run, told as each row asks: the command line, and the program's file as the first row.
pub fn run(alloc: Global, page: &mut Page, line: &str, rows: &[&str]) -> Result<(), Unanswered> {
    let (text, rows) = rows.split_first().ok_or(Unanswered::Form)?;
    let program = program_in(alloc, lines(alloc, text)?.as_bytes())?;
    let settings = settings_of(alloc, line)?;
    run_and_tell::<Brand>(alloc, page, &program, &settings, rows)
}

fn tell_queue(page: &mut Page, queue: &Queue) -> Result<(), AllocError> {
    page.debug("\n", &queue.head())?;
    page.number(" of ", u64::from(queue.len()))
}

/// One leaves a queue from the middle and comes back at the head.
pub fn queue(alloc: Global, page: &mut Page) -> Result<(), Unanswered> {
    let mut queue = Queue::new(alloc, 16384)?;
    queue.push_back(5);
    queue.push_back(0);
    queue.push_back(16383);
    queue.remove(0);
    tell_queue(page, &queue)?;
    queue.remove(5);
    tell_queue(page, &queue)?;
    queue.push_front(5);
    tell_queue(page, &queue)?;
    Ok(())
}
