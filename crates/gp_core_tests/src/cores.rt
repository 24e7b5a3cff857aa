//! Cores that cases drive.
ghost use Rattle.std.specs.Prelude.{◌≡◌, IfOk};
ghost use Rattle.gp_journal.specs.Settings.{AreInRange};

use crate::events::event_of;
use crate::telling::{tell_copies, tell_entries};
use gp_cases::{Page, Unanswered, command_words, halves, lines, word};
use gp_core::Core;
use gp_isa::Program;
use gp_machine::{Run, Settings};
use gp_text::read;
use gp_words::{Job, job};
use std::alloc::Global;
use std::marker::Brand;

fn program_in(alloc: Global, file: &[u8]) -> Result<Program, Unanswered> {
    if file.len() > 65536 {
        return Err(Unanswered::Form);
    }
    read(alloc, file).ok().ok_or(Unanswered::Form)
}

fn settings_of(alloc: Global, line: &str) -> Result<Settings, Unanswered>
    ensures { IfOk result AreInRange }
{
    let words = command_words(alloc, line)?;
    match job(alloc, words.as_slice()) {
        Ok(Job::Sim { settings, .. }) => Ok(settings),
        _ => Err(Unanswered::Form),
    }
}

// Makes events one after another, up to the first that isn't enabled, which is told.
fn make<R: Run>(
    alloc: Global,
    page: &mut Page,
    program: &Program,
    core: &mut Core<R>,
    events: &str,
) -> Result<(), Unanswered>
    requires { program.now ≡ R.program }
{
    for text in events.split(", ") {
        let event = event_of(text)?;
        if !core.enabled(program, &event) {
            page.line("not enabled: ")?;
            page.text(text)?;
            return Ok(());
        }
        core.step(alloc, program, event)?;
    }
    Ok(())
}

// Tells of events whether each is enabled.
fn tell_enabled<R: Run>(
    page: &mut Page,
    program: &Program,
    core: &Core<R>,
    events: &str,
) -> Result<(), Unanswered> {
    page.line("")?;
    for (at, text) in events.split(", ").enumerate() {
        let enabled = core.enabled(program, &event_of(text)?);
        page.text(if at == 0 { "" } else { ", " })?;
        page.text(if enabled { "yes" } else { "no" })?;
    }
    Ok(())
}

// Makes events from the first core on, and tells whether one more is enabled then.
fn tell_stop<R: Run>(
    alloc: Global,
    page: &mut Page,
    program: &Program,
    settings: &Settings,
    row: &str,
) -> Result<(), Unanswered>
    requires program { program.now ≡ R.program }
    requires settings { settings.now ≡ R.settings }
    requires range { AreInRange settings.now }
{
    let (events, next) = halves(row, '/')?;
    let mut core = Core::<R>::first(alloc, program, settings)?;
    make(alloc, page, program, &mut core, events.trim())?;
    let enabled = core.enabled(program, &event_of(next.trim())?);
    page.line(if enabled { "goes on" } else { "stops" })?;
    Ok(())
}

// Answers the rows of a case.
fn answer<R: Run>(
    alloc: Global,
    page: &mut Page,
    program: &Program,
    settings: &Settings,
    rows: &[&str],
) -> Result<(), Unanswered>
    requires program { program.now ≡ R.program }
    requires settings { settings.now ≡ R.settings }
    requires range { AreInRange settings.now }
{
    let mut core = Core::<R>::first(alloc, program, settings)?;
    let mut told = 0;
    for row in rows {
        let (kind, events) = word(row);
        match kind {
            "make" => make(alloc, page, program, &mut core, events)?,
            "may" => tell_enabled(page, program, &core, events)?,
            "stops" => tell_stop::<R>(alloc, page, program, settings, events)?,
            "copies" => tell_copies(page, core.copies())?,
            _ => {
                tell_entries(page, core.journal(), told)?;
                told = core.journal().len();
            }
        }
    }
    Ok(())
}

/// Answers the rows of a case: of a command line, and of a program's file.
pub fn answers(
    alloc: Global,
    page: &mut Page,
    line: &str,
    text: &str,
    rows: &[&str],
) -> Result<(), Unanswered> {
    let program = program_in(alloc, lines(alloc, text)?.as_bytes())?;
    let settings = settings_of(alloc, line)?;
    answer::<Brand>(alloc, page, &program, &settings, rows)
}
