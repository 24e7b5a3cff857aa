//! A case is played.
ghost use Rattle.std.specs.Prelude.{◌≡◌, IfOk};
ghost use Rattle.gp_journal.specs.Settings.{AreInRange};

use crate::playing::Play;
use gp_cases::{Page, Teller, Unanswered, lines, words};
use gp_isa::Program;
use gp_machine::{Run, Settings};
use gp_text::read;
use gp_words::{Job, job};
use std::alloc::Global;
use std::marker::Brand;

fn program_in(alloc: Global, row: &str) -> Result<Program, Unanswered> {
    let file = lines(alloc, row)?;
    if file.len() > 65536 {
        return Err(Unanswered::Form);
    }
    read(alloc, file.as_bytes()).ok().ok_or(Unanswered::Form)
}

fn words_of(alloc: Global, line: &str) -> Result<Vec<String>, Unanswered> {
    let mut all = Vec::new(alloc);
    for word in words(alloc, line)?.iter() {
        all.push(word.to_string(alloc)?)?;
    }
    Ok(all)
}

fn settings_of(alloc: Global, line: &str) -> Result<Settings, Unanswered>
    ensures { IfOk result AreInRange }
{
    let words = words_of(alloc, line)?;
    match job(alloc, words.as_slice()) {
        Ok(Job::Run { settings, .. }) => Ok(settings),
        _ => Err(Unanswered::Form),
    }
}

fn play_rows<R: Run>(
    alloc: Global,
    page: &mut Page,
    program: &Program,
    settings: &Settings,
    rows: &[&str],
) -> Result<(), Unanswered>
    requires program { program.now ≡ R.program }
    requires settings { settings.now ≡ R.settings }
    requires range { AreInRange settings.now }
{
    let mut play = Play::<R>::new(alloc, program, settings)?;
    for row in rows {
        play.play(alloc, program, settings, row, page)?;
    }
    Ok(())
}

fn play_case(alloc: Global, page: &mut Page, line: &str, rows: &[&str]) -> Result<(), Unanswered> {
    let (file, rows) = rows.split_first().ok_or(Unanswered::Form)?;
    let program = program_in(alloc, file)?;
    let settings = settings_of(alloc, line)?;
    play_rows::<Brand>(alloc, page, &program, &settings, rows)
}

/// Answers cases of calls on a world.
pub struct OfWorlds;

impl Teller for OfWorlds {
    fn tell(alloc: Global, page: &mut Page, rows: &[&str]) -> Result<(), Unanswered> {
        let (line, rows) = rows.split_first().ok_or(Unanswered::Form)?;
        play_case(alloc, page, line, rows)
    }
}
