//! Command words: the settings that they give, or the place and the cause of the first fault.
use gp_cases::{Page, Unanswered, command_words};
use gp_machine::{Request, Settings};
use gp_words::{Job, WordError, job};
use std::alloc::{AllocError, Global};

// The lists: the instants, and the numbers of picks.
fn tell_lists(page: &mut Page, settings: &Settings) -> Result<(), AllocError> {
    page.text(" at")?;
    for request in settings.at.iter() {
        match *request {
            Request::Clock { clock } => page.number(" ", clock)?,
            Request::End => page.text(" end")?,
        }
    }
    page.text(", picks")?;
    for pick in settings.picks.iter() {
        page.number(" ", u64::from(*pick))?;
    }
    Ok(())
}

// Workers, room, cells, entries, seed and the lists; and the rates, and the words and tags of the ring.
fn tell_settings(page: &mut Page, settings: &Settings) -> Result<(), AllocError> {
    page.number(" ", u64::from(settings.workers))?;
    page.number(" ", u64::from(settings.room))?;
    page.number(" ", u64::from(settings.cells))?;
    page.number(" ", u64::from(settings.entries))?;
    page.number(" ", settings.seed)?;
    tell_lists(page, settings)?;
    page.number("; ", u64::from(settings.hz))?;
    page.number(" ", u64::from(settings.block))?;
    page.number(" ", u64::from(settings.mutex))?;
    page.number(" ", u64::from(settings.ring))?;
    page.number(" ", u64::from(settings.tags))
}

fn tell_job(page: &mut Page, job: &Job) -> Result<(), AllocError> {
    match job {
        Job::Run { file, settings } => {
            page.line("run ")?;
            page.text(file.as_str())?;
            tell_settings(page, settings)
        }
        Job::Sim { file, settings } => {
            page.line("sim ")?;
            page.text(file.as_str())?;
            tell_settings(page, settings)
        }
        Job::Gen { n, q, settings } => {
            page.number("\ngen ", *n)?;
            page.number(" ", u64::from(*q))?;
            tell_settings(page, settings)
        }
        Job::Dump { file } => {
            page.line("dump ")?;
            page.text(file.as_str())
        }
    }
}

fn tell(page: &mut Page, said: Result<Job, WordError>) -> Result<(), Unanswered> {
    match said {
        Ok(job) => tell_job(page, &job)?,
        Err(WordError::Usage { place, cause }) => {
            page.number("\nusage ", u64::from(place))?;
            page.number(" ", u64::from(cause))?;
        }
        Err(WordError::Memory) => return Err(Unanswered::Memory),
    }
    Ok(())
}

/// What the words of each row say.
pub fn words(alloc: Global, page: &mut Page, rows: &[&str]) -> Result<(), Unanswered> {
    for row in rows {
        let words = command_words(alloc, row)?;
        tell(page, job(alloc, words.as_slice()))?;
    }
    Ok(())
}

/// How many picks the words of each row give.
pub fn picks(alloc: Global, page: &mut Page, rows: &[&str]) -> Result<(), Unanswered> {
    for row in rows {
        let words = command_words(alloc, row)?;
        let Ok(Job::Sim { settings, .. }) = job(alloc, words.as_slice()) else {
            return Err(Unanswered::Form);
        };
        page.number("\n", settings.picks.len() as u64)?;
    }
    Ok(())
}
