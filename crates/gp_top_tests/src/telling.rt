//! What is told of a call of the program: its outcome, the files that it put, and what it wrote.
use gp_cases::{Devices, Page, Unanswered, lines, word};
use gp_io::Files;
use gp_telling::{
    file_of, is_printed_again, tell_bytes, tell_cpu, tell_journal, tell_meaning, tell_report,
};
use gp_top::Outcome;
use std::alloc::{AllocError, Global};

// The status; of the report the numbers, each profile that was refused, and each that was made; the names of the files.
fn tell_outcome(page: &mut Page, outcome: &Outcome, files: &Files) -> Result<(), AllocError> {
    page.number("\n", u64::from(outcome.status))?;
    if let Some(report) = outcome.report.as_ref() {
        tell_report(page, report)?;
    }
    for file in files.iter() {
        page.text("; ")?;
        page.text(file.0.as_str())?;
    }
    Ok(())
}

fn tell_file(
    alloc: Global,
    page: &mut Page,
    devices: &Devices,
    kind: &str,
    name: &str,
) -> Result<(), Unanswered> {
    let file = file_of(devices.store.files(), name)?;
    match kind {
        "samples" => tell_meaning(alloc, page, file, true)?,
        "dump" => tell_meaning(alloc, page, file, false)?,
        "reads" => page.debug("\n", &is_printed_again(alloc, file)?)?,
        "size" => page.number("\n", file.len() as u64)?,
        _ => return Err(Unanswered::Form),
    }
    Ok(())
}

// Whether the file of a name has just the bytes of a text, with a `;` for each line feed.
fn tell_text(
    alloc: Global,
    page: &mut Page,
    devices: &Devices,
    row: &str,
) -> Result<(), Unanswered> {
    let (name, text) = word(row);
    let wanted = lines(alloc, text)?;
    let file = file_of(devices.store.files(), name)?;
    page.debug("\n", &(file.as_slice() == wanted.as_bytes()))?;
    Ok(())
}

/// Tells what a row asks for.
pub fn tell_row(
    alloc: Global,
    page: &mut Page,
    outcome: &Outcome,
    devices: &Devices,
    row: &str,
) -> Result<(), Unanswered> {
    let (kind, rest) = word(row);
    match kind {
        "outcome" => tell_outcome(page, outcome, devices.store.files())?,
        "journal" => {
            let report = outcome.report.as_ref().ok_or(Unanswered::Form)?;
            tell_journal(page, report.journal.as_slice())?;
        }
        "cpu" => {
            let report = outcome.report.as_ref().ok_or(Unanswered::Form)?;
            tell_cpu(page, report.cpu_records.as_slice())?;
        }
        "written" => {
            page.line("written")?;
            page.written(devices.sink.held.written().as_slice())?;
        }
        "bytes" => tell_bytes(alloc, page, devices.store.files())?,
        "text" => tell_text(alloc, page, devices, rest)?,
        _ => tell_file(alloc, page, devices, kind, rest)?,
    }
    Ok(())
}

/// Tells all of it, and the bytes of each file.
pub fn tell_all(
    alloc: Global,
    page: &mut Page,
    outcome: &Outcome,
    devices: &Devices,
) -> Result<(), Unanswered> {
    for row in ["outcome", "journal", "cpu", "written", "bytes"] {
        tell_row(alloc, page, outcome, devices, row)?;
    }
    Ok(())
}
