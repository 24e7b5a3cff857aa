use crate::journal::tell_frames;
use gp_cases::Page;
use gp_journal::Entry;
use gp_report::Report;
use gp_stack::Records;
use std::alloc::AllocError;

fn is_tick(entry: &Entry) -> bool {
    match *entry {
        Entry::Tick { .. } => true,
        _ => false,
    }
}

/// Tells how many instructions a run took, how it ended, and how many goroutines were born and are live.
pub fn tell_end(page: &mut Page, report: &Report) -> Result<(), AllocError> {
    let mut instructions = 0_u64;
    for done in report.done.as_slice() {
        instructions = instructions.saturating_add(*done);
    }
    page.number(" instructions ", instructions)?;
    page.debug(" ", &report.ended)?;
    page.number(" born ", u64::from(report.born))?;
    page.number(" live ", u64::from(report.live))
}

fn tell_numbers(page: &mut Page, report: &Report) -> Result<(), AllocError> {
    let ticks = report.journal.iter().filter(|entry| is_tick(entry)).count();
    page.number(" entries ", report.journal.len() as u64)?;
    page.number(" ticks ", ticks as u64)?;
    tell_end(page, report)
}

// The records of a profile, by goroutine: its number, and its frames as function and line, the leaf first.
fn tell_profile(page: &mut Page, records: &Records, born: u32) -> Result<(), AllocError> {
    page.text("; profile")?;
    for g in 0..born {
        for record in records.iter() {
            if record.g == g {
                page.number(" ", u64::from(g))?;
                tell_frames(page, "@", record.stack.as_slice())?;
            }
        }
    }
    Ok(())
}

/// Tells the numbers of a run, each profile that was refused, and each that was made.
pub fn tell_report(page: &mut Page, report: &Report) -> Result<(), AllocError> {
    tell_numbers(page, report)?;
    for (room, n) in report.refused.iter() {
        page.number("; refused ", u64::from(*room))?;
        page.number(" ", u64::from(*n))?;
    }
    for records in report.goroutine_records.iter() {
        tell_profile(page, records, report.born)?;
    }
    Ok(())
}
