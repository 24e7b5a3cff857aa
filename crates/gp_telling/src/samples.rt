use crate::journal::tell_frames;
use gp_cases::Page;
use gp_cpu::CpuRecord;
use std::alloc::AllocError;

/// Tells what a reader took from the ring of samples in a line: of each sample its time, header and tag and its frames, as
/// function and line; of each loss how many there were, and the time of the first.
pub fn tell_cpu(page: &mut Page, records: &[CpuRecord]) -> Result<(), AllocError> {
    for (at, record) in records.iter().enumerate() {
        page.text(if at == 0 { "\n" } else { "; " })?;
        match record {
            CpuRecord::Sample {
                time,
                tag,
                header,
                stack,
            } => {
                page.number("", *time)?;
                page.number(" header ", *header)?;
                page.number(" tag ", *tag)?;
                page.text(if stack.is_empty() { "" } else { " at" })?;
                tell_frames(page, " ", stack.as_slice())?;
            }
            CpuRecord::Lost { count, time } => {
                page.number("lost ", *count)?;
                page.number(" from ", *time)?;
            }
        }
    }
    Ok(())
}
