//! CPU profiles of the records of samples, as bytes in hexadecimal text.
use crate::profiles::{stack, tell_bytes};
use gp_build::cpu_profile;
use gp_cases::{Page, Unanswered, number_32, number_64, program_of, word};
use gp_cpu::{CpuRecord, CpuRecords};
use gp_isa::Program;
use std::alloc::Global;

// The sample of a row: `TIME TAG HEADER FRAMES`, the leaf first.
fn sample(alloc: Global, row: &str) -> Result<CpuRecord, Unanswered> {
    let (time, rest) = word(row);
    let (tag, rest) = word(rest);
    let (header, frames) = word(rest);
    Ok(CpuRecord::Sample {
        time: number_64(time)?,
        tag: number_64(tag)?,
        header: number_64(header)?,
        stack: stack(alloc, frames)?,
    })
}

// The loss of a row: `COUNT TIME`.
fn lost(row: &str) -> Result<CpuRecord, Unanswered> {
    let (count, time) = word(row);
    Ok(CpuRecord::Lost {
        count: number_64(count)?,
        time: number_64(time)?,
    })
}

fn record(alloc: Global, row: &str) -> Result<CpuRecord, Unanswered> {
    let (kind, rest) = word(row);
    match kind {
        "sample" => sample(alloc, rest),
        "lost" => lost(rest),
        _ => Err(Unanswered::Form),
    }
}

fn tell(
    alloc: Global,
    page: &mut Page,
    program: &Program,
    records: &CpuRecords,
    hz: u32,
    clock: u64,
) -> Result<(), Unanswered> {
    if hz == 0 || clock >= 9_007_199_254_740_992 {
        return Err(Unanswered::Form);
    }
    let profile = cpu_profile(alloc, program, "a.gp", records, hz, clock)?;
    tell_bytes(alloc, page, &profile)
}

/// The bytes of the CPU profile of the rows' records, of a program in the file `a.gp`: `HZ CLOCK PROGRAM`.
pub fn ticks(alloc: Global, page: &mut Page, head: &str, rows: &[&str]) -> Result<(), Unanswered> {
    let (hz, rest) = word(head);
    let (clock, text) = word(rest);
    let hz = number_32(hz)?;
    let clock = number_64(clock)?;
    let mut records = CpuRecords::new(alloc);
    for row in rows {
        records.push(record(alloc, row)?)?;
    }
    let program = program_of(alloc, text)?;
    tell(alloc, page, &program, &records, hz, clock)
}
