//! Goroutine profiles of records, as bytes in hexadecimal text.
use gp_build::goroutine_profile;
use gp_cases::{Page, Unanswered, halves, number_8, number_32, program_of, word, words};
use gp_isa::{Frame, Program, Sequence};
use gp_stack::{Record, Records, Stack};
use gp_wire::{Profile, write};
use std::alloc::Global;

/// Tells the bytes of a profile.
pub fn tell_bytes(alloc: Global, page: &mut Page, profile: &Profile) -> Result<(), Unanswered> {
    let bytes = write(alloc, profile)?;
    page.bytes(alloc, bytes.as_slice())
}

/// A frame, `FUNCTION:LINE`.
pub fn frame(word: &str) -> Result<Frame, Unanswered> {
    let (function, line) = halves(word, ':')?;
    Ok(Frame {
        function: number_32(function)?,
        line: number_32(line)?,
    })
}

/// A stack, its frames' words, the leaf first.
pub fn stack(alloc: Global, row: &str) -> Result<Stack, Unanswered> {
    let mut stack = Stack::new(alloc);
    for word in words(alloc, row)? {
        stack.push(frame(word)?)?;
    }
    Ok(stack)
}

// Adds the record of a row: its label set, and its frames, the leaf first.
fn add_record(alloc: Global, records: &mut Records, row: &str) -> Result<(), Unanswered> {
    let (set, frames) = word(row);
    let set = number_8(set)?;
    records.push(Record {
        g: 0,
        stack: stack(alloc, frames)?,
        set,
    })?;
    Ok(())
}

fn tell_records(
    alloc: Global,
    page: &mut Page,
    program: &Program,
    records: &Records,
) -> Result<(), Unanswered> {
    let profile = goroutine_profile(alloc, program, "a.gp", records)?;
    tell_bytes(alloc, page, &profile)
}

/// The goroutine profile of the rows' records, of a program in the file `a.gp`.
pub fn goroutines(
    alloc: Global,
    page: &mut Page,
    text: &str,
    rows: &[&str],
) -> Result<(), Unanswered> {
    let mut records = Records::new(alloc);
    for row in rows {
        add_record(alloc, &mut records, row)?;
    }
    let program = program_of(alloc, text)?;
    tell_records(alloc, page, &program, &records)
}

// How many records a large profile has, of how many functions.
const RECORDS: u32 = 2000;

const FUNCTIONS: u32 = 200;

// Adds record k, of 1 to 32 frames, and one of six label sets.
fn add_numbered(alloc: Global, records: &mut Records, k: u32) -> Result<(), Unanswered> {
    let mut stack = Sequence::new(alloc);
    for j in 0..k % 32 + 1 {
        let function = k.wrapping_add(j) % FUNCTIONS;
        let line = k.wrapping_mul(7).wrapping_add(j) % 8;
        stack.push(Frame {
            function,
            line: function * 10 + 2 + line,
        })?;
    }
    let set = (k % 6) as u8;
    records.push(Record { g: k, stack, set })?;
    Ok(())
}

// The bytes as digits to the base 31, the first one the highest, modulo 2^64.
fn checksum(bytes: &[u8]) -> u64 {
    let mut sum: u64 = 0;
    for byte in bytes {
        sum = sum.wrapping_mul(31).wrapping_add(u64::from(*byte));
    }
    sum
}

// How many samples, locations, functions and strings a profile has, how many bytes, and their checksum.
fn tell_figures(alloc: Global, page: &mut Page, profile: &Profile) -> Result<(), Unanswered> {
    page.number("\nsamples ", profile.samples.len() as u64)?;
    page.number("\nlocations ", profile.locations.len() as u64)?;
    page.number("\nfunctions ", profile.functions.len() as u64)?;
    page.number("\nstrings ", profile.strings.len() as u64)?;
    let bytes = write(alloc, profile)?;
    page.number("\nbytes ", bytes.len() as u64)?;
    page.number("\nchecksum ", checksum(bytes.as_slice()))?;
    Ok(())
}

fn tell_large(
    alloc: Global,
    page: &mut Page,
    program: &Program,
    records: &Records,
) -> Result<(), Unanswered> {
    let profile = goroutine_profile(alloc, program, "a.gp", records)?;
    tell_figures(alloc, page, &profile)
}

/// The figures of a large profile, of so many records: `COUNT PROGRAM`.
pub fn large(alloc: Global, page: &mut Page, head: &str) -> Result<(), Unanswered> {
    let (count, text) = word(head);
    let count = number_32(count)?;
    let mut records = Records::new(alloc);
    for k in 0..count {
        add_numbered(alloc, &mut records, k)?;
    }
    let program = program_of(alloc, text)?;
    tell_large(alloc, page, &program, &records)
}
