//! Whole runs through the top call.
use crate::telling::{tell_all, tell_row};
use gp_cases::{Devices, Failing, Page, Unanswered, command_words, number_64, word};
use gp_telling::tell_names;
use gp_top::{Outcome, plain_top};
use std::alloc::Global;

// What comes of a command line.
fn call(alloc: Global, devices: &mut Devices, line: &str) -> Result<Outcome, Unanswered> {
    let words = command_words(alloc, line)?;
    let Devices {
        source,
        store,
        sink,
    } = devices;
    Ok(plain_top(alloc, words.as_slice(), source, store, sink))
}

/// What comes of a command line, told as each row asks: `READ PUT LINE`, the read and the put that are to fail (0: none) and
/// the command line, and the program's file in the first row.
pub fn top(alloc: Global, page: &mut Page, head: &str, rows: &[&str]) -> Result<(), Unanswered> {
    let (read, rest) = word(head);
    let (put, line) = word(rest);
    let (file, rows) = rows.split_first().ok_or(Unanswered::Form)?;
    let failing = Failing {
        read: number_64(read)?,
        put: number_64(put)?,
        write: 0,
    };
    let mut devices = Devices::new(alloc, file, failing)?;
    let outcome = call(alloc, &mut devices, line)?;
    for row in rows {
        tell_row(alloc, page, &outcome, &devices, row)?;
    }
    Ok(())
}

/// What a command line writes: `READ WRITE LINE`, the read and the write that are to fail (0: none) and the command line, and
/// the file in the row, as a text or as bytes. Told are the status, the names of the files that were put, and what was written,
/// with a `;` for each line feed.
pub fn told(alloc: Global, page: &mut Page, head: &str, rows: &[&str]) -> Result<(), Unanswered> {
    let (read, rest) = word(head);
    let (write, line) = word(rest);
    let row = rows.first().ok_or(Unanswered::Form)?;
    let failing = Failing {
        read: number_64(read)?,
        put: 0,
        write: number_64(write)?,
    };
    let mut devices = Devices::new(alloc, row, failing)?;
    let outcome = call(alloc, &mut devices, line)?;
    page.number("\n", u64::from(outcome.status))?;
    tell_names(page, devices.store.files())?;
    page.written(devices.sink.held.written().as_slice())?;
    Ok(())
}

// What comes where a write is to fail: the status, how many bytes of what is written else were written, and the files.
fn tell_write(
    alloc: Global,
    page: &mut Page,
    write: u64,
    line: &str,
    row: &str,
    whole: &[u8],
) -> Result<(), Unanswered> {
    let failing = Failing {
        write,
        ..Failing::NONE
    };
    let mut devices = Devices::new(alloc, row, failing)?;
    let outcome = call(alloc, &mut devices, line)?;
    let written = devices.sink.held.written().as_slice();
    page.number("\n", u64::from(outcome.status))?;
    if whole.starts_with(written) {
        page.number(" from byte ", (written.len() as u64).saturating_add(1))?;
    }
    tell_names(page, devices.store.files())?;
    Ok(())
}

/// What comes of a command line where each of the first writes of a byte fails in turn: `COUNT LINE`, and the file in the row.
/// Told are the status, the first byte that wasn't written, counted from 1, and the names of the files.
pub fn writes(alloc: Global, page: &mut Page, head: &str, rows: &[&str]) -> Result<(), Unanswered> {
    let (count, line) = word(head);
    let row = rows.first().ok_or(Unanswered::Form)?;
    let mut well = Devices::new(alloc, row, Failing::NONE)?;
    let _ = call(alloc, &mut well, line)?;
    for write in 0..number_64(count)? {
        let whole = well.sink.held.written().as_slice();
        tell_write(alloc, page, write + 1, line, row, whole)?;
    }
    Ok(())
}

// Calls a command line once, tells of it as each row asks, and gives all that is told of it as a page of its own.
fn called(
    alloc: Global,
    page: &mut Page,
    line: &str,
    file: &str,
    rows: &[&str],
) -> Result<Page, Unanswered> {
    let mut devices = Devices::new(alloc, file, Failing::NONE)?;
    let outcome = call(alloc, &mut devices, line)?;
    for row in rows {
        tell_row(alloc, page, &outcome, &devices, row)?;
    }
    let mut all = Page::new(alloc);
    tell_all(alloc, &mut all, &outcome, &devices)?;
    Ok(all)
}

/// What comes of a command line that is called twice, told of the first call as each row asks, and whether both calls told,
/// put and wrote the same: the command line, and the program's file in the first row.
pub fn twice(alloc: Global, page: &mut Page, line: &str, rows: &[&str]) -> Result<(), Unanswered> {
    let (file, rows) = rows.split_first().ok_or(Unanswered::Form)?;
    let first = called(alloc, page, line, file, rows)?;
    let second = called(alloc, page, line, file, &[])?;
    page.debug("\n", &(first.as_str() == second.as_str()))?;
    Ok(())
}
