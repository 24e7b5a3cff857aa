//! The source, the store and the sink in memory, with the calls that are to fail.
use gp_cases::{OneByte, Page, Unanswered, number_32, number_64, word};
use gp_io::{Calls, MemSink, MemSource, MemStore, Sink, Store, read_all, write_all};
use gp_isa::Content;
use std::alloc::{AllocError, Global};

/// Bytes that no shift by a block leaves the same.
pub fn counting(alloc: Global, size: u32) -> Result<Vec<u8>, AllocError> {
    let mut bytes = Vec::new(alloc);
    for i in 0..size {
        bytes.push((i % 251) as u8)?;
    }
    Ok(bytes)
}

fn read_twice(
    alloc: Global,
    page: &mut Page,
    failing: u64,
    limit: usize,
) -> Result<(), Unanswered> {
    let bytes = Content::from_vec(counting(alloc, 5000)?);
    let mut source = MemSource::new(bytes, Calls::from_slice(alloc, &[failing])?);
    let first = read_all(alloc, &mut source, limit).map(|content| content.len());
    page.debug("\n", &first)?;
    let rest = read_all(alloc, &mut source, 5000).map(|content| content.len());
    page.debug(" ", &rest)?;
    Ok(())
}

/// What is read of 5,000 bytes within a limit where a read is to fail (0: none), and then without a limit: `READ LIMIT`.
pub fn reads(alloc: Global, page: &mut Page, rows: &[&str]) -> Result<(), Unanswered> {
    for row in rows {
        let (failing, limit) = word(row);
        read_twice(alloc, page, number_64(failing)?, number_32(limit)? as usize)?;
    }
    Ok(())
}

/// Which puts are well, of which the second is to fail, and the names that then stand: `NAME TEXT`.
pub fn puts(alloc: Global, page: &mut Page, rows: &[&str]) -> Result<(), Unanswered> {
    let mut store = MemStore::new(alloc, Calls::from_slice(alloc, &[2])?);
    for row in rows {
        let (name, text) = word(row);
        let put = store.put(name, text.as_bytes());
        page.line(if put.is_ok() { "true" } else { "false" })?;
    }
    for file in store.files().iter() {
        page.line(file.0.as_str())?;
    }
    Ok(())
}

/// What comes of writes of which the second is to fail, and how many bytes were then taken.
pub fn writes(alloc: Global, page: &mut Page, rows: &[&str]) -> Result<(), Unanswered> {
    let mut sink = MemSink::new(alloc, Calls::from_slice(alloc, &[2])?);
    for row in rows {
        page.debug("\n", &sink.write(row.as_bytes()))?;
    }
    page.number("\n", sink.written().len() as u64)?;
    Ok(())
}

/// What comes of texts written whole to a sink that takes one byte at a time, of which a write is to fail (0: none), and the
/// text that it then has: `WRITE TEXT`.
pub fn writes_whole(alloc: Global, page: &mut Page, rows: &[&str]) -> Result<(), Unanswered> {
    for row in rows {
        let (failing, text) = word(row);
        let fails = Calls::from_slice(alloc, &[number_64(failing)?])?;
        let mut sink = OneByte {
            held: MemSink::new(alloc, fails),
        };
        page.debug("\n", &write_all(&mut sink, text.as_bytes()))?;
        page.text(";")?;
        page.written(sink.held.written().as_slice())?;
        page.text(".")?;
    }
    Ok(())
}
