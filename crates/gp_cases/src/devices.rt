//! What a call of the program reads from, puts to and writes to.
use crate::error::Unanswered;
use crate::one_byte::OneByte;
use crate::reading::{bytes, lines, word};
use gp_io::{Calls, MemSink, MemSource, MemStore};
use gp_isa::Content;
use std::alloc::Global;

/// What a call of the program gets in memory: a source that holds a file, a store, and a sink that takes one byte at a time.
#[derive(Drop)]
pub struct Devices {
    pub source: MemSource,
    pub store: MemStore,
    pub sink: OneByte,
}

/// The number of the call of each device that is to fail, 0 for none.
#[derive(Clone, Copy)]
pub struct Failing {
    pub read: u64,
    pub put: u64,
    pub write: u64,
}

impl Failing {
    /// No call is to fail.
    pub const NONE: Failing = Failing {
        read: 0,
        put: 0,
        write: 0,
    };
}

fn calls(alloc: Global, failing: u64) -> Result<Calls, Unanswered> {
    Ok(Calls::from_slice(alloc, &[failing])?)
}

impl Devices {
    /// The file in a row, as bytes or as a text, and the calls that are to fail.
    pub fn new(alloc: Global, row: &str, failing: Failing) -> Result<Devices, Unanswered> {
        let (kind, held) = word(row);
        let content = match kind {
            "bytes" => Content::from_vec(bytes(alloc, held)?),
            _ => Content::from_slice(alloc, lines(alloc, held)?.as_bytes())?,
        };
        Ok(Devices {
            source: MemSource::new(content, calls(alloc, failing.read)?),
            store: MemStore::new(alloc, calls(alloc, failing.put)?),
            sink: OneByte {
                held: MemSink::new(alloc, calls(alloc, failing.write)?),
            },
        })
    }
}
