//! The outside of the program: a source of bytes, a store of files, a sink of text.
//!
//! Each of the three is a trait with one call. A call that fails raises the value's count of faults, and a
//! call that succeeds leaves it, so whoever knows the counts before and after knows whether something failed
//! in between. A count that has come to 2^64 - 1 stands still. What a source has left, what a store holds and how many
//! puts it was asked for, and what a sink was given is told by the implementations in memory, and by none of the real ones.
//!
//! Those in memory ([`MemSource`], [`MemStore`], [`MemSink`]) are given the numbers of the calls that are to
//! fail. A call that fails, for its number or for want of memory, leaves what is held as it was.
//!
//! The real ones turn each error of the system into a fault. [`FileSource`] opens its path at its first read.
//! [`FolderStore`] writes a file under a name that isn't taken and renames it, so that nothing half-written
//! ever stands under the file's own name. What such a put answers follows from what the system's calls answered
//! (`PutsWell` and `PutsInVain` of `specs/OfSystem.antt`): it goes over a folder with four calls, each of which is one of
//! the system's. For [`StandardOutput`] a write that takes nothing is a fault.
//!
//! [`read_all`] reads a source to its end, and takes at most one byte more than its limit to know that there
//! is more. [`write_all`] writes a piece whole; where a write fails, a prefix of the piece is there.
//!
//! ```text
//! write_all(out, "usage 0 1\n")        out took          faults
//!   write("usage 0 1\n") = Ok(6)       "usage "          0
//!   write("0 1\n")       = Ok(1)       "usage 0"         0
//!   write(" 1\n")        = Failed      "usage 0 "        1        (a prefix of the piece, empty or not)
//! ```
#![tactic(auto)]

mod memory;
mod sink;
mod source;
mod store;
mod system;
mod whole;

pub use memory::{Calls, Files, MemSink, MemSource, MemStore};
pub use sink::Sink;
pub use source::{Failed, Source};
pub use store::Store;
pub use system::{FileSource, FolderStore, StandardOutput};
pub use whole::{ReadError, read_all, write_all};
