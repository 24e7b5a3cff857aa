//! What seats know. None of it exists when the program runs.
use std::collections::LinkedList;

/// What a seat knows: whether it holds the slot of a cell, and then of which cell, and the word there. The rest is the pass's:
/// its name, how many passes were split off, how many bodies it holds; how many exchanges it made, at which cell the last one,
/// and what that offered and found; and the same of the words that it stored. No value of it is made.
pub(crate) struct View {
    pub(crate) holds: bool,
    pub(crate) cell: u64,
    pub(crate) word: u64,
    pub(crate) name: LinkedList<u64>,
    pub(crate) forks: u64,
    pub(crate) held: u64,
    pub(crate) exchanges: u64,
    pub(crate) exchanged_at: u64,
    pub(crate) offered: u64,
    pub(crate) found: u64,
    pub(crate) stores: u64,
    pub(crate) stored_at: u64,
    pub(crate) stored: u64,
}
