//! What the two seats of a ring know. None of it exists when the program runs.
ghost use Rattle.std.specs.Prelude.{◌≡◌};

use std::collections::LinkedList;
use std::marker::Model;

/// A record, or what was offered. No value of it is made.
pub(crate) struct Told {
    time: u64,
    tag: u64,
    header: LinkedList<u64>,
    stack: LinkedList<u64>,
}

impl Model for Told {
    ghost use Rattle.gp_ring.specs.Records.{Offer};

    ghost Value = { Offer };

    ghost view = { λ x. record { time = x.time; tag = x.tag; header = x.header; stack = x.stack } };
}

/// What the writer knows: the offers that are decided; the records that it wrote; the words and the tag that it stored behind
/// them, each with its count, and the counts behind those; the overflow time that it stored; the present overflow word, unless the
/// reader took its loss since; how many offers the loss counts that it took itself and has yet to write; whether it stored the end mark.
/// And how often it loaded `r`, loaded overflow and exchanged overflow, and what it found last.
pub(crate) struct WriterView {
    pub(crate) offers: LinkedList<Told>,
    pub(crate) records: LinkedList<Told>,
    pub(crate) draft: LinkedList<(u64, u64)>,
    pub(crate) next: u64,
    pub(crate) tag_draft: LinkedList<(u64, u64)>,
    pub(crate) next_tag: u64,
    pub(crate) since: u64,
    pub(crate) present: u64,
    pub(crate) owed: u64,
    pub(crate) closed: bool,
    pub(crate) loads: u64,
    pub(crate) read: u64,
    pub(crate) overflow_loads: u64,
    pub(crate) overflow: u64,
    pub(crate) exchanges: u64,
    pub(crate) found: u64,
}

/// What the reader knows: the records that it took, all and those that lay in the ring; those that it saw ahead, and which of
/// their words and tags it has yet to load, each with its count. How often it loaded the end mark, overflow, `w` and the overflow
/// time, and exchanged overflow, and what it found last. Whether overflow was loaded behind an end mark; whether `w`, and whether
/// the overflow time was loaded behind that overflow; and whether nothing can come any more.
pub(crate) struct ReaderView {
    pub(crate) taken: LinkedList<Told>,
    pub(crate) pulled: LinkedList<Told>,
    pub(crate) ahead: LinkedList<Told>,
    pub(crate) due: LinkedList<(u64, u64)>,
    pub(crate) due_tags: LinkedList<(u64, u64)>,
    pub(crate) end_loads: u64,
    pub(crate) end: u64,
    pub(crate) overflow_loads: u64,
    pub(crate) overflow: u64,
    pub(crate) is_last: bool,
    pub(crate) loads: u64,
    pub(crate) written: u64,
    pub(crate) has_seen: bool,
    pub(crate) time_loads: u64,
    pub(crate) time: u64,
    pub(crate) is_timed: bool,
    pub(crate) exchanges: u64,
    pub(crate) found: u64,
    pub(crate) is_over: bool,
}

/// What a seat knows of a ring of records with so many header words, of so many data words and tags, as its writer, its reader or
/// both. No value of it is made.
pub(crate) struct View {
    pub(crate) hdrsize: u32,
    pub(crate) len: u32,
    pub(crate) tags: u32,
    pub(crate) writes: bool,
    pub(crate) writer: WriterView,
    pub(crate) reads: bool,
    pub(crate) reader: ReaderView,
}
