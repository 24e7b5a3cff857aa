//! The ring between two threads, one writer and one reader, without a lock. After Go's `runtime/profbuf.go`.
//!
//! **What is promised.** Whatever the two threads do and in whatever order their steps come: once the reader found the end and
//! `Reader::settle` took in the closed writer, the records that it took cover all offers in order, each delivered as it was made or
//! counted in one loss, and they begin with the head of the offers. A write keeps its record exactly where by the words that it
//! loads there is room; an act takes what was looked at, and says exactly what it found. No call waits.
//!
//! **The shared words** are words of one `atomic_table`: `r`, `w`, overflow, its time, the end mark, the data words, the tags, with
//! the bits of `gp_layout`. Counts only grow; the word of data count c lies at place c modulo the number of data words. The words
//! between `r` and `w` are the reader's, the others the writer's. Only the counts in `r` and `w` are read, so that flags may be
//! added. Overflow alone is stored by both: the writer counts in it, and whoever takes its loss exchanges it for the next change
//! number with the count 0.
//!
//! **The steps.** Each kind of step is a function of its own (`steps.rt`), whose contract says what it makes of its seat's view. A
//! seat has no bytes and can't be copied; its view, which exists in proofs alone, is what the thread knows, and changes only at a
//! step.
//!
//! | step | who | what the view gains |
//! |---|---|---|
//! | load `r` | writer | the `r` that was found; the present one is no less |
//! | store a data word, store a tag | writer | the word with its count, behind those before, less than a round ahead of that `r` |
//! | store `w` | writer | a record more is written, an offer's or that of the loss that the writer took |
//! | load overflow | writer | the word that was found; as long as its count is 0 it is the present one |
//! | store the overflow time | writer | the time; no loss is pending |
//! | store overflow | writer | an offer is lost, the first one; there was no room for it |
//! | the writer's exchange | writer | the loss is its own, to be written; or it counts one offer more; or the reader had taken it |
//! | store the end mark | writer | nothing comes any more |
//! | load the end mark | reader | whether anything can come |
//! | load overflow | reader | the word that was found; the present one is no earlier, by change number and count |
//! | load `w` | reader | the records ahead, and that all their words and tags are due |
//! | load a data word, load a tag | reader | the word that was due next, which is what the record has there |
//! | store `r` | reader | the records ahead are taken; nothing of them is due any more |
//! | load the overflow time | reader | the time that was found |
//! | the reader's exchange | reader | the loss that was looked at is taken; or overflow is another word by now |
//! | split, join | `new`, `settle` | the writer's part goes to a seat of its own, and comes back |
//!
//! **The rule** (`specs/kept/RingRule.antt`) is what holds between any two steps of either thread. There is a *course*
//! (`specs/Course.antt`), plain lists and numbers: the offers that are decided, the records taken, the unread ones, the pending loss,
//! and the loss that the writer took and has yet to write. Together these records cover the offers and begin with their head; each
//! step does one thing to the course that keeps it so. The words show the course, and both views know of it what the steps before
//! told them. Two facts carry the rest. While overflow is, with a loss, as the reader looked at it, nothing was stored behind the
//! `w` that it loaded after that, and the time stands too: the writer stores those only while it knows of no loss. And behind an end
//! mark that was found nothing changes but by the reader itself.
//!
//! **A worked picture**: two ends of a ring of four tags that is full, and a race for the loss.
//!
//! ```text
//!    writer                                reader                    overflow        records taken
//!    offer 5: no room, stores overflow                               change 1, 1     none
//!                                          reads a batch             change 1, 1     1, 2, 3, 4
//!                                          looks: a loss, no record  change 1, 1
//!    offer 6: room for both, exchanges                               change 2, 0     (the loss of 5 and 6 lie in the ring)
//!                                          acts: Raced               change 2, 0
//!                                          reads a batch             change 2, 0     1, 2, 3, 4, one lost, 6
//! ```
ghost use Rattle.std.specs.Prelude.{◌≡◌, ◌<◌, ◌≤◌, ◌^◌, IfOk, max};
ghost use Rattle.std.specs.Int.{IsNextPowerOfTwo};
ghost use Rattle.gp_layout.specs.Spelling.{loss_size};
ghost use Rattle.gp_ring.specs.TwoEnds.{first_writer, first_reader};

mod closed;
mod copying;
mod emission;
mod held;
mod reader;
mod steps;
mod taking;
mod view;
mod writer;
mod writing;

pub use closed::Closed;
use gp_isa::Memory;
use held::{Held, Sight};
pub use reader::Reader;
use std::alloc::Global;
use std::sync::Arc;
use steps::{Sides, Sizes};
use writer::RingTable;
pub use writer::Writer;
use writing::Pen;

/// The two ends of an empty ring of records with `hdrsize` header words, for two threads. `words` and `tags` are rounded up to
/// powers of two; a ring has words for the record of a loss at least. All memory that the ring ever needs is taken here.
pub fn new(alloc: Global, hdrsize: u32, words: u32, tags: u32) -> Result<(Writer, Reader), Memory>
    requires header_least { 1 ≤ hdrsize }
    requires header_most { hdrsize ≤ 64 }
    requires words { words < 2 ^ 28 }
    requires tags_least { 1 ≤ tags }
    requires tags_most { tags < 2 ^ 28 }
    ensures writer { IfOk result (λ ends. ends.0 ≡ first_writer ends.0.ring) }
    ensures reader { IfOk result (λ ends. ends.1 ≡ first_reader ends.0.ring) }
    ensures header { IfOk result (λ ends. ends.0.ring.hdrsize ≡ hdrsize) }
    ensures words { IfOk result (λ ends. IsNextPowerOfTwo (max words (loss_size hdrsize)) ends.0.ring.len) }
    ensures tags { IfOk result (λ ends. IsNextPowerOfTwo tags ends.0.ring.tags) }
{
    let sizes = Sizes {
        hdrsize,
        len: words.max(3 + hdrsize).next_power_of_two(),
        tags: tags.next_power_of_two(),
    };
    let shared = vec![in alloc; 0; 5 + (sizes.len as usize + sizes.tags as usize)]?;
    let zeros = vec![in alloc; 0; hdrsize as usize]?;
    let words = Vec::with_capacity(alloc, sizes.len as usize)?;
    let tag_words = Vec::with_capacity(alloc, sizes.tags as usize)?;
    let (table, mut seat) = RingTable::of_words(alloc, shared.as_slice(), &sizes)?;
    let table = Arc::new(alloc, table)?;
    let theirs = Arc::try_clone(&table)?;
    let writer_seat = table.shared.split_seat::<Sides>(&mut seat);
    let writer = Writer {
        table: theirs,
        seat: writer_seat,
        sizes,
        pen: Pen { w: 0, since: 0 },
        zeros,
    };
    let reader = Reader {
        table,
        seat,
        sizes,
        r: 0,
        looked: false,
        sight: Sight {
            end: 0,
            overflow: 0,
            w: 0,
        },
        held: Held::Nothing,
        words,
        tag_words,
    };
    Ok((writer, reader))
}
