ghost use Rattle.std.specs.Prelude.{◌≡◌, [], ◌∷◌, ◌++◌, length, true};
ghost use Rattle.gp_layout.specs.Words as bits;
ghost use Rattle.gp_ring.specs.Offered.{offer_of};
ghost use Rattle.gp_ring.specs.TwoEnds.{MayWrite, with_found, wrote, written, written_words};

use crate::between::closed::Closed;
use crate::between::steps::{RingRule, RingSeat, Sizes, load_overflow, load_read, store_end};
use crate::between::view::View;
use crate::between::writing::{Loaded, Pen, decide};
use crate::wrote::Wrote;
use atomic_table::Table;
use std::alloc::Global;
use std::marker::Model;
use std::sync::Arc;

/// The shared words with their memory.
pub(crate) type RingTable = Table<(), View, Sizes, RingRule, Global>;

/// The end of a ring that offers samples.
#[derive(Drop)]
pub struct Writer {
    pub(crate) table: Arc<RingTable>,
    pub(crate) seat: RingSeat,
    pub(crate) sizes: Sizes,
    pub(crate) pen: Pen,
    // the header of the record of a loss
    pub(crate) zeros: Vec<u64>,
}

impl Model for Writer {
    ghost use Rattle.std.specs.Arc.{arc_value};
    ghost use Rattle.gp_ring.specs.TwoEnds.{WriterEnd};

    ghost Value = { WriterEnd };

    ghost use Rattle.gp_ring.specs.kept.Halves.{writer_end, IsWriting};

    ghost view = { λ x. writer_end (arc_value x.table).shared.table_id x.seat.me.0 };

    ghost invariant = { λ x. IsWriting (arc_value x.table).shared.table_id x.seat.table_id x.seat.me x.sizes x.pen.w x.pen.since
        x.zeros.items };
}

impl Writer {
    /// How many header words a record has.
    pub fn hdrsize(&self) -> u32
        ensures { result ≡ self.now.ring.hdrsize }
    {
        self.sizes.hdrsize
    }

    /// How many data words the ring has.
    pub fn len(&self) -> u32
        ensures { result ≡ self.now.ring.len }
    {
        self.sizes.len
    }

    /// The word `w`: the data count and the tag count of what was written.
    pub fn written_word(&self) -> u64
        ensures words { bits.words_of result ≡ written_words self.now }
        ensures tags { bits.tags_of result ≡ length self.now.records }
    {
        self.pen.w
    }

    /// Offers a sample, with its tag, at a time. It waits for nobody.
    ///
    /// Where by the overflow word that it loads no loss is pending, its record is written if by the `r` that it loads there is
    /// room for it. Where one is pending, the record of the loss is written first, if there is room for both. Else the offer is
    /// lost and counted.
    pub fn write(&mut self, tag: u64, now: u64, header: &[u64], stack: &[u64]) -> Wrote
        requires { MayWrite self.old (offer_of tag now header.now stack.now) }
        ensures answer { result ≡ wrote (with_found self.old self.new) (offer_of tag now header.now stack.now) }
        ensures after { self.new ≡ written (with_found self.old self.new) (offer_of tag now header.now stack.now) }
        ensures offers { self.new.offers ≡ self.old.offers ++ offer_of tag now header.now stack.now ∷ [] }
        ensures ring { self.new.ring ≡ self.old.ring }
    {
        let Writer {
            table,
            seat,
            sizes,
            pen,
            zeros,
        } = self;
        let overflow = load_overflow(&table.shared, seat);
        let r = load_read(&table.shared, seat);
        let loaded = Loaded { r, overflow };
        decide(
            &table.shared,
            seat,
            *sizes,
            pen,
            zeros.as_slice(),
            loaded,
            tag,
            now,
            header,
            stack,
        )
    }

    /// Marks the end: no offer comes after it.
    pub fn close(self) -> Closed
        ensures ring { result.ring ≡ self.ring }
        ensures offers { result.offers ≡ self.offers }
        ensures marked { result.marked ≡ true }
    {
        let Writer {
            table,
            mut seat,
            ..
        } = self;
        store_end(&table.shared, &mut seat);
        Closed { table, seat }
    }
}
