ghost use Rattle.std.specs.Prelude.{◌≡◌, true};
ghost use Rattle.std.specs.Borrow.{sem};
ghost use Rattle.gp_layout.specs.Words as bits;
ghost use Rattle.gp_ring.specs.PlainRing.{End as AtEnd};
ghost use Rattle.gp_ring.specs.Shown.{Shows};
ghost use Rattle.gp_ring.specs.Answered.{EndsSo};
ghost use Rattle.gp_ring.specs.TwoEnds.{Looks, Acts, Reads, Settles};

use crate::between::closed::Closed;
use crate::between::held::{Held, Sight};
use crate::between::steps::{RingSeat, Sides, Sizes, load_end, load_pending, load_written};
use crate::between::taking::act_on;
use crate::between::writer::RingTable;
use crate::taken::Taken;
use std::marker::Model;
use std::sync::Arc;

/// The end of a ring that takes records.
#[derive(Drop)]
pub struct Reader {
    pub(crate) table: Arc<RingTable>,
    pub(crate) seat: RingSeat,
    pub(crate) sizes: Sizes,
    // `r`, which only this end stores
    pub(crate) r: u64,
    // what was looked at, if a look was made since the last act
    pub(crate) looked: bool,
    pub(crate) sight: Sight,
    // the last answer, and where a batch is copied
    pub(crate) held: Held,
    pub(crate) words: Vec<u64>,
    pub(crate) tag_words: Vec<u64>,
}

impl Model for Reader {
    ghost use Rattle.std.specs.Prelude.{◌≡◌, ◌≤◌, true, vec_capacity};
    ghost use Rattle.std.specs.Arc.{arc_value};
    ghost use Rattle.gp_ring.specs.TwoEnds.{ReaderEnd};

    ghost Value = { ReaderEnd };

    ghost use Rattle.gp_ring.specs.kept.Halves.{reader_end, found_of, IsReading, HasSeen, IsOverAt};

    ghost view = { λ x. reader_end (arc_value x.table).shared.table_id x.seat.me.0 x.looked
        (found_of x.words.items x.tag_words.items x.held) };

    ghost invariant = { λ x. IsReading (arc_value x.table).shared.table_id x.seat.table_id x.seat.me x.sizes x.r
        × (x.looked ≡ true → HasSeen x.seat.me.0 x.sight.end x.sight.overflow x.sight.w) × IsOverAt x.seat.me.0 x.held
        × (x.sizes.len ≤ vec_capacity x.words) × (x.sizes.tags ≤ vec_capacity x.tag_words) };
}

impl Reader {
    /// The word `r`: the data count and the tag count of what was taken from the ring.
    pub fn read_word(&self) -> u64
        ensures words { bits.words_of result ≡ self.now.read_words }
        ensures tags { bits.tags_of result ≡ self.now.read_tags }
    {
        self.r
    }

    /// Whether a look was made since the last act.
    pub fn has_looked(&self) -> bool
        ensures { result ≡ self.now.looked }
    {
        self.looked
    }

    /// Looks at the end mark, the overflow word and `w`, in this order, for the act that comes next.
    pub fn look(&mut self)
        ensures { Looks self.old self.new }
    {
        let Reader {
            table,
            seat,
            looked,
            sight,
            ..
        } = self;
        let end = load_end(&table.shared, seat);
        let overflow = load_pending(&table.shared, seat);
        let w = load_written(&table.shared, seat);
        *sight = Sight { end, overflow, w };
        *looked = true;
    }

    // Acts on what was looked at, and holds what it found.
    fn advance(&mut self)
        requires { self.old.looked ≡ true }
        ensures { Acts self.old self.new }
    {
        let Reader {
            table,
            seat,
            sizes,
            r,
            looked,
            sight,
            held,
            words,
            tag_words,
        } = self;
        *held = act_on(&table.shared, seat, *sizes, r, *sight, words, tag_words);
        *looked = false;
    }

    /// What the last act found. Before the first one that is nothing.
    pub fn shown(&self) -> Taken<'_>
        ensures { Shows self.now.hand result }
    {
        match self.held {
            Held::Batch => Taken::Batch {
                words: self.words.as_slice(),
                tags: self.tag_words.as_slice(),
            },
            Held::Lost { count, time } => Taken::Lost { count, time },
            Held::Raced { was, found } => Taken::Raced { was, found },
            Held::Nothing => Taken::Nothing,
            Held::End => Taken::End,
        }
    }

    /// Acts on what the last look saw, whatever the writer did since. It waits for nobody.
    ///
    /// All records up to the `w` that was seen are taken, each word loaded once, into a copy that stays until the next act. Where
    /// there are none, a loss that was seen is taken, unless the overflow word is another by now. Where there was neither, the
    /// writer is at its end if the end mark was seen.
    pub fn act(&mut self) -> Taken<'_>
        requires { self.old.looked ≡ true }
        ensures* after { sem 𝓛 (EndsSo self.entry (λ last. Acts self.old last × Shows last.hand result)) }
    {
        self.advance();
        self.shown()
    }

    /// A look and an act.
    pub fn read(&mut self) -> Taken<'_>
        ensures* after { sem 𝓛 (EndsSo self.entry (λ last. Reads self.old last × Shows last.hand result)) }
    {
        self.look();
        self.advance();
        self.shown()
    }

    /// Takes in the writer, which is of this ring and was closed, once the last answer was the end: afterwards it is known that
    /// the records that were taken cover all offers, and begin with their head.
    pub fn settle(&mut self, closed: Closed)
        requires ring { closed.ring ≡ self.old.ring }
        requires end { self.old.hand ≡ AtEnd }
        ensures { Settles self.old self.new closed }
    {
        let Closed {
            table: _table,
            seat: theirs,
        } = closed;
        let Reader {
            table,
            seat,
            looked,
            sight,
            ..
        } = self;
        table.shared.join_seat::<Sides>(seat, theirs);
        sight.end = load_end(&table.shared, seat);
        *looked = false;
    }
}
