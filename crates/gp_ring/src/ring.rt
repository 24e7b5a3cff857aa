ghost use Rattle.std.specs.Prelude.{◌≡◌, ◌+◌, ◌-◌, ◌*◌, ◌/◌, ◌%◌, ◌<◌, ◌≤◌, ◌^◌, ◌==◌, [], ◌∷◌, ◌++◌};
ghost use Rattle.std.specs.Prelude.{length, max, replicate, IfOk, IsSome, true, false};
ghost use Rattle.std.specs.Int.{IsNextPowerOfTwo};
ghost use Rattle.gp_layout.specs.Spelling.{loss_size, size_of, spelled};
ghost use Rattle.gp_layout.specs.Place.{raise_of};
ghost use Rattle.gp_layout.specs.Words.{counts_word};
ghost use Rattle.gp_ring.specs.PlainRing.{empty_ring, emitted, written, wrote, closed, looked, acted, records_taken};
ghost use Rattle.gp_ring.specs.PlainRing.{with_nothing, without_loss, loss_piece, has_more};
ghost use Rattle.gp_ring.specs.Follows.{IsOfferable};
ghost use Rattle.gp_ring.specs.Offered.{offer_of, GoesOn, NumbersFit};
ghost use Rattle.gp_ring.specs.Shown.{Shows, RestsAt};
ghost use Rattle.std.specs.Borrow.{sem};

use crate::emit::emit_record;
use crate::gather::{gather, gather_tags};
use crate::hand::{Hand, Look};
use crate::taken::Taken;
use crate::wrote::Wrote;
use gp_isa::Memory;
use gp_layout::{bump, count_of, room_one, room_two, tags_of, taken, words_of};
use std::alloc::Global;
use std::marker::Model;

/// The ring of samples on one thread.
#[derive(Debug, Drop)]
pub struct Ring {
    hdrsize: u32,
    // the header of the record of a loss
    zeros: Vec<u64>,
    slots: Vec<u64>,
    tags: Vec<u64>,
    r: u64,
    w: u64,
    overflow: u64,
    overflow_time: u64,
    ended: bool,
    seen: Option<Look>,
    hand: Hand,
    // where a batch is put together that goes over the end of the ring
    batch: Vec<u64>,
    batch_tags: Vec<u64>,
}

impl Model for Ring {
    ghost use Rattle.gp_ring.specs.PlainRing.{PlainRing};
    ghost use Rattle.gp_ring.specs.kept.Fields.{ring_of, found_of, IsKept};

    ghost Value = { PlainRing };

    ghost view = { λ x. ring_of x.hdrsize x.slots.items x.tags.items x.r x.w x.overflow x.overflow_time x.ended x.seen
        (found_of x.slots.items x.batch.items x.tags.items x.batch_tags.items x.hand) };

    ghost invariant = { λ x. IsKept x.hdrsize x.slots.items x.tags.items x.batch.items x.batch_tags.items x.zeros.items
        x.r x.w x.overflow x.seen x.hand };
}

impl Ring {
    /// An empty ring of records with `hdrsize` header words. `words` and `tags` are rounded up to powers of two; a ring
    /// has words for the record of a loss at least. All memory that the ring ever needs is taken here.
    pub fn new(alloc: Global, hdrsize: u32, words: u32, tags: u32) -> Result<Ring, Memory>
        requires header_least { 1 ≤ hdrsize }
        requires header_most { hdrsize ≤ 64 }
        requires words { words < 2 ^ 28 }
        requires tags_least { 1 ≤ tags }
        requires tags_most { tags < 2 ^ 28 }
        ensures empty { IfOk result (λ ring. ring ≡ empty_ring hdrsize ring.len ring.tags) }
        ensures words { IfOk result (λ ring. IsNextPowerOfTwo (max words (loss_size hdrsize)) ring.len) }
        ensures tags { IfOk result (λ ring. IsNextPowerOfTwo tags ring.tags) }
    {
        let len = words.max(3 + hdrsize).next_power_of_two() as usize;
        let tag_len = tags.next_power_of_two() as usize;
        let zeros = vec![in alloc; 0; hdrsize as usize]?;
        let slots = vec![in alloc; 0; len]?;
        let tags = vec![in alloc; 0; tag_len]?;
        let batch = vec![in alloc; 0; len]?;
        let batch_tags = vec![in alloc; 0; tag_len]?;
        Ok(Ring {
            hdrsize,
            zeros,
            slots,
            tags,
            r: 0,
            w: 0,
            overflow: 0,
            overflow_time: 0,
            ended: false,
            seen: None,
            hand: Hand::Nothing,
            batch,
            batch_tags,
        })
    }

    /// How many header words a record has.
    pub fn hdrsize(&self) -> u32
        ensures { result ≡ self.now.hdrsize }
    {
        self.hdrsize
    }

    /// How many data words the ring has.
    pub fn len(&self) -> u32
        ensures { result ≡ self.now.len }
    {
        self.slots.len() as u32
    }

    /// Whether the end is marked.
    pub fn is_closed(&self) -> bool
        ensures { result ≡ self.now.ended }
    {
        self.ended
    }

    /// The word `r`: the data count and the tag count of what was taken.
    pub fn read_word(&self) -> u64
        ensures { result ≡ counts_word self.now.read_words self.now.read_tags }
    {
        self.r
    }

    /// The word `w`: the data count and the tag count of what was written.
    pub fn written_word(&self) -> u64
        ensures { result ≡ counts_word self.now.written_words self.now.written_tags }
    {
        self.w
    }

    /// Whether there is something to take: an unread record, or a pending loss.
    pub fn has_more(&self) -> bool
        ensures { result ≡ has_more self.now }
    {
        tags_of(self.r) < tags_of(self.w) || count_of(self.overflow) > 0
    }

    // Emits a record.
    fn emit(&mut self, tag: u64, time: u64, header: &[u64], stack: &[u64])
        requires header_size { length header.now ≡ self.old.hdrsize }
        requires fits { size_of (length header.now) (length stack.now) ≤ self.old.len }
        requires words { self.old.written_words + 2 * size_of (length header.now) (length stack.now) < 2 ^ 32 }
        requires tags { self.old.written_tags + 1 < 2 ^ 30 }
        requires free { self.old.written_tags < self.old.read_tags + self.old.tags }
        requires room { self.old.written_words
            + raise_of (self.old.written_words % self.old.len) self.old.len (size_of (length header.now) (length stack.now))
            ≤ self.old.read_words + self.old.len }
        ensures { self.new ≡ with_nothing (emitted self.old (record { tag = tag; words = spelled time header.now stack.now })) }
    {
        self.hand = Hand::Nothing;
        self.w = emit_record(
            &mut self.slots,
            &mut self.tags,
            self.w,
            tag,
            time,
            header,
            stack,
        );
    }

    // Emits the record of the pending loss, which is taken.
    fn flush(&mut self)
        requires fits { loss_size self.old.hdrsize ≤ self.old.len }
        requires words { self.old.written_words + 2 * loss_size self.old.hdrsize < 2 ^ 32 }
        requires tags { self.old.written_tags + 1 < 2 ^ 30 }
        requires change { self.old.change + 2 < 2 ^ 32 }
        requires free { self.old.written_tags < self.old.read_tags + self.old.tags }
        requires room { self.old.written_words
            + raise_of (self.old.written_words % self.old.len) self.old.len (loss_size self.old.hdrsize)
            ≤ self.old.read_words + self.old.len }
        ensures { self.new ≡ with_nothing (emitted (without_loss self.old) (loss_piece self.old)) }
    {
        let count = [count_of(self.overflow) as u64];
        self.overflow = taken(self.overflow);
        self.hand = Hand::Nothing;
        self.w = emit_record(
            &mut self.slots,
            &mut self.tags,
            self.w,
            0,
            self.overflow_time,
            &self.zeros,
            &count,
        );
    }

    // A write where no loss is pending.
    fn write_next(&mut self, tag: u64, now: u64, header: &[u64], stack: &[u64]) -> Wrote
        requires fit { NumbersFit self.old (offer_of tag now header.now stack.now) }
        requires none { (self.old.pending == 0) ≡ true }
        ensures answer { result ≡ wrote self.old (offer_of tag now header.now stack.now) }
        ensures after { self.new ≡ written self.old (offer_of tag now header.now stack.now) }
    {
        let need = (2 + self.hdrsize as usize + stack.len()) as u32;
        let (len, tags) = (self.slots.len() as u32, self.tags.len() as u32);
        if room_one(self.r, self.w, len, tags, need) {
            self.emit(tag, now, header, stack);
            return Wrote::Kept { flushed: 0 };
        }
        let overflow = self.overflow;
        self.overflow_time = now;
        self.overflow = bump(taken(overflow));
        self.hand = Hand::Nothing;
        Wrote::Lost {
            r: self.r,
            overflow,
        }
    }

    // A write where a loss is pending.
    fn write_behind(&mut self, tag: u64, now: u64, header: &[u64], stack: &[u64]) -> Wrote
        requires fit { NumbersFit self.old (offer_of tag now header.now stack.now) }
        requires some { (self.old.pending == 0) ≡ false }
        ensures answer { result ≡ wrote self.old (offer_of tag now header.now stack.now) }
        ensures after { self.new ≡ written self.old (offer_of tag now header.now stack.now) }
    {
        let need = (2 + self.hdrsize as usize + stack.len()) as u32;
        let (len, tags) = (self.slots.len() as u32, self.tags.len() as u32);
        let overflow = self.overflow;
        if room_two(self.r, self.w, len, tags, self.hdrsize, need) {
            self.flush();
            self.emit(tag, now, header, stack);
            return Wrote::Kept {
                flushed: count_of(overflow) as u64,
            };
        }
        self.overflow = bump(overflow);
        self.hand = Hand::Nothing;
        Wrote::Lost {
            r: self.r,
            overflow,
        }
    }

    /// Offers a sample, with its tag, at a time.
    ///
    /// Where no loss is pending its record is written if there is room for it. Where one is, the record of the loss is
    /// written first, if there is room for both. Else the offer is lost and counted.
    pub fn write(&mut self, tag: u64, now: u64, header: &[u64], stack: &[u64]) -> Wrote
        requires { IsOfferable self.old (offer_of tag now header.now stack.now) }
        ensures answer { result ≡ wrote self.old (offer_of tag now header.now stack.now) }
        ensures after { self.new ≡ written self.old (offer_of tag now header.now stack.now) }
        ensures follows { GoesOn self.old self.new (offer_of tag now header.now stack.now ∷ []) [] }
    {
        if count_of(self.overflow) == 0 {
            self.write_next(tag, now, header, stack)
        } else {
            self.write_behind(tag, now, header, stack)
        }
    }

    /// Marks the end: no write may come after it.
    pub fn close(&mut self)
        ensures after { self.new ≡ closed self.old }
        ensures follows { GoesOn self.old self.new [] [] }
    {
        self.ended = true;
        self.hand = Hand::Nothing;
    }

    /// Looks at the end mark, the overflow word and `w`, for the act that comes next.
    pub fn look(&mut self)
        ensures after { self.new ≡ looked self.old }
        ensures follows { GoesOn self.old self.new [] [] }
    {
        self.seen = Some(Look {
            ended: self.ended,
            overflow: self.overflow,
            w: self.w,
        });
        self.hand = Hand::Nothing;
    }

    // Acts on what was seen, and has in hand what it found.
    fn advance(&mut self)
        requires { IsSome self.old.seen }
        ensures { self.new ≡ acted self.old }
    {
        let look = match self.seen {
            Some(look) => look,
            None => return,
        };
        self.seen = None;
        let records = tags_of(look.w) - tags_of(self.r);
        if records > 0 {
            let (from, to) = (words_of(self.r), words_of(look.w));
            let words = gather(
                &self.slots,
                &mut self.batch,
                records,
                self.hdrsize,
                from,
                to,
            );
            let tags = gather_tags(&self.tags, &mut self.batch_tags, tags_of(self.r), records);
            self.r = look.w;
            self.hand = Hand::Batch { words, tags };
        } else if count_of(look.overflow) == 0 {
            self.hand = if look.ended { Hand::End } else { Hand::Nothing };
        } else if self.overflow == look.overflow {
            self.hand = Hand::Lost {
                count: count_of(look.overflow) as u64,
                time: self.overflow_time,
            };
            self.overflow = taken(look.overflow);
        } else {
            self.hand = Hand::Raced {
                was: look.overflow,
                found: self.overflow,
            };
        }
    }

    // What the last act found.
    fn shown(&self) -> Taken<'_>
        ensures { Shows self.now.hand result }
    {
        match self.hand {
            Hand::Batch { words, tags } => Taken::Batch {
                words: words.of(&self.slots, &self.batch),
                tags: tags.of(&self.tags, &self.batch_tags),
            },
            Hand::Lost { count, time } => Taken::Lost { count, time },
            Hand::Raced { was, found } => Taken::Raced { was, found },
            Hand::Nothing => Taken::Nothing,
            Hand::End => Taken::End,
        }
    }

    /// Acts on what the last look saw. A batch is handed out where it lies, and copied only where it goes over the end.
    pub fn act(&mut self) -> Taken<'_>
        requires { IsSome self.old.seen }
        ensures answer { Shows (acted self.old).hand result }
        ensures* after { sem 𝓛 (RestsAt self.entry (acted self.old)) }
        ensures follows { GoesOn self.old (acted self.old) [] (records_taken self.old) }
    {
        self.advance();
        self.shown()
    }

    /// A look and an act.
    pub fn read(&mut self) -> Taken<'_>
        ensures answer { Shows (acted (looked self.old)).hand result }
        ensures* after { sem 𝓛 (RestsAt self.entry (acted (looked self.old))) }
        ensures follows { GoesOn self.old (acted (looked self.old)) [] (records_taken (looked self.old)) }
    {
        self.look();
        self.advance();
        self.shown()
    }
}
