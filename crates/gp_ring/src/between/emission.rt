//! A record is stored: the mark, where words are passed over, its words, its tag, and at last `w`.
ghost use Rattle.std.specs.Prelude.{◌≡◌, ◌+◌, ◌*◌, ◌-◌, ◌%◌, ◌<◌, ◌≤◌, ◌^◌, [], ◌∷◌, length, replicate, true, false};
ghost use Rattle.gp_layout.specs.Place.{raise_of, skip_of, start_of};
ghost use Rattle.gp_layout.specs.Spelling.{size_of, loss_size, spelled};
ghost use Rattle.gp_layout.specs.Words as bits;
ghost use Rattle.gp_ring.specs.Records.{IsOffer};
ghost use Rattle.gp_ring.specs.Counts.{behind_all};
ghost use Rattle.gp_ring.specs.Offered.{offer_of};
ghost use Rattle.gp_ring.specs.kept.Views.{with_words, passed_over, with_draft, with_delivered, owed_of, with_paid};
ghost use Rattle.gp_ring.specs.kept.Slots.{IsRaised};

use crate::between::steps::{
    RingSeat, RingWords, Sizes, store_delivered, store_mark, store_paid, store_tag, store_word,
};
use gp_layout::{Placed, place, raised, tags_of, words_of};
use std::marker::Brand;

// Stores words one behind the other, from place `start` on.
fn store_words(shared: &RingWords, seat: &mut RingSeat, start: u32, words: &[u64])
    requires table { seat.old.table_id ≡ shared.now.table_id }
    requires size { shared.now.table_id.words ≡ 5 + (seat.old.me.0.len + seat.old.me.0.tags) }
    requires writes { seat.old.me.0.writes ≡ true }
    requires quiet { bits.count_of seat.old.me.0.writer.present ≡ 0 }
    requires is_open { seat.old.me.0.writer.closed ≡ false }
    requires len { seat.old.me.0.len ≤ 2 ^ 29 }
    requires place { 0 < length words.now → start ≡ seat.old.me.0.writer.next % seat.old.me.0.len }
    requires within { start + length words.now ≤ seat.old.me.0.len }
    requires free { seat.old.me.0.writer.next + length words.now
        ≤ bits.words_of seat.old.me.0.writer.read + seat.old.me.0.len }
    ensures table { seat.new.table_id ≡ seat.old.table_id }
    ensures view { seat.new.me ≡ (with_words seat.old.me.0 words.now, seat.old.me.1) }
{
    for (i, word) in words.iter().enumerate() {
        store_word(shared, seat, start + i as u32, *word);
    }
}

// Passes over the words up to the end of the ring, where a record is placed behind them.
fn pass_over(shared: &RingWords, seat: &mut RingSeat, at: u32, skip: u32)
    requires table { seat.old.table_id ≡ shared.now.table_id }
    requires size { shared.now.table_id.words ≡ 5 + (seat.old.me.0.len + seat.old.me.0.tags) }
    requires writes { seat.old.me.0.writes ≡ true }
    requires quiet { bits.count_of seat.old.me.0.writer.present ≡ 0 }
    requires is_open { seat.old.me.0.writer.closed ≡ false }
    requires within { at < seat.old.me.0.len }
    requires place { at ≡ seat.old.me.0.writer.next % seat.old.me.0.len }
    requires skip { 0 < skip → skip ≡ seat.old.me.0.len - seat.old.me.0.writer.next % seat.old.me.0.len }
    requires free { seat.old.me.0.writer.next + skip ≤ bits.words_of seat.old.me.0.writer.read + seat.old.me.0.len }
    ensures table { seat.new.table_id ≡ seat.old.table_id }
    ensures view { seat.new.me ≡ (passed_over seat.old.me.0 skip, seat.old.me.1) }
{
    if skip > 0 {
        store_mark(shared, seat, at);
    }
}

// Stores the words of a record, from place `start` on.
fn store_record(
    shared: &RingWords,
    seat: &mut RingSeat,
    start: u32,
    time: u64,
    header: &[u64],
    stack: &[u64],
)
    requires table { seat.old.table_id ≡ shared.now.table_id }
    requires size { shared.now.table_id.words ≡ 5 + (seat.old.me.0.len + seat.old.me.0.tags) }
    requires writes { seat.old.me.0.writes ≡ true }
    requires quiet { bits.count_of seat.old.me.0.writer.present ≡ 0 }
    requires is_open { seat.old.me.0.writer.closed ≡ false }
    requires len { seat.old.me.0.len ≤ 2 ^ 29 }
    requires place { start ≡ seat.old.me.0.writer.next % seat.old.me.0.len }
    requires within { start + size_of (length header.now) (length stack.now) ≤ seat.old.me.0.len }
    requires free { seat.old.me.0.writer.next + size_of (length header.now) (length stack.now)
        ≤ bits.words_of seat.old.me.0.writer.read + seat.old.me.0.len }
    ensures table { seat.new.table_id ≡ seat.old.table_id }
    ensures view { seat.new.me ≡ (with_words seat.old.me.0 (spelled time header.now stack.now), seat.old.me.1) }
{
    let size = (2 + header.len() + stack.len()) as u64;
    let behind_time = start + 2;
    let behind_header = behind_time + header.len() as u32;
    store_words(shared, seat, start, &[size, time]);
    store_words(shared, seat, behind_time, header);
    store_words(shared, seat, behind_header, stack);
}

// Stores all of a record but `w`, behind what `w` shows, and gives the new `w`.
fn draw(
    shared: &RingWords,
    seat: &mut RingSeat,
    sizes: Sizes,
    w: u64,
    tag: u64,
    time: u64,
    header: &[u64],
    stack: &[u64],
) -> u64
    requires table { seat.old.table_id ≡ shared.now.table_id }
    requires size { shared.now.table_id.words ≡ 5 + (seat.old.me.0.len + seat.old.me.0.tags) }
    requires writes { seat.old.me.0.writes ≡ true }
    requires quiet { bits.count_of seat.old.me.0.writer.present ≡ 0 }
    requires is_open { seat.old.me.0.writer.closed ≡ false }
    requires sizes { (sizes.len ≡ seat.old.me.0.len) × (sizes.tags ≡ seat.old.me.0.tags) }
    requires some { (0 < sizes.len) × (0 < sizes.tags) }
    requires most { sizes.len ≤ 2 ^ 29 }
    requires draft { seat.old.me.0.writer.draft ≡ [] }
    requires tag_draft { seat.old.me.0.writer.tag_draft ≡ [] }
    requires next { seat.old.me.0.writer.next ≡ behind_all seat.old.me.0.len 0 seat.old.me.0.writer.records }
    requires next_tag { seat.old.me.0.writer.next_tag ≡ length seat.old.me.0.writer.records }
    requires words { bits.words_of w ≡ seat.old.me.0.writer.next }
    requires tags { bits.tags_of w ≡ seat.old.me.0.writer.next_tag }
    requires fits { size_of (length header.now) (length stack.now) ≤ sizes.len }
    requires few_words { bits.words_of w + 2 * size_of (length header.now) (length stack.now) < 2 ^ 32 }
    requires few_tags { bits.tags_of w + 1 < 2 ^ 30 }
    requires free { seat.old.me.0.writer.next
        + raise_of (seat.old.me.0.writer.next % sizes.len) sizes.len (size_of (length header.now) (length stack.now))
        ≤ bits.words_of seat.old.me.0.writer.read + sizes.len }
    requires free_tag { seat.old.me.0.writer.next_tag < bits.tags_of seat.old.me.0.writer.read + sizes.tags }
    ensures table { seat.new.table_id ≡ seat.old.table_id }
    ensures view { seat.new.me ≡ (with_draft seat.old.me.0 (offer_of tag time header.now stack.now), seat.old.me.1) }
    ensures w { IsRaised w result sizes.len (size_of (length header.now) (length stack.now)) }
{
    let need = (2 + header.len() + stack.len()) as u32;
    let at = words_of(w) % sizes.len;
    let Placed { skip, start } = place(at, sizes.len, need);
    pass_over(shared, seat, at, skip);
    store_record(shared, seat, start, time, header, stack);
    store_tag(shared, seat, sizes.len, tags_of(w) % sizes.tags, tag);
    raised(w, skip + need, 1)
}

/// Emits the record of an offer behind what `w` shows, and gives the new `w`.
pub(crate) fn emit_offer(
    shared: &RingWords,
    seat: &mut RingSeat,
    sizes: Sizes,
    w: u64,
    tag: u64,
    time: u64,
    header: &[u64],
    stack: &[u64],
) -> u64
    requires table { seat.old.table_id ≡ shared.now.table_id }
    requires size { shared.now.table_id.words ≡ 5 + (seat.old.me.0.len + seat.old.me.0.tags) }
    requires writes { seat.old.me.0.writes ≡ true }
    requires quiet { bits.count_of seat.old.me.0.writer.present ≡ 0 }
    requires is_open { seat.old.me.0.writer.closed ≡ false }
    requires sizes { (sizes.len ≡ seat.old.me.0.len) × (sizes.tags ≡ seat.old.me.0.tags) }
    requires some { (0 < sizes.len) × (0 < sizes.tags) }
    requires most { sizes.len ≤ 2 ^ 29 }
    requires draft { seat.old.me.0.writer.draft ≡ [] }
    requires tag_draft { seat.old.me.0.writer.tag_draft ≡ [] }
    requires next { seat.old.me.0.writer.next ≡ behind_all seat.old.me.0.len 0 seat.old.me.0.writer.records }
    requires next_tag { seat.old.me.0.writer.next_tag ≡ length seat.old.me.0.writer.records }
    requires words { bits.words_of w ≡ seat.old.me.0.writer.next }
    requires tags { bits.tags_of w ≡ seat.old.me.0.writer.next_tag }
    requires none_owed { seat.old.me.0.writer.owed ≡ 0 }
    requires offer { IsOffer seat.old.me.0.hdrsize seat.old.me.0.len (offer_of tag time header.now stack.now) }
    requires few { length seat.old.me.0.writer.offers < 2 ^ 30 }
    requires fits { size_of (length header.now) (length stack.now) ≤ sizes.len }
    requires few_words { bits.words_of w + 2 * size_of (length header.now) (length stack.now) < 2 ^ 32 }
    requires few_tags { bits.tags_of w + 1 < 2 ^ 30 }
    requires free { seat.old.me.0.writer.next
        + raise_of (seat.old.me.0.writer.next % sizes.len) sizes.len (size_of (length header.now) (length stack.now))
        ≤ bits.words_of seat.old.me.0.writer.read + sizes.len }
    requires free_tag { seat.old.me.0.writer.next_tag < bits.tags_of seat.old.me.0.writer.read + sizes.tags }
    ensures table { seat.new.table_id ≡ seat.old.table_id }
    ensures view { seat.new.me ≡ (
      with_delivered (with_draft seat.old.me.0 (offer_of tag time header.now stack.now)) (offer_of tag time header.now stack.now),
      seat.old.me.1,
    ) }
    ensures w { IsRaised w result sizes.len (size_of (length header.now) (length stack.now)) }
{
    let next = draw(shared, seat, sizes, w, tag, time, header, stack);
    store_delivered::<Brand>(shared, seat, next, tag, time, header, stack);
    next
}

/// Emits the record of the loss that the writer took, and gives the new `w`.
pub(crate) fn emit_loss(
    shared: &RingWords,
    seat: &mut RingSeat,
    sizes: Sizes,
    w: u64,
    time: u64,
    zeros: &[u64],
    count: u64,
) -> u64
    requires table { seat.old.table_id ≡ shared.now.table_id }
    requires size { shared.now.table_id.words ≡ 5 + (seat.old.me.0.len + seat.old.me.0.tags) }
    requires writes { seat.old.me.0.writes ≡ true }
    requires quiet { bits.count_of seat.old.me.0.writer.present ≡ 0 }
    requires is_open { seat.old.me.0.writer.closed ≡ false }
    requires sizes { (sizes.len ≡ seat.old.me.0.len) × (sizes.tags ≡ seat.old.me.0.tags) }
    requires some { (0 < sizes.len) × (0 < sizes.tags) }
    requires most { sizes.len ≤ 2 ^ 29 }
    requires draft { seat.old.me.0.writer.draft ≡ [] }
    requires tag_draft { seat.old.me.0.writer.tag_draft ≡ [] }
    requires next { seat.old.me.0.writer.next ≡ behind_all seat.old.me.0.len 0 seat.old.me.0.writer.records }
    requires next_tag { seat.old.me.0.writer.next_tag ≡ length seat.old.me.0.writer.records }
    requires words { bits.words_of w ≡ seat.old.me.0.writer.next }
    requires tags { bits.tags_of w ≡ seat.old.me.0.writer.next_tag }
    requires zeros { zeros.now ≡ replicate seat.old.me.0.hdrsize 0 }
    requires count { seat.old.me.0.writer.owed ≡ count }
    requires time { seat.old.me.0.writer.since ≡ time }
    requires some_owed { 0 < count }
    requires fits { loss_size seat.old.me.0.hdrsize ≤ sizes.len }
    requires few_words { bits.words_of w + 2 * loss_size seat.old.me.0.hdrsize < 2 ^ 32 }
    requires few_tags { bits.tags_of w + 1 < 2 ^ 30 }
    requires free { seat.old.me.0.writer.next
        + raise_of (seat.old.me.0.writer.next % sizes.len) sizes.len (loss_size seat.old.me.0.hdrsize)
        ≤ bits.words_of seat.old.me.0.writer.read + sizes.len }
    requires free_tag { seat.old.me.0.writer.next_tag < bits.tags_of seat.old.me.0.writer.read + sizes.tags }
    ensures table { seat.new.table_id ≡ seat.old.table_id }
    ensures view { seat.new.me ≡ (with_paid (with_draft seat.old.me.0 (owed_of seat.old.me.0)), seat.old.me.1) }
    ensures w { IsRaised w result sizes.len (loss_size seat.old.me.0.hdrsize) }
{
    let next = draw(shared, seat, sizes, w, 0, time, zeros, &[count]);
    store_paid(shared, seat, next);
    next
}
