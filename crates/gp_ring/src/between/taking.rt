//! What was looked at is acted on.
ghost use Rattle.std.specs.Prelude.{◌≡◌, ℕ, ◌<◌, ◌≤◌, List, [], map, vec_capacity, true, false};
ghost use Rattle.std.specs.List.{flat_map};
ghost use Rattle.gp_layout.specs.Words as bits;
ghost use Rattle.gp_ring.specs.PlainRing.{Found, piece_for};
ghost use Rattle.gp_ring.specs.TwoEnds.{Acts};
ghost use Rattle.gp_ring.specs.kept.Views.{with_due, with_due_tags, with_batch};
ghost use Rattle.gp_ring.specs.kept.Halves.{reader_end, found_of, IsReading, HasSeen, IsOverAt};

use crate::between::copying::{load_records, load_tags};
use crate::between::held::{Held, Sight};
use crate::between::steps::{RingSeat, RingWords, Sizes, exchange_loss, load_since, store_read};
use gp_layout::{count_of, raised, tags_of, taken, words_of};

// Takes all records before the `w` that was looked at, into the copy, and gives the new `r`.
fn take_batch(
    shared: &RingWords,
    seat: &mut RingSeat,
    sizes: Sizes,
    r: u64,
    w: u64,
    words: &mut Vec<u64>,
    tag_words: &mut Vec<u64>,
) -> u64
    requires reading { IsReading shared.now.table_id seat.old.table_id seat.old.me sizes r }
    requires seen { HasSeen seat.old.me.0 seat.old.me.0.reader.end seat.old.me.0.reader.overflow w }
    requires some { bits.tags_of r < bits.tags_of w }
    requires room { sizes.len ≤ vec_capacity words.old }
    requires tag_room { sizes.tags ≤ vec_capacity tag_words.old }
    ensures table { seat.new.table_id ≡ seat.old.table_id }
    ensures view { seat.new.me ≡ (with_batch (with_due_tags (with_due seat.old.me.0 []) []), seat.old.me.1) }
    ensures r { (bits.words_of result ≡ bits.words_of w) × (bits.tags_of result ≡ bits.tags_of w) }
    ensures words { words.new.items ≡ flat_map (λ offer. (piece_for offer).words) seat.old.me.0.reader.ahead }
    ensures tag_words { tag_words.new.items ≡ map (λ offer. offer.tag) seat.old.me.0.reader.ahead }
    ensures capacity { vec_capacity words.new ≡ vec_capacity words.old }
    ensures tag_capacity { vec_capacity tag_words.new ≡ vec_capacity tag_words.old }
{
    let (from, records) = (tags_of(r), tags_of(w) - tags_of(r));
    let at = words_of(r) % sizes.len;
    words.clear();
    tag_words.clear();
    load_records(shared, seat, sizes.len, at, records, words);
    load_tags(shared, seat, sizes, from, records, tag_words);
    let next = raised(0, words_of(w), tags_of(w));
    store_read(shared, seat, next);
    next
}

// Takes the loss that was looked at, unless overflow changed since. No record is ahead.
fn take_loss(shared: &RingWords, seat: &mut RingSeat, sizes: Sizes, r: u64, sight: Sight) -> Held
    requires reading { IsReading shared.now.table_id seat.old.table_id seat.old.me sizes r }
    requires seen { HasSeen seat.old.me.0 sight.end sight.overflow sight.w }
    requires none { bits.tags_of sight.w ≤ bits.tags_of r }
    requires pending { 0 < bits.count_of sight.overflow }
    ensures reading { IsReading shared.now.table_id seat.new.table_id seat.new.me sizes r }
    ensures over { IsOverAt seat.new.me.0 result }
    ensures acts { (hand : Found) (words tag_words : List ℕ) → Acts (reader_end shared.now.table_id seat.old.me.0 true hand)
        (reader_end shared.now.table_id seat.new.me.0 false (found_of words tag_words result)) }
{
    let overflow = sight.overflow;
    let time = load_since(shared, seat);
    let found = exchange_loss(shared, seat, overflow, taken(overflow));
    if found != overflow {
        return Held::Raced {
            was: overflow,
            found,
        };
    }
    let count = count_of(overflow) as u64;
    Held::Lost { count, time }
}

// Acts on what was looked at, and says what it found. A batch is copied.
pub(crate) fn act_on(
    shared: &RingWords,
    seat: &mut RingSeat,
    sizes: Sizes,
    r: &mut u64,
    sight: Sight,
    words: &mut Vec<u64>,
    tag_words: &mut Vec<u64>,
) -> Held
    requires reading { IsReading shared.now.table_id seat.old.table_id seat.old.me sizes r.old }
    requires seen { HasSeen seat.old.me.0 sight.end sight.overflow sight.w }
    requires room { sizes.len ≤ vec_capacity words.old }
    requires tag_room { sizes.tags ≤ vec_capacity tag_words.old }
    ensures reading { IsReading shared.now.table_id seat.new.table_id seat.new.me sizes r.new }
    ensures over { IsOverAt seat.new.me.0 result }
    ensures acts { (hand : Found) → Acts (reader_end shared.now.table_id seat.old.me.0 true hand)
        (reader_end shared.now.table_id seat.new.me.0 false (found_of words.new.items tag_words.new.items result)) }
    ensures capacity { vec_capacity words.new ≡ vec_capacity words.old }
    ensures tag_capacity { vec_capacity tag_words.new ≡ vec_capacity tag_words.old }
{
    let (from, to) = (tags_of(*r), tags_of(sight.w));
    if from < to {
        *r = take_batch(shared, seat, sizes, *r, sight.w, words, tag_words);
        return Held::Batch;
    }
    let count = count_of(sight.overflow);
    if count > 0 {
        return take_loss(shared, seat, sizes, *r, sight);
    }
    let end = sight.end;
    if end == 1 {
        return Held::End;
    }
    Held::Nothing
}
