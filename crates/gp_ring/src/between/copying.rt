//! A batch is loaded: the words of its records without marks, and its tags.
ghost use Rattle.std.specs.Prelude.{◌≡◌, ◌+◌, ◌-◌, ◌%◌, ◌<◌, ◌≤◌, ◌^◌, [], ◌++◌, length, map, take, drop, true, vec_len, vec_capacity};
ghost use Rattle.std.specs.List.{flat_map};
ghost use Rattle.gp_layout.specs.Words as bits;
ghost use Rattle.gp_ring.specs.PlainRing.{piece_for};
ghost use Rattle.gp_ring.specs.Counts.{behind, behind_all};
ghost use Rattle.gp_ring.specs.kept.Traces.{from_count, skip_before, all_laid, tags_from, words_in, AreDueAt, IsRecordAt};
ghost use Rattle.gp_ring.specs.kept.Views.{with_due, with_due_tags, without_words};

use crate::between::steps::{RingSeat, RingWords, Sizes, load_tag, load_word};

// Loads words that are due one behind the other, from place `start` on.
fn load_words(shared: &RingWords, seat: &mut RingSeat, start: u32, count: u32, to: &mut Vec<u64>)
    requires table { seat.old.table_id ≡ shared.now.table_id }
    requires size { shared.now.table_id.words ≡ 5 + (seat.old.me.0.len + seat.old.me.0.tags) }
    requires reads { seat.old.me.0.reads ≡ true }
    requires len { seat.old.me.0.len ≤ 2 ^ 29 }
    requires within { start + count ≤ seat.old.me.0.len }
    requires due { AreDueAt start seat.old.me.0.len count seat.old.me.0.reader.due }
    requires room { vec_len to.old + count ≤ vec_capacity to.old }
    ensures table { seat.new.table_id ≡ seat.old.table_id }
    ensures view { seat.new.me ≡ (without_words seat.old.me.0 count, seat.old.me.1) }
    ensures words { to.new.items ≡ to.old.items ++ words_in (take count seat.old.me.0.reader.due) }
    ensures capacity { vec_capacity to.new ≡ vec_capacity to.old }
{
    for i in 0..count {
        to.push_reserved(load_word(shared, seat, start + i));
    }
}

// A record that was begun: how many words it has, and where it starts.
#[derive(Clone, Copy, Debug)]
struct Begun {
    size: u32,
    start: u32,
}

// Loads the first word of the record that comes at place `at`, behind the mark, if that is what lies there.
fn begin_record(shared: &RingWords, seat: &mut RingSeat, at: u32) -> Begun
    requires table { seat.old.table_id ≡ shared.now.table_id }
    requires size { shared.now.table_id.words ≡ 5 + (seat.old.me.0.len + seat.old.me.0.tags) }
    requires reads { seat.old.me.0.reads ≡ true }
    requires some { 0 < seat.old.me.0.len }
    requires len { seat.old.me.0.len ≤ 2 ^ 29 }
    requires record_there { IsRecordAt seat.old.me.0.len at seat.old.me.0.reader.due }
    ensures table { seat.new.table_id ≡ seat.old.table_id }
    ensures view { (r : IsRecordAt seat.old.me.0.len at seat.old.me.0.reader.due)
        → seat.new.me ≡ (
          with_due seat.old.me.0 (drop 1 (from_count (r.count + skip_before seat.old.me.0.len r.count r.offer)
              (piece_for r.offer).words ++ r.rest)),
          seat.old.me.1,
        ) }
    ensures size { (r : IsRecordAt seat.old.me.0.len at seat.old.me.0.reader.due) → result.size ≡ length (piece_for r.offer).words }
    ensures start { (r : IsRecordAt seat.old.me.0.len at seat.old.me.0.reader.due)
        → result.start ≡ (r.count + skip_before seat.old.me.0.len r.count r.offer) % seat.old.me.0.len }
    ensures within { result.start + result.size ≤ seat.old.me.0.len }
    ensures some { 0 < result.size }
{
    let first = load_word(shared, seat, at);
    if first != 0 {
        return Begun {
            size: first as u32,
            start: at,
        };
    }
    Begun {
        size: load_word(shared, seat, 0) as u32,
        start: 0,
    }
}

// Loads the words of the record that comes at place `at`, and gives the place behind it.
fn load_record(shared: &RingWords, seat: &mut RingSeat, len: u32, at: u32, to: &mut Vec<u64>) -> u32
    requires table { seat.old.table_id ≡ shared.now.table_id }
    requires size { shared.now.table_id.words ≡ 5 + (seat.old.me.0.len + seat.old.me.0.tags) }
    requires reads { seat.old.me.0.reads ≡ true }
    requires some { 0 < len }
    requires len { len ≡ seat.old.me.0.len }
    requires most { len ≤ 2 ^ 29 }
    requires record_there { IsRecordAt seat.old.me.0.len at seat.old.me.0.reader.due }
    requires room { (r : IsRecordAt seat.old.me.0.len at seat.old.me.0.reader.due)
        → vec_len to.old + length (piece_for r.offer).words ≤ vec_capacity to.old }
    ensures table { seat.new.table_id ≡ seat.old.table_id }
    ensures view { (r : IsRecordAt seat.old.me.0.len at seat.old.me.0.reader.due)
        → seat.new.me ≡ (with_due seat.old.me.0 r.rest, seat.old.me.1) }
    ensures words { (r : IsRecordAt seat.old.me.0.len at seat.old.me.0.reader.due)
        → to.new.items ≡ to.old.items ++ (piece_for r.offer).words }
    ensures capacity { vec_capacity to.new ≡ vec_capacity to.old }
    ensures place { (r : IsRecordAt seat.old.me.0.len at seat.old.me.0.reader.due)
        → result ≡ behind seat.old.me.0.len r.count r.offer % seat.old.me.0.len }
{
    let Begun { size, start } = begin_record(shared, seat, at);
    to.push_reserved(size as u64);
    load_words(shared, seat, start + 1, size - 1, to);
    (start + size) % len
}

// Loads the words of all records that are ahead, the first of which comes at place `at`.
pub(crate) fn load_records(
    shared: &RingWords,
    seat: &mut RingSeat,
    len: u32,
    at: u32,
    records: u32,
    to: &mut Vec<u64>,
)
    requires table { seat.old.table_id ≡ shared.now.table_id }
    requires size { shared.now.table_id.words ≡ 5 + (seat.old.me.0.len + seat.old.me.0.tags) }
    requires reads { seat.old.me.0.reads ≡ true }
    requires some { 0 < len }
    requires len { len ≡ seat.old.me.0.len }
    requires most { len ≤ 2 ^ 29 }
    requires records { records ≡ length seat.old.me.0.reader.ahead }
    requires due { seat.old.me.0.reader.due
        ≡ all_laid seat.old.me.0.len (behind_all seat.old.me.0.len 0 seat.old.me.0.reader.pulled) seat.old.me.0.reader.ahead }
    requires place { at ≡ behind_all seat.old.me.0.len 0 seat.old.me.0.reader.pulled % seat.old.me.0.len }
    requires within { behind_all seat.old.me.0.len (behind_all seat.old.me.0.len 0 seat.old.me.0.reader.pulled) seat.old.me.0.reader.ahead
        ≤ behind_all seat.old.me.0.len 0 seat.old.me.0.reader.pulled + seat.old.me.0.len }
    requires fresh { to.old.items ≡ [] }
    requires room { len ≤ vec_capacity to.old }
    ensures table { seat.new.table_id ≡ seat.old.table_id }
    ensures view { seat.new.me ≡ (with_due seat.old.me.0 [], seat.old.me.1) }
    ensures words { to.new.items ≡ flat_map (λ offer. (piece_for offer).words) seat.old.me.0.reader.ahead }
    ensures capacity { vec_capacity to.new ≡ vec_capacity to.old }
{
    let mut place = at;
    for _ in 0..records {
        place = load_record(shared, seat, len, place, to);
    }
}

// Loads the tags of all records that are ahead, the first of which comes at tag count `from`.
pub(crate) fn load_tags(
    shared: &RingWords,
    seat: &mut RingSeat,
    sizes: Sizes,
    from: u32,
    records: u32,
    to: &mut Vec<u64>,
)
    requires table { seat.old.table_id ≡ shared.now.table_id }
    requires size { shared.now.table_id.words ≡ 5 + (seat.old.me.0.len + seat.old.me.0.tags) }
    requires reads { seat.old.me.0.reads ≡ true }
    requires sizes { (sizes.len ≡ seat.old.me.0.len) × (sizes.tags ≡ seat.old.me.0.tags) }
    requires some { 0 < sizes.tags }
    requires few { from + records < 2 ^ 32 }
    requires records { records ≡ length seat.old.me.0.reader.ahead }
    requires due { seat.old.me.0.reader.due_tags ≡ tags_from from seat.old.me.0.reader.ahead }
    requires fresh { to.old.items ≡ [] }
    requires room { records ≤ vec_capacity to.old }
    ensures table { seat.new.table_id ≡ seat.old.table_id }
    ensures view { seat.new.me ≡ (with_due_tags seat.old.me.0 [], seat.old.me.1) }
    ensures tags { to.new.items ≡ map (λ offer. offer.tag) seat.old.me.0.reader.ahead }
    ensures capacity { vec_capacity to.new ≡ vec_capacity to.old }
{
    for i in 0..records {
        to.push_reserved(load_tag(shared, seat, sizes.len, (from + i) % sizes.tags));
    }
}
