//! The steps on the words that two threads share, one function for each kind, and the two cuts of seats.
ghost use Rattle.std.specs.Prelude.{◌≡◌, ◌≢◌, ◌+◌, ◌-◌, ◌%◌, ◌<◌, ◌≤◌, ◌^◌, [], ◌∷◌, ◌++◌, length, true, false};
ghost use Rattle.gp_layout.specs.Words as bits;
ghost use Rattle.gp_ring.specs.Records.{IsOffer, fit_twice};
ghost use Rattle.gp_ring.specs.Counts.{behind, behind_all};
ghost use Rattle.gp_ring.specs.Offered.{offer_of};
ghost use Rattle.gp_ring.specs.kept.Traces.{laid_at, first_word, IsDueAt};
ghost use Rattle.gp_ring.specs.kept.Views.{with_read, with_words, with_mark, with_tag, with_delivered, owed_of, with_paid};
ghost use Rattle.gp_ring.specs.kept.Views.{with_overflow, with_since, with_lost, with_exchange, with_raced, with_owed, with_closed};
ghost use Rattle.gp_ring.specs.kept.Views.{with_end, with_pending, with_ahead, without_words, without_tags, with_batch};
ghost use Rattle.gp_ring.specs.kept.Views.{with_time, with_loss, without_loss};
ghost use Rattle.gp_ring.specs.kept.Views.{IsWithin, IsLifted, IsCounted, IsAhead, IsAll};

use crate::between::view::View;
use atomic_table::{Join, Play, Seat, Shared, Split, TableRule};
use std::marker::{Brand, PhantomData};

/// How many header words a record has, and how many data words and tags the ring.
#[derive(Clone, Copy, Debug)]
pub(crate) struct Sizes {
    pub(crate) hdrsize: u32,
    pub(crate) len: u32,
    pub(crate) tags: u32,
}

/// The words and the seats show what was done so far.
pub(crate) struct RingRule;

impl TableRule<(), View, Sizes> for RingRule {
    ghost use Rattle.gp_ring.specs.kept.Views.{first_view};
    ghost use Rattle.gp_ring.specs.kept.RingRule.{IsRing};

    ghost holds = { λ _ s. IsRing s };

    ghost first = { λ sizes. first_view sizes.hdrsize sizes.len sizes.tags };
}

/// The shared words: `r`, `w`, overflow, its time, the end mark, the data words, the tags.
pub(crate) type RingWords = Shared<(), View, Sizes, RingRule>;

/// What a thread steps with.
pub(crate) type RingSeat = Seat<(), View>;

// The indexes of the words.
const READ: usize = 0;

const WRITTEN: usize = 1;

const OVERFLOW: usize = 2;

const OVERFLOW_TIME: usize = 3;

const END: usize = 4;

const DATA: usize = 5;

/// The writer's part is cut off from the reader's, or taken in by it.
pub(crate) struct Sides;

impl Split<View> for Sides {
    ghost use Rattle.gp_ring.specs.kept.Views.{reader_of, writer_of};

    ghost left = { reader_of };

    ghost right = { writer_of };
}

impl Join<View> for Sides {
    ghost use Rattle.gp_ring.specs.kept.Views.{with_writer, nobody};

    ghost both = { with_writer };

    ghost spent = { nobody };
}

/// The offer that a step decides. Each call of a program picks it.
pub(crate) trait Decided {
    ghost use Rattle.gp_ring.specs.Records.{Offer};

    ghost decided: { Offer };
}

impl Decided for Brand {
    ghost use Rattle.gp_ring.specs.kept.Views.{no_offer};

    ghost decided = { no_offer };
}

struct LoadsRead;

impl Play<(), View> for LoadsRead {
    ghost use Rattle.gp_ring.specs.kept.Views.{loaded_read};

    ghost then = { loaded_read };
}

struct StoresWord;

impl Play<(), View> for StoresWord {
    ghost use Rattle.gp_ring.specs.kept.Views.{stored_word};

    ghost then = { stored_word };
}

struct StoresMark;

impl Play<(), View> for StoresMark {
    ghost use Rattle.gp_ring.specs.kept.Views.{stored_mark};

    ghost then = { stored_mark };
}

struct StoresTag;

impl Play<(), View> for StoresTag {
    ghost use Rattle.gp_ring.specs.kept.Views.{stored_tag};

    ghost then = { stored_tag };
}

struct StoresDelivered<E> {
    decided: PhantomData<E>,
}

impl<E: Decided> Play<(), View> for StoresDelivered<E> {
    ghost use Rattle.gp_ring.specs.kept.Views.{stored_delivered};

    ghost then = { stored_delivered E.decided };
}

struct StoresPaid;

impl Play<(), View> for StoresPaid {
    ghost use Rattle.gp_ring.specs.kept.Views.{stored_paid};

    ghost then = { stored_paid };
}

struct LoadsOverflow;

impl Play<(), View> for LoadsOverflow {
    ghost use Rattle.gp_ring.specs.kept.Views.{loaded_overflow};

    ghost then = { loaded_overflow };
}

struct StoresSince;

impl Play<(), View> for StoresSince {
    ghost use Rattle.gp_ring.specs.kept.Views.{stored_since};

    ghost then = { stored_since };
}

struct StoresLost<E> {
    decided: PhantomData<E>,
}

impl<E: Decided> Play<(), View> for StoresLost<E> {
    ghost use Rattle.gp_ring.specs.kept.Views.{stored_lost};

    ghost then = { stored_lost E.decided };
}

struct ExchangesFlush;

impl Play<(), View> for ExchangesFlush {
    ghost use Rattle.gp_ring.specs.kept.Views.{exchanged_flush};

    ghost then = { exchanged_flush };
}

struct ExchangesBump<E> {
    decided: PhantomData<E>,
}

impl<E: Decided> Play<(), View> for ExchangesBump<E> {
    ghost use Rattle.gp_ring.specs.kept.Views.{exchanged_bump};

    ghost then = { exchanged_bump E.decided };
}

struct StoresEnd;

impl Play<(), View> for StoresEnd {
    ghost use Rattle.gp_ring.specs.kept.Views.{stored_end};

    ghost then = { stored_end };
}

struct LoadsEnd;

impl Play<(), View> for LoadsEnd {
    ghost use Rattle.gp_ring.specs.kept.Views.{loaded_end};

    ghost then = { loaded_end };
}

struct LoadsPending;

impl Play<(), View> for LoadsPending {
    ghost use Rattle.gp_ring.specs.kept.Views.{loaded_pending};

    ghost then = { loaded_pending };
}

struct LoadsWritten;

impl Play<(), View> for LoadsWritten {
    ghost use Rattle.gp_ring.specs.kept.Views.{loaded_written};

    ghost then = { loaded_written };
}

struct LoadsWord;

impl Play<(), View> for LoadsWord {
    ghost use Rattle.gp_ring.specs.kept.Views.{loaded_word};

    ghost then = { loaded_word };
}

struct LoadsTag;

impl Play<(), View> for LoadsTag {
    ghost use Rattle.gp_ring.specs.kept.Views.{loaded_tag};

    ghost then = { loaded_tag };
}

struct StoresRead;

impl Play<(), View> for StoresRead {
    ghost use Rattle.gp_ring.specs.kept.Views.{stored_read};

    ghost then = { stored_read };
}

struct LoadsSince;

impl Play<(), View> for LoadsSince {
    ghost use Rattle.gp_ring.specs.kept.Views.{loaded_since};

    ghost then = { loaded_since };
}

struct ExchangesLoss;

impl Play<(), View> for ExchangesLoss {
    ghost use Rattle.gp_ring.specs.kept.Views.{exchanged_loss};

    ghost then = { exchanged_loss };
}

// Loads `r`: no more than a round lies between its counts and the writer's.
pub(crate) fn load_read(shared: &RingWords, seat: &mut RingSeat) -> u64
    requires table { seat.old.table_id ≡ shared.now.table_id }
    requires size { shared.now.table_id.words ≡ 5 + (seat.old.me.0.len + seat.old.me.0.tags) }
    requires writes { seat.old.me.0.writes ≡ true }
    ensures table { seat.new.table_id ≡ seat.old.table_id }
    ensures view { seat.new.me ≡ (with_read seat.old.me.0 result, seat.old.me.1) }
    ensures within { IsWithin seat.old.me.0.len seat.old.me.0.tags result
        (behind_all seat.old.me.0.len 0 seat.old.me.0.writer.records) (length seat.old.me.0.writer.records) }
{
    shared.load::<LoadsRead>(seat, READ)
}

// Stores a data word behind those before, where by the `r` that was loaded last the reader is done.
pub(crate) fn store_word(shared: &RingWords, seat: &mut RingSeat, place: u32, word: u64)
    requires table { seat.old.table_id ≡ shared.now.table_id }
    requires size { shared.now.table_id.words ≡ 5 + (seat.old.me.0.len + seat.old.me.0.tags) }
    requires writes { seat.old.me.0.writes ≡ true }
    requires quiet { bits.count_of seat.old.me.0.writer.present ≡ 0 }
    requires is_open { seat.old.me.0.writer.closed ≡ false }
    requires within { place < seat.old.me.0.len }
    requires place { place ≡ seat.old.me.0.writer.next % seat.old.me.0.len }
    requires free { seat.old.me.0.writer.next < bits.words_of seat.old.me.0.writer.read + seat.old.me.0.len }
    ensures table { seat.new.table_id ≡ seat.old.table_id }
    ensures view { seat.new.me ≡ (with_words seat.old.me.0 (word ∷ []), seat.old.me.1) }
{
    shared.store::<StoresWord>(seat, DATA + place as usize, word);
}

// Stores the mark: the data words up to the end of the ring are passed over.
pub(crate) fn store_mark(shared: &RingWords, seat: &mut RingSeat, place: u32)
    requires table { seat.old.table_id ≡ shared.now.table_id }
    requires size { shared.now.table_id.words ≡ 5 + (seat.old.me.0.len + seat.old.me.0.tags) }
    requires writes { seat.old.me.0.writes ≡ true }
    requires quiet { bits.count_of seat.old.me.0.writer.present ≡ 0 }
    requires is_open { seat.old.me.0.writer.closed ≡ false }
    requires within { place < seat.old.me.0.len }
    requires place { place ≡ seat.old.me.0.writer.next % seat.old.me.0.len }
    requires free { seat.old.me.0.writer.next + (seat.old.me.0.len - seat.old.me.0.writer.next % seat.old.me.0.len)
        ≤ bits.words_of seat.old.me.0.writer.read + seat.old.me.0.len }
    ensures table { seat.new.table_id ≡ seat.old.table_id }
    ensures view { seat.new.me ≡ (with_mark seat.old.me.0, seat.old.me.1) }
{
    shared.store::<StoresMark>(seat, DATA + place as usize, 0);
}

// Stores a tag behind those before, where by the `r` that was loaded last the reader is done.
pub(crate) fn store_tag(shared: &RingWords, seat: &mut RingSeat, len: u32, place: u32, tag: u64)
    requires table { seat.old.table_id ≡ shared.now.table_id }
    requires size { shared.now.table_id.words ≡ 5 + (seat.old.me.0.len + seat.old.me.0.tags) }
    requires writes { seat.old.me.0.writes ≡ true }
    requires quiet { bits.count_of seat.old.me.0.writer.present ≡ 0 }
    requires is_open { seat.old.me.0.writer.closed ≡ false }
    requires len { len ≡ seat.old.me.0.len }
    requires within { place < seat.old.me.0.tags }
    requires place { place ≡ seat.old.me.0.writer.next_tag % seat.old.me.0.tags }
    requires free { seat.old.me.0.writer.next_tag < bits.tags_of seat.old.me.0.writer.read + seat.old.me.0.tags }
    ensures table { seat.new.table_id ≡ seat.old.table_id }
    ensures view { seat.new.me ≡ (with_tag seat.old.me.0 tag, seat.old.me.1) }
{
    shared.store::<StoresTag>(seat, DATA + len as usize + place as usize, tag);
}

// Stores `w`, by which the record of an offer is published. Its words and its tag stand in the ring.
pub(crate) fn store_delivered<E: Decided>(
    shared: &RingWords,
    seat: &mut RingSeat,
    w: u64,
    tag: u64,
    time: u64,
    header: &[u64],
    stack: &[u64],
)
    requires table { seat.old.table_id ≡ shared.now.table_id }
    requires size { shared.now.table_id.words ≡ 5 + (seat.old.me.0.len + seat.old.me.0.tags) }
    requires writes { seat.old.me.0.writes ≡ true }
    requires quiet { bits.count_of seat.old.me.0.writer.present ≡ 0 }
    requires is_open { seat.old.me.0.writer.closed ≡ false }
    requires none_owed { seat.old.me.0.writer.owed ≡ 0 }
    requires decided { E.decided ≡ offer_of tag time header.now stack.now }
    requires offer { IsOffer seat.old.me.0.hdrsize seat.old.me.0.len (offer_of tag time header.now stack.now) }
    requires few { length seat.old.me.0.writer.offers < 2 ^ 30 }
    requires draft { seat.old.me.0.writer.draft ≡ laid_at seat.old.me.0.len
        (behind_all seat.old.me.0.len 0 seat.old.me.0.writer.records) (offer_of tag time header.now stack.now) }
    requires tag_draft { seat.old.me.0.writer.tag_draft ≡ (length seat.old.me.0.writer.records, tag) ∷ [] }
    requires next { seat.old.me.0.writer.next ≡ bits.words_of w }
    requires next_tag { seat.old.me.0.writer.next_tag ≡ bits.tags_of w }
    requires words { bits.words_of w ≡ behind seat.old.me.0.len
        (behind_all seat.old.me.0.len 0 seat.old.me.0.writer.records) (offer_of tag time header.now stack.now) }
    requires tags { bits.tags_of w ≡ length seat.old.me.0.writer.records + 1 }
    ensures table { seat.new.table_id ≡ seat.old.table_id }
    ensures view { seat.new.me ≡ (with_delivered seat.old.me.0 (offer_of tag time header.now stack.now), seat.old.me.1) }
{
    let _header = header;
    let _stack = stack;
    shared.store::<StoresDelivered<E>>(seat, WRITTEN, w);
}

// Stores `w`, by which the record of the loss is published that the writer took. Its words and its tag stand in the ring.
pub(crate) fn store_paid(shared: &RingWords, seat: &mut RingSeat, w: u64)
    requires table { seat.old.table_id ≡ shared.now.table_id }
    requires size { shared.now.table_id.words ≡ 5 + (seat.old.me.0.len + seat.old.me.0.tags) }
    requires writes { seat.old.me.0.writes ≡ true }
    requires quiet { bits.count_of seat.old.me.0.writer.present ≡ 0 }
    requires is_open { seat.old.me.0.writer.closed ≡ false }
    requires some_owed { 0 < seat.old.me.0.writer.owed }
    requires draft { seat.old.me.0.writer.draft ≡ laid_at seat.old.me.0.len
        (behind_all seat.old.me.0.len 0 seat.old.me.0.writer.records) (owed_of seat.old.me.0) }
    requires tag_draft { seat.old.me.0.writer.tag_draft ≡ (length seat.old.me.0.writer.records, 0) ∷ [] }
    requires next { seat.old.me.0.writer.next ≡ bits.words_of w }
    requires next_tag { seat.old.me.0.writer.next_tag ≡ bits.tags_of w }
    requires words { bits.words_of w ≡ behind seat.old.me.0.len
        (behind_all seat.old.me.0.len 0 seat.old.me.0.writer.records) (owed_of seat.old.me.0) }
    requires tags { bits.tags_of w ≡ length seat.old.me.0.writer.records + 1 }
    ensures table { seat.new.table_id ≡ seat.old.table_id }
    ensures view { seat.new.me ≡ (with_paid seat.old.me.0, seat.old.me.1) }
{
    shared.store::<StoresPaid>(seat, WRITTEN, w);
}

// The writer loads overflow.
pub(crate) fn load_overflow(shared: &RingWords, seat: &mut RingSeat) -> u64
    requires table { seat.old.table_id ≡ shared.now.table_id }
    requires size { shared.now.table_id.words ≡ 5 + (seat.old.me.0.len + seat.old.me.0.tags) }
    requires writes { seat.old.me.0.writes ≡ true }
    ensures table { seat.new.table_id ≡ seat.old.table_id }
    ensures view { seat.new.me ≡ (with_overflow seat.old.me.0 result, seat.old.me.1) }
    ensures counted { IsCounted seat.old.me.0 result }
{
    shared.load::<LoadsOverflow>(seat, OVERFLOW)
}

// Stores the overflow time, while no loss is pending.
pub(crate) fn store_since(shared: &RingWords, seat: &mut RingSeat, now: u64)
    requires table { seat.old.table_id ≡ shared.now.table_id }
    requires size { shared.now.table_id.words ≡ 5 + (seat.old.me.0.len + seat.old.me.0.tags) }
    requires writes { seat.old.me.0.writes ≡ true }
    requires quiet { bits.count_of seat.old.me.0.writer.present ≡ 0 }
    requires is_open { seat.old.me.0.writer.closed ≡ false }
    requires none_owed { seat.old.me.0.writer.owed ≡ 0 }
    ensures table { seat.new.table_id ≡ seat.old.table_id }
    ensures view { seat.new.me ≡ (with_since seat.old.me.0 now, seat.old.me.1) }
{
    shared.store::<StoresSince>(seat, OVERFLOW_TIME, now);
}

// Stores overflow with a first offer that is lost, whose time was stored before. There was no room for it.
pub(crate) fn store_lost<E: Decided>(
    shared: &RingWords,
    seat: &mut RingSeat,
    word: u64,
    tag: u64,
    time: u64,
    header: &[u64],
    stack: &[u64],
)
    requires table { seat.old.table_id ≡ shared.now.table_id }
    requires size { shared.now.table_id.words ≡ 5 + (seat.old.me.0.len + seat.old.me.0.tags) }
    requires writes { seat.old.me.0.writes ≡ true }
    requires quiet { bits.count_of seat.old.me.0.writer.present ≡ 0 }
    requires is_open { seat.old.me.0.writer.closed ≡ false }
    requires none_owed { seat.old.me.0.writer.owed ≡ 0 }
    requires draft { seat.old.me.0.writer.draft ≡ [] }
    requires tag_draft { seat.old.me.0.writer.tag_draft ≡ [] }
    requires decided { E.decided ≡ offer_of tag time header.now stack.now }
    requires few { length seat.old.me.0.writer.offers < 2 ^ 30 }
    requires since { seat.old.me.0.writer.since ≡ time }
    requires full { fit_twice seat.old.me.0.hdrsize seat.old.me.0.len seat.old.me.0.tags
        (seat.old.me.0.writer.offers ++ offer_of tag time header.now stack.now ∷ []) ≡ false }
    requires count { bits.count_of word ≡ 1 }
    requires change { bits.change_of word ≡ bits.change_of seat.old.me.0.writer.present + 1 }
    ensures table { seat.new.table_id ≡ seat.old.table_id }
    ensures view { seat.new.me ≡ (with_lost seat.old.me.0 (offer_of tag time header.now stack.now) word, seat.old.me.1) }
{
    let _header = header;
    let _stack = stack;
    shared.store::<StoresLost<E>>(seat, OVERFLOW, word);
}

// The writer takes the pending loss, to write it into the ring, if overflow is still as it knows it.
pub(crate) fn exchange_flush(
    shared: &RingWords,
    seat: &mut RingSeat,
    overflow: u64,
    word: u64,
) -> u64
    requires table { seat.old.table_id ≡ shared.now.table_id }
    requires size { shared.now.table_id.words ≡ 5 + (seat.old.me.0.len + seat.old.me.0.tags) }
    requires writes { seat.old.me.0.writes ≡ true }
    requires draft { seat.old.me.0.writer.draft ≡ [] }
    requires tag_draft { seat.old.me.0.writer.tag_draft ≡ [] }
    requires is_open { seat.old.me.0.writer.closed ≡ false }
    requires present { seat.old.me.0.writer.present ≡ overflow }
    requires pending { 0 < bits.count_of overflow }
    requires count { bits.count_of word ≡ 0 }
    requires change { bits.change_of word ≡ bits.change_of overflow + 1 }
    ensures table { seat.new.table_id ≡ seat.old.table_id }
    ensures won { result ≡ overflow → seat.new.me ≡ (with_exchange (with_owed seat.old.me.0 word) result, seat.old.me.1) }
    ensures raced { result ≢ overflow → seat.new.me ≡ (with_raced seat.old.me.0 result, seat.old.me.1) }
    ensures lifted { result ≢ overflow → IsLifted overflow result }
{
    shared.compare_exchange::<ExchangesFlush>(seat, OVERFLOW, overflow, word)
}

// One more offer is lost, if overflow is still as the writer knows it.
pub(crate) fn exchange_bump<E: Decided>(
    shared: &RingWords,
    seat: &mut RingSeat,
    overflow: u64,
    word: u64,
    tag: u64,
    time: u64,
    header: &[u64],
    stack: &[u64],
) -> u64
    requires table { seat.old.table_id ≡ shared.now.table_id }
    requires size { shared.now.table_id.words ≡ 5 + (seat.old.me.0.len + seat.old.me.0.tags) }
    requires writes { seat.old.me.0.writes ≡ true }
    requires decided { E.decided ≡ offer_of tag time header.now stack.now }
    requires is_open { seat.old.me.0.writer.closed ≡ false }
    requires few { length seat.old.me.0.writer.offers < 2 ^ 30 }
    requires present { seat.old.me.0.writer.present ≡ overflow }
    requires pending { 0 < bits.count_of overflow }
    requires count { bits.count_of word ≡ bits.count_of overflow + 1 }
    requires change { bits.change_of word ≡ bits.change_of overflow }
    ensures table { seat.new.table_id ≡ seat.old.table_id }
    ensures won { result ≡ overflow
        → seat.new.me ≡ (with_exchange (with_lost seat.old.me.0 (offer_of tag time header.now stack.now) word) result, seat.old.me.1) }
    ensures raced { result ≢ overflow → seat.new.me ≡ (with_raced seat.old.me.0 result, seat.old.me.1) }
    ensures lifted { result ≢ overflow → IsLifted overflow result }
{
    let _header = header;
    let _stack = stack;
    shared.compare_exchange::<ExchangesBump<E>>(seat, OVERFLOW, overflow, word)
}

// Stores the end mark: nothing comes any more.
pub(crate) fn store_end(shared: &RingWords, seat: &mut RingSeat)
    requires table { seat.old.table_id ≡ shared.now.table_id }
    requires size { shared.now.table_id.words ≡ 5 + (seat.old.me.0.len + seat.old.me.0.tags) }
    requires writes { seat.old.me.0.writes ≡ true }
    requires none_owed { seat.old.me.0.writer.owed ≡ 0 }
    requires draft { seat.old.me.0.writer.draft ≡ [] }
    requires tag_draft { seat.old.me.0.writer.tag_draft ≡ [] }
    ensures table { seat.new.table_id ≡ seat.old.table_id }
    ensures view { seat.new.me ≡ (with_closed seat.old.me.0, seat.old.me.1) }
{
    shared.store::<StoresEnd>(seat, END, 1);
}

// Loads the end mark, which is 0 or 1.
pub(crate) fn load_end(shared: &RingWords, seat: &mut RingSeat) -> u64
    requires table { seat.old.table_id ≡ shared.now.table_id }
    requires size { shared.now.table_id.words ≡ 5 + (seat.old.me.0.len + seat.old.me.0.tags) }
    requires reads { seat.old.me.0.reads ≡ true }
    ensures table { seat.new.table_id ≡ seat.old.table_id }
    ensures view { seat.new.me ≡ (with_end seat.old.me.0 result, seat.old.me.1) }
    ensures mark { result ≤ 1 }
    ensures over { seat.old.me.0.reader.is_over ≡ true → result ≡ 1 }
    ensures all { seat.old.me.0.writes ≡ true → seat.old.me.0.reader.is_over ≡ true → IsAll seat.old.me.0 }
{
    shared.load::<LoadsEnd>(seat, END)
}

// The reader loads overflow: the loss that is pending, if there is one.
pub(crate) fn load_pending(shared: &RingWords, seat: &mut RingSeat) -> u64
    requires table { seat.old.table_id ≡ shared.now.table_id }
    requires size { shared.now.table_id.words ≡ 5 + (seat.old.me.0.len + seat.old.me.0.tags) }
    requires reads { seat.old.me.0.reads ≡ true }
    ensures table { seat.new.table_id ≡ seat.old.table_id }
    ensures view { seat.new.me ≡ (with_pending seat.old.me.0 result, seat.old.me.1) }
    ensures change { bits.change_of result ≤ 2 ^ 31 }
    ensures over { seat.old.me.0.reader.is_over ≡ true → bits.count_of result ≡ 0 }
{
    shared.load::<LoadsPending>(seat, OVERFLOW)
}

// Loads `w`: which records are ahead.
pub(crate) fn load_written(shared: &RingWords, seat: &mut RingSeat) -> u64
    requires table { seat.old.table_id ≡ shared.now.table_id }
    requires size { shared.now.table_id.words ≡ 5 + (seat.old.me.0.len + seat.old.me.0.tags) }
    requires reads { seat.old.me.0.reads ≡ true }
    ensures table { seat.new.table_id ≡ seat.old.table_id }
    ensures view { seat.new.me ≡ (with_ahead seat.old.me.0 result seat.new.me.0.reader.ahead, seat.old.me.1) }
    ensures ahead { IsAhead seat.old.me.0 result seat.new.me.0.reader.ahead }
{
    shared.load::<LoadsWritten>(seat, WRITTEN)
}

// Loads the next data word that is due.
pub(crate) fn load_word(shared: &RingWords, seat: &mut RingSeat, place: u32) -> u64
    requires table { seat.old.table_id ≡ shared.now.table_id }
    requires size { shared.now.table_id.words ≡ 5 + (seat.old.me.0.len + seat.old.me.0.tags) }
    requires reads { seat.old.me.0.reads ≡ true }
    requires within { place < seat.old.me.0.len }
    requires due { IsDueAt place seat.old.me.0.len seat.old.me.0.reader.due }
    ensures table { seat.new.table_id ≡ seat.old.table_id }
    ensures view { seat.new.me ≡ (without_words seat.old.me.0 1, seat.old.me.1) }
    ensures word { result ≡ first_word seat.old.me.0.reader.due }
{
    shared.load::<LoadsWord>(seat, DATA + place as usize)
}

// Loads the next tag that is due.
pub(crate) fn load_tag(shared: &RingWords, seat: &mut RingSeat, len: u32, place: u32) -> u64
    requires table { seat.old.table_id ≡ shared.now.table_id }
    requires size { shared.now.table_id.words ≡ 5 + (seat.old.me.0.len + seat.old.me.0.tags) }
    requires reads { seat.old.me.0.reads ≡ true }
    requires len { len ≡ seat.old.me.0.len }
    requires within { place < seat.old.me.0.tags }
    requires due { IsDueAt place seat.old.me.0.tags seat.old.me.0.reader.due_tags }
    ensures table { seat.new.table_id ≡ seat.old.table_id }
    ensures view { seat.new.me ≡ (without_tags seat.old.me.0 1, seat.old.me.1) }
    ensures tag { result ≡ first_word seat.old.me.0.reader.due_tags }
{
    shared.load::<LoadsTag>(seat, DATA + len as usize + place as usize)
}

// Stores `r`, by which the words of the batch are given back. All of them were loaded.
pub(crate) fn store_read(shared: &RingWords, seat: &mut RingSeat, r: u64)
    requires table { seat.old.table_id ≡ shared.now.table_id }
    requires size { shared.now.table_id.words ≡ 5 + (seat.old.me.0.len + seat.old.me.0.tags) }
    requires reads { seat.old.me.0.reads ≡ true }
    requires words_loaded { seat.old.me.0.reader.due ≡ [] }
    requires tags_loaded { seat.old.me.0.reader.due_tags ≡ [] }
    requires words { bits.words_of r ≡ behind_all seat.old.me.0.len 0
        (seat.old.me.0.reader.pulled ++ seat.old.me.0.reader.ahead) }
    requires tags { bits.tags_of r ≡ length (seat.old.me.0.reader.pulled ++ seat.old.me.0.reader.ahead) }
    ensures table { seat.new.table_id ≡ seat.old.table_id }
    ensures view { seat.new.me ≡ (with_batch seat.old.me.0, seat.old.me.1) }
{
    shared.store::<StoresRead>(seat, READ, r);
}

// Loads the overflow time.
pub(crate) fn load_since(shared: &RingWords, seat: &mut RingSeat) -> u64
    requires table { seat.old.table_id ≡ shared.now.table_id }
    requires size { shared.now.table_id.words ≡ 5 + (seat.old.me.0.len + seat.old.me.0.tags) }
    requires reads { seat.old.me.0.reads ≡ true }
    ensures table { seat.new.table_id ≡ seat.old.table_id }
    ensures view { seat.new.me ≡ (with_time seat.old.me.0 result, seat.old.me.1) }
{
    shared.load::<LoadsSince>(seat, OVERFLOW_TIME)
}

// The reader takes the pending loss, if overflow is still as it was looked at: its time was loaded, and no record is ahead.
pub(crate) fn exchange_loss(
    shared: &RingWords,
    seat: &mut RingSeat,
    overflow: u64,
    word: u64,
) -> u64
    requires table { seat.old.table_id ≡ shared.now.table_id }
    requires size { shared.now.table_id.words ≡ 5 + (seat.old.me.0.len + seat.old.me.0.tags) }
    requires reads { seat.old.me.0.reads ≡ true }
    requires present { seat.old.me.0.reader.overflow ≡ overflow }
    requires pending { 0 < bits.count_of overflow }
    requires has_seen { seat.old.me.0.reader.has_seen ≡ true }
    requires is_timed { seat.old.me.0.reader.is_timed ≡ true }
    requires none_ahead { seat.old.me.0.reader.ahead ≡ [] }
    requires count { bits.count_of word ≡ 0 }
    requires change { bits.change_of word ≡ bits.change_of overflow + 1 }
    ensures table { seat.new.table_id ≡ seat.old.table_id }
    ensures won { result ≡ overflow → seat.new.me ≡ (with_loss seat.old.me.0 result, seat.old.me.1) }
    ensures raced { result ≢ overflow → seat.new.me ≡ (without_loss seat.old.me.0 result, seat.old.me.1) }
{
    shared.compare_exchange::<ExchangesLoss>(seat, OVERFLOW, overflow, word)
}
