//! An offer is decided: its record is written, behind that of the pending loss if there is one, or it is lost.
ghost use Rattle.std.specs.Prelude.{◌≡◌, ◌+◌, ◌*◌, ◌<◌, ◌^◌, [], ◌∷◌, ◌++◌, length, true, false};
ghost use Rattle.gp_layout.specs.Words as bits;
ghost use Rattle.gp_ring.specs.Records.{fit_twice};
ghost use Rattle.gp_ring.specs.Offered.{offer_of};
ghost use Rattle.gp_ring.specs.TwoEnds.{wrote, written, tried, has_room};
ghost use Rattle.gp_ring.specs.kept.Views.{with_lost, with_since};
ghost use Rattle.gp_ring.specs.kept.Halves.{writer_end, IsWriting, IsDeciding};

use crate::between::emission::{emit_loss, emit_offer};
use crate::between::steps::{
    RingSeat, RingWords, Sizes, exchange_bump, exchange_flush, store_lost, store_since,
};
use crate::wrote::Wrote;
use gp_layout::{bump, count_of, room_one, room_two, taken};
use std::marker::Brand;

/// What the writer stored last: `w`, and the overflow time.
#[derive(Clone, Copy, Debug)]
pub(crate) struct Pen {
    pub(crate) w: u64,
    pub(crate) since: u64,
}

/// What a write loaded: `r`, and overflow.
#[derive(Clone, Copy, Debug)]
pub(crate) struct Loaded {
    pub(crate) r: u64,
    pub(crate) overflow: u64,
}

// A loss begins with this offer: its time is stored, and then overflow with the next change number and the count 1.
fn begin_loss(
    shared: &RingWords,
    seat: &mut RingSeat,
    overflow: u64,
    tag: u64,
    now: u64,
    header: &[u64],
    stack: &[u64],
)
    requires table { seat.old.table_id ≡ shared.now.table_id }
    requires size { shared.now.table_id.words ≡ 5 + (seat.old.me.0.len + seat.old.me.0.tags) }
    requires writes { seat.old.me.0.writes ≡ true }
    requires quiet { bits.count_of overflow ≡ 0 }
    requires present { seat.old.me.0.writer.present ≡ overflow }
    requires is_open { seat.old.me.0.writer.closed ≡ false }
    requires none_owed { seat.old.me.0.writer.owed ≡ 0 }
    requires draft { seat.old.me.0.writer.draft ≡ [] }
    requires tag_draft { seat.old.me.0.writer.tag_draft ≡ [] }
    requires few { length seat.old.me.0.writer.offers < 2 ^ 30 }
    requires change { bits.change_of overflow + 1 < 2 ^ 32 }
    requires full { fit_twice seat.old.me.0.hdrsize seat.old.me.0.len seat.old.me.0.tags
        (seat.old.me.0.writer.offers ++ offer_of tag now header.now stack.now ∷ []) ≡ false }
    ensures table { seat.new.table_id ≡ seat.old.table_id }
    ensures view { seat.new.me ≡ (
      with_lost (with_since seat.old.me.0 now) (offer_of tag now header.now stack.now) seat.new.me.0.writer.present,
      seat.old.me.1,
    ) }
{
    store_since(shared, seat, now);
    store_lost::<Brand>(shared, seat, bump(taken(overflow)), tag, now, header, stack);
}

// No loss is pending: the record is written where there is room for it, or else a loss begins.
fn write_next(
    shared: &RingWords,
    seat: &mut RingSeat,
    sizes: Sizes,
    pen: &mut Pen,
    zeros: &[u64],
    loaded: Loaded,
    tag: u64,
    now: u64,
    header: &[u64],
    stack: &[u64],
) -> Wrote
    requires deciding { IsDeciding shared.now.table_id seat.old.table_id seat.old.me sizes pen.old loaded zeros.now
        (offer_of tag now header.now stack.now) }
    requires none { bits.count_of loaded.overflow ≡ 0 }
    ensures writing { IsWriting shared.now.table_id seat.new.table_id seat.new.me sizes pen.new.w pen.new.since zeros.now }
    ensures answer { result ≡ wrote (tried (writer_end shared.now.table_id seat.old.me.0) seat.new.me.0.writer.found)
        (offer_of tag now header.now stack.now) }
    ensures after { writer_end shared.now.table_id seat.new.me.0
        ≡ written (tried (writer_end shared.now.table_id seat.old.me.0) seat.new.me.0.writer.found)
        (offer_of tag now header.now stack.now) }
{
    let need = (2 + header.len() + stack.len()) as u32;
    if !room_one(loaded.r, pen.w, sizes.len, sizes.tags, need) {
        begin_loss(shared, seat, loaded.overflow, tag, now, header, stack);
        pen.since = now;
        return Wrote::Lost {
            r: loaded.r,
            overflow: loaded.overflow,
        };
    }
    pen.w = emit_offer(shared, seat, sizes, pen.w, tag, now, header, stack);
    Wrote::Kept { flushed: 0 }
}

// A loss is pending and there is room for both: its record is written, unless the reader took it, and then the offer's.
fn write_both(
    shared: &RingWords,
    seat: &mut RingSeat,
    sizes: Sizes,
    pen: &mut Pen,
    zeros: &[u64],
    loaded: Loaded,
    tag: u64,
    now: u64,
    header: &[u64],
    stack: &[u64],
) -> Wrote
    requires deciding { IsDeciding shared.now.table_id seat.old.table_id seat.old.me sizes pen.old loaded zeros.now
        (offer_of tag now header.now stack.now) }
    requires pending { 0 < bits.count_of loaded.overflow }
    requires room { has_room (writer_end shared.now.table_id seat.old.me.0) (offer_of tag now header.now stack.now) ≡ true }
    ensures writing { IsWriting shared.now.table_id seat.new.table_id seat.new.me sizes pen.new.w pen.new.since zeros.now }
    ensures answer { result ≡ wrote (tried (writer_end shared.now.table_id seat.old.me.0) seat.new.me.0.writer.found)
        (offer_of tag now header.now stack.now) }
    ensures after { writer_end shared.now.table_id seat.new.me.0
        ≡ written (tried (writer_end shared.now.table_id seat.old.me.0) seat.new.me.0.writer.found)
        (offer_of tag now header.now stack.now) }
{
    let overflow = loaded.overflow;
    if exchange_flush(shared, seat, overflow, taken(overflow)) != overflow {
        pen.w = emit_offer(shared, seat, sizes, pen.w, tag, now, header, stack);
        return Wrote::Kept { flushed: 0 };
    }
    let flushed = count_of(overflow) as u64;
    let behind = emit_loss(shared, seat, sizes, pen.w, pen.since, zeros, flushed);
    pen.w = emit_offer(shared, seat, sizes, behind, tag, now, header, stack);
    Wrote::Kept { flushed }
}

// A loss is pending and there is no room for both: it counts one offer more, or another begins where the reader took it.
fn count_one(
    shared: &RingWords,
    seat: &mut RingSeat,
    sizes: Sizes,
    pen: &mut Pen,
    zeros: &[u64],
    loaded: Loaded,
    tag: u64,
    now: u64,
    header: &[u64],
    stack: &[u64],
) -> Wrote
    requires deciding { IsDeciding shared.now.table_id seat.old.table_id seat.old.me sizes pen.old loaded zeros.now
        (offer_of tag now header.now stack.now) }
    requires pending { 0 < bits.count_of loaded.overflow }
    requires no_room { has_room (writer_end shared.now.table_id seat.old.me.0) (offer_of tag now header.now stack.now) ≡ false }
    ensures writing { IsWriting shared.now.table_id seat.new.table_id seat.new.me sizes pen.new.w pen.new.since zeros.now }
    ensures answer { result ≡ wrote (tried (writer_end shared.now.table_id seat.old.me.0) seat.new.me.0.writer.found)
        (offer_of tag now header.now stack.now) }
    ensures after { writer_end shared.now.table_id seat.new.me.0
        ≡ written (tried (writer_end shared.now.table_id seat.old.me.0) seat.new.me.0.writer.found)
        (offer_of tag now header.now stack.now) }
{
    let overflow = loaded.overflow;
    let lost = Wrote::Lost {
        r: loaded.r,
        overflow,
    };
    let found = exchange_bump::<Brand>(
        shared,
        seat,
        overflow,
        bump(overflow),
        tag,
        now,
        header,
        stack,
    );
    if found == overflow {
        return lost;
    }
    begin_loss(shared, seat, found, tag, now, header, stack);
    pen.since = now;
    lost
}

// A loss is pending.
fn write_behind(
    shared: &RingWords,
    seat: &mut RingSeat,
    sizes: Sizes,
    pen: &mut Pen,
    zeros: &[u64],
    loaded: Loaded,
    tag: u64,
    now: u64,
    header: &[u64],
    stack: &[u64],
) -> Wrote
    requires deciding { IsDeciding shared.now.table_id seat.old.table_id seat.old.me sizes pen.old loaded zeros.now
        (offer_of tag now header.now stack.now) }
    requires pending { 0 < bits.count_of loaded.overflow }
    ensures writing { IsWriting shared.now.table_id seat.new.table_id seat.new.me sizes pen.new.w pen.new.since zeros.now }
    ensures answer { result ≡ wrote (tried (writer_end shared.now.table_id seat.old.me.0) seat.new.me.0.writer.found)
        (offer_of tag now header.now stack.now) }
    ensures after { writer_end shared.now.table_id seat.new.me.0
        ≡ written (tried (writer_end shared.now.table_id seat.old.me.0) seat.new.me.0.writer.found)
        (offer_of tag now header.now stack.now) }
{
    let need = (2 + header.len() + stack.len()) as u32;
    let (r, w) = (loaded.r, pen.w);
    if room_two(r, w, sizes.len, sizes.tags, sizes.hdrsize, need) {
        return write_both(
            shared, seat, sizes, pen, zeros, loaded, tag, now, header, stack,
        );
    }
    count_one(
        shared, seat, sizes, pen, zeros, loaded, tag, now, header, stack,
    )
}

/// Decides an offer, by the words that were loaded.
pub(crate) fn decide(
    shared: &RingWords,
    seat: &mut RingSeat,
    sizes: Sizes,
    pen: &mut Pen,
    zeros: &[u64],
    loaded: Loaded,
    tag: u64,
    now: u64,
    header: &[u64],
    stack: &[u64],
) -> Wrote
    requires deciding { IsDeciding shared.now.table_id seat.old.table_id seat.old.me sizes pen.old loaded zeros.now
        (offer_of tag now header.now stack.now) }
    ensures writing { IsWriting shared.now.table_id seat.new.table_id seat.new.me sizes pen.new.w pen.new.since zeros.now }
    ensures answer { result ≡ wrote (tried (writer_end shared.now.table_id seat.old.me.0) seat.new.me.0.writer.found)
        (offer_of tag now header.now stack.now) }
    ensures after { writer_end shared.now.table_id seat.new.me.0
        ≡ written (tried (writer_end shared.now.table_id seat.old.me.0) seat.new.me.0.writer.found)
        (offer_of tag now header.now stack.now) }
{
    if count_of(loaded.overflow) == 0 {
        return write_next(
            shared, seat, sizes, pen, zeros, loaded, tag, now, header, stack,
        );
    }
    write_behind(
        shared, seat, sizes, pen, zeros, loaded, tag, now, header, stack,
    )
}
