ghost use Rattle.std.specs.Prelude.{◌≡◌, ◌<◌, ◌≤◌, ◌+◌, ◌-◌, ◌%◌, ◌^◌};
ghost use Rattle.gp_layout.specs.Words as bits;
ghost use Rattle.gp_layout.specs.Room.{room_for_one, room_for_two};
ghost use Rattle.gp_layout.specs.Spelling.{loss_size};

use crate::placed::place;
use crate::words::{tags_of, words_of};

/// Whether there is room for a record of `need` words, in a ring of `len` data words and so many tags.
pub fn room_one(r: u64, w: u64, len: u32, tags: u32, need: u32) -> bool
    requires some { 0 < len }
    requires len { len ≤ 2 ^ 29 }
    requires tags { tags ≤ 2 ^ 29 }
    requires need { need ≤ len }
    requires words_before { bits.words_of r ≤ bits.words_of w }
    requires words_within { bits.words_of w ≤ bits.words_of r + len }
    requires tags_before { bits.tags_of r ≤ bits.tags_of w }
    requires tags_within { bits.tags_of w ≤ bits.tags_of r + tags }
    ensures { result ≡ room_for_one len tags (bits.words_of w - bits.words_of r) (bits.tags_of w - bits.tags_of r)
        (bits.words_of w % len) need }
{
    let words_used = words_of(w) - words_of(r);
    let tags_used = tags_of(w) - tags_of(r);
    let placed = place(words_of(w) % len, len, need);
    tags_used + 1 <= tags && words_used + (placed.skip + need) <= len
}

/// Whether there is room for the record of a pending loss, whose header has `hdrsize` words, and behind it for a record
/// of `need` words.
pub fn room_two(r: u64, w: u64, len: u32, tags: u32, hdrsize: u32, need: u32) -> bool
    requires some { 0 < len }
    requires len { len ≤ 2 ^ 29 }
    requires tags { tags ≤ 2 ^ 29 }
    requires loss { loss_size hdrsize ≤ len }
    requires need { need ≤ len }
    requires words_before { bits.words_of r ≤ bits.words_of w }
    requires words_within { bits.words_of w ≤ bits.words_of r + len }
    requires tags_before { bits.tags_of r ≤ bits.tags_of w }
    requires tags_within { bits.tags_of w ≤ bits.tags_of r + tags }
    ensures { result ≡ room_for_two len tags (bits.words_of w - bits.words_of r) (bits.tags_of w - bits.tags_of r)
        (bits.words_of w % len) (loss_size hdrsize) need }
{
    let words_used = words_of(w) - words_of(r);
    let tags_used = tags_of(w) - tags_of(r);
    let loss = 3 + hdrsize;
    let at = words_of(w) % len;
    let first = place(at, len, loss).skip + loss;
    let second = place((at + first) % len, len, need).skip + need;
    tags_used + 2 <= tags && words_used + first + second <= len
}
