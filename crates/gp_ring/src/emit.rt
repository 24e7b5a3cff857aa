ghost use Rattle.std.specs.Prelude.{◌≡◌, ◌+◌, ◌*◌, ◌-◌, ◌%◌, ◌<◌, ◌≤◌, ◌^◌, length, slice_set};
ghost use Rattle.gp_layout.specs.Words as bits;
ghost use Rattle.gp_layout.specs.Place.{raise_of};
ghost use Rattle.gp_layout.specs.Spelling.{size_of, spelled};
ghost use Rattle.gp_ring.specs.kept.Slots.{spliced, put_at, IsRaised};

use gp_layout::{place, raised, tags_of, words_of};

// Spells a record.
fn spell(to: &mut [u64], time: u64, header: &[u64], stack: &[u64])
    requires { length to.old ≡ size_of (length header.now) (length stack.now) }
    ensures { to.new ≡ spelled time header.now stack.now }
{
    let size = to.len() as u64;
    let (front, rest) = to.split_at_mut(2);
    front[0] = size;
    front[1] = time;
    let (header_part, stack_part) = rest.split_at_mut(header.len());
    header_part.copy_from_slice(header);
    stack_part.copy_from_slice(stack);
}

// Spells a record from place `start` on.
fn put(slots: &mut [u64], start: usize, time: u64, header: &[u64], stack: &[u64])
    requires { start + size_of (length header.now) (length stack.now) ≤ length slots.old }
    ensures { slots.new ≡ spliced start (spelled time header.now stack.now) slots.old }
{
    let end = start + (2 + header.len() + stack.len());
    spell(&mut slots[start..end], time, header, stack);
}

// Emits a record behind what `w` shows, with the mark where words are passed over, and gives the new `w`.
fn emit_words(slots: &mut [u64], w: u64, time: u64, header: &[u64], stack: &[u64]) -> u64
    requires some { 0 < length slots.old }
    requires len { length slots.old ≤ 2 ^ 29 }
    requires fits { size_of (length header.now) (length stack.now) ≤ length slots.old }
    requires words { bits.words_of w + 2 * size_of (length header.now) (length stack.now) < 2 ^ 32 }
    requires tags { bits.tags_of w + 1 < 2 ^ 30 }
    ensures slots { slots.new ≡ put_at (length slots.old) (bits.words_of w % length slots.old)
        (spelled time header.now stack.now) slots.old }
    ensures w { IsRaised w result (length slots.old) (size_of (length header.now) (length stack.now)) }
{
    let len = slots.len() as u32;
    let need = (2 + header.len() + stack.len()) as u32;
    let at = words_of(w) % len;
    let placed = place(at, len, need);
    if placed.skip > 0 {
        slots[at as usize] = 0;
    }
    put(slots, placed.start as usize, time, header, stack);
    raised(w, placed.skip + need, 1)
}

// Emits a record with its tag.
pub(crate) fn emit_record(
    slots: &mut [u64],
    tags: &mut [u64],
    w: u64,
    tag: u64,
    time: u64,
    header: &[u64],
    stack: &[u64],
) -> u64
    requires some { 0 < length slots.old }
    requires len { length slots.old ≤ 2 ^ 29 }
    requires tags_some { 0 < length tags.old }
    requires tags_len { length tags.old ≤ 2 ^ 29 }
    requires fits { size_of (length header.now) (length stack.now) ≤ length slots.old }
    requires words { bits.words_of w + 2 * size_of (length header.now) (length stack.now) < 2 ^ 32 }
    requires tags { bits.tags_of w + 1 < 2 ^ 30 }
    ensures slots { slots.new ≡ put_at (length slots.old) (bits.words_of w % length slots.old)
        (spelled time header.now stack.now) slots.old }
    ensures tags { tags.new ≡ slice_set tags.old (bits.tags_of w % length tags.old) tag }
    ensures w { IsRaised w result (length slots.old) (size_of (length header.now) (length stack.now)) }
{
    let place = tags_of(w) % tags.len() as u32;
    tags[place as usize] = tag;
    emit_words(slots, w, time, header, stack)
}
