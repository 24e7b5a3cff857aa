ghost use Rattle.std.specs.Prelude.{◌≡◌, ◌+◌, ◌-◌, ◌%◌, ◌^◌, ◌<◌, ◌≤◌, ◌++◌, length, take, drop};
ghost use Rattle.gp_ring.specs.kept.Slots.{records_at, tags_at, Lie};
ghost use Rattle.gp_ring.specs.kept.Fields.{words_in, IsWithin};
ghost use Rattle.gp_ring.specs.kept.Batch.{in_order};

use crate::hand::Part;

// The words from `at` to `stop` and the first `rest` ones, in one piece: where they lie if they are one, else copied.
fn join(ring: &[u64], copy: &mut [u64], at: usize, stop: usize, rest: usize) -> Part
    requires copy { length copy.old ≡ length ring.now }
    requires order { at ≤ stop }
    requires stop { stop ≤ length ring.now }
    requires rest { (stop - at) + rest ≤ length ring.now }
    ensures copy { length copy.new ≡ length copy.old }
    ensures order { result.from ≤ result.to }
    ensures within { IsWithin result ring.now copy.new }
    ensures words { words_in result ring.now copy.new ≡ take (stop - at) (drop at ring.now) ++ take rest ring.now }
{
    if rest == 0 {
        return Part {
            copied: false,
            from: at,
            to: stop,
        };
    }
    if at == stop {
        return Part {
            copied: false,
            from: 0,
            to: rest,
        };
    }
    let front = stop - at;
    let total = front + rest;
    copy[..front].copy_from_slice(&ring[at..stop]);
    copy[front..total].copy_from_slice(&ring[..rest]);
    Part {
        copied: true,
        from: 0,
        to: total,
    }
}

// Where the records that begin at `at` reach the end of the ring, or a mark. They are followed by others at place 0.
fn stop_of(slots: &[u64], at: usize, records: u32, hdrsize: u32, from: u32, to: u32) -> usize
    requires some { 0 < length slots.now }
    requires len { length slots.now ≤ 2 ^ 29 }
    requires order { from ≤ to }
    requires at { at ≡ from % length slots.now }
    requires lie { Lie slots.now (length slots.now) hdrsize records from to }
    requires within { to ≤ from + length slots.now }
    requires over { length slots.now < at + (to - from) }
    ensures order { at ≤ result }
    ensures within { result ≤ length slots.now }
    ensures words { in_order slots.now records from
        ≡ take (result - at) (drop at slots.now) ++ take ((at + (to - from)) - length slots.now) slots.now }
{
    let mut place = at;
    for _ in 0..records {
        if place == slots.len() || slots[place] == 0 {
            break;
        }
        place += slots[place] as usize;
    }
    place
}

// The words of so many records between two data counts, in order and in one piece.
pub(crate) fn gather(
    slots: &[u64],
    copy: &mut [u64],
    records: u32,
    hdrsize: u32,
    from: u32,
    to: u32,
) -> Part
    requires some { 0 < length slots.now }
    requires len { length slots.now ≤ 2 ^ 29 }
    requires copy { length copy.old ≡ length slots.now }
    requires order { from ≤ to }
    requires lie { Lie slots.now (length slots.now) hdrsize records from to }
    requires within { to ≤ from + length slots.now }
    ensures copy { length copy.new ≡ length copy.old }
    ensures order { result.from ≤ result.to }
    ensures within { IsWithin result slots.now copy.new }
    ensures words { words_in result slots.now copy.new ≡ in_order slots.now records from }
{
    let len = slots.len();
    let at = from as usize % len;
    let total = (to - from) as usize;
    if at + total <= len {
        return join(slots, copy, at, at + total, 0);
    }
    let stop = stop_of(slots, at, records, hdrsize, from, to);
    join(slots, copy, at, stop, at + total - len)
}

// So many tags from a tag count on, in one piece.
pub(crate) fn gather_tags(tags: &[u64], copy: &mut [u64], from: u32, count: u32) -> Part
    requires some { 0 < length tags.now }
    requires len { length tags.now ≤ 2 ^ 29 }
    requires copy { length copy.old ≡ length tags.now }
    requires within { count ≤ length tags.now }
    ensures copy { length copy.new ≡ length copy.old }
    ensures order { result.from ≤ result.to }
    ensures within { IsWithin result tags.now copy.new }
    ensures words { words_in result tags.now copy.new ≡ tags_at tags.now (length tags.now) count from }
{
    let len = tags.len();
    let at = from as usize % len;
    let total = count as usize;
    if at + total <= len {
        return join(tags, copy, at, at + total, 0);
    }
    join(tags, copy, at, len, at + total - len)
}
