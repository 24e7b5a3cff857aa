ghost use Rattle.std.specs.Prelude.{◌≡◌, ◌+◌, ◌*◌, ℕ, [], ◌∷◌, ◌++◌, length, map, OnOk, IfOk};
ghost use Rattle.std.specs.List.{flat_map};
ghost use Rattle.gp_wire.specs.Varint.{varint};
ghost use Rattle.gp_wire.specs.Field.{spelled};
ghost use Rattle.gp_wire.specs.Canonical.{twos_complement, scalar, signed, part as one_part, packed};
ghost use Rattle.gp_wire.specs.Messages.{int64_of};

use gp_isa::Memory;

/// The wire type of a number.
const VARINT: u32 = 0;

/// The wire type of a part of bytes, whose length stands before it.
const LEN: u32 = 2;

fn put_varint(out: &mut Vec<u8>, value: u64) -> Result<(), Memory>
    ensures { OnOk result (out.new.items ≡ out.old.items ++ varint value) }
{
    let mut left = value;
    while left >= 128 {
        out.push(128 + (left % 128) as u8)?;
        left /= 128;
    }
    out.push(left as u8)?;
    Ok(())
}

fn put_key(out: &mut Vec<u8>, number: u32, wire_type: u32) -> Result<(), Memory>
    ensures { OnOk result (out.new.items ≡ out.old.items ++ varint (number * 8 + wire_type)) }
{
    put_varint(out, u64::from(number) * 8 + u64::from(wire_type))
}

/// Appends a number, unless it is 0.
#[tactic(auto, unfolding(crate::specs::Field::spelled, crate::specs::Canonical::scalar))]
pub fn put_number(out: &mut Vec<u8>, number: u32, value: u64) -> Result<(), Memory>
    ensures { OnOk result (out.new.items ≡ out.old.items ++ spelled (scalar number value)) }
{
    if value != 0 {
        put_key(out, number, VARINT)?;
        put_varint(out, value)?;
    }
    Ok(())
}

/// Appends a number, unless it is 0. A negative one takes ten bytes.
pub fn put_signed(out: &mut Vec<u8>, number: u32, value: i64) -> Result<(), Memory>
    ensures { OnOk result (out.new.items ≡ out.old.items ++ spelled (signed number value)) }
{
    put_number(out, number, value.cast_unsigned())
}

// What stands in front of a part: its key and its length in bytes.
fn put_head(out: &mut Vec<u8>, number: u32, len: usize) -> Result<(), Memory>
    ensures { OnOk result (out.new.items ≡ out.old.items ++ (varint (number * 8 + 2) ++ varint len)) }
{
    put_key(out, number, LEN)?;
    put_varint(out, len as u64)
}

/// Appends a part of bytes, also an empty one.
#[tactic(auto, unfolding(crate::specs::Field::spelled))]
pub fn put_part(out: &mut Vec<u8>, number: u32, part: &[u8]) -> Result<(), Memory>
    ensures { OnOk result (out.new.items ≡ out.old.items ++ spelled (one_part number part.now ∷ [])) }
{
    put_head(out, number, part.len())?;
    out.extend_from_slice(part)?;
    Ok(())
}

/// A number that the wire has as a varint.
pub trait Word: Copy {
    /// The number without a sign.
    ghost word: { Self → ℕ };

    /// The number that it stands for.
    ghost of_word: { ℕ → Self };

    fn word(self) -> u64
        ensures { result ≡ word self };

    fn of_word(bits: u64) -> Self
        ensures { result ≡ of_word bits };
}

impl Word for u64 {
    ghost word = { λ n. n };

    ghost of_word = { λ n. n };

    fn word(self) -> u64 {
        self
    }

    fn of_word(bits: u64) -> u64 {
        bits
    }
}

impl Word for i64 {
    ghost word = { twos_complement };

    ghost of_word = { int64_of };

    fn word(self) -> u64 {
        self.cast_unsigned()
    }

    fn of_word(bits: u64) -> i64 {
        bits.cast_signed()
    }
}

// How many bytes a number takes.
fn varint_len(value: u64) -> usize
    ensures { result ≡ length (varint value) }
{
    let mut left = value;
    let mut len = 1;
    while left >= 128 {
        left /= 128;
        len += 1;
    }
    len
}

// How many bytes packed numbers take. No part in memory has more than a `usize` counts.
fn packed_len<T: Word>(items: &[T]) -> Result<usize, Memory>
    ensures { IfOk result (λ len. len ≡ length (flat_map varint (map T.word items.now))) }
{
    let mut len = 0usize;
    for item in items {
        len = len.checked_add(varint_len(item.word())).ok_or(Memory)?;
    }
    Ok(len)
}

fn pack<T: Word>(out: &mut Vec<u8>, items: &[T]) -> Result<(), Memory>
    ensures { OnOk result (out.new.items ≡ out.old.items ++ flat_map varint (map T.word items.now)) }
{
    for item in items {
        put_varint(out, item.word())?;
    }
    Ok(())
}

/// Appends repeated numbers in one part, or nothing where there are none. Their length is counted first, since it
/// stands before them, so that each byte is written once.
pub fn put_packed<T: Word>(out: &mut Vec<u8>, number: u32, items: &[T]) -> Result<(), Memory>
    ensures { OnOk result (out.new.items ≡ out.old.items ++ spelled (packed number (map T.word items.now))) }
{
    if items.is_empty() {
        return Ok(());
    }
    put_head(out, number, packed_len(items)?)?;
    pack(out, items)
}
