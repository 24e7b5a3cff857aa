//! What stands at the front of bytes. Each function answers what it read with the bytes behind it.

ghost use Rattle.std.specs.Prelude.{◌≡◌, ◌<◌, ◌≤◌, [], ◌∷◌, IfOk, IfErr};
ghost use Rattle.gp_wire.specs.declared.cause.Cause.TheVariants.{Truncated};
ghost use Rattle.gp_wire.specs.Front.{Reads, groups_at, number_at, part_at, value_at, keyed, field_at};

use crate::cause::Cause;
use crate::field::{Bytes, Field, Value};

/// Field numbers are below.
const FIELD_NUMBERS: u64 = 1 << 29;

// The byte at the front, which is there in a number.
fn byte(bytes: &[u8]) -> Result<(u64, &[u8]), Cause>
    ensures front { IfOk result (λ x. bytes.now ≡ x.0 ∷ x.1.now) }
    ensures small { IfOk result (λ x. x.0 < 256) }
    ensures none { IfErr result (λ why. bytes.now ≡ []) }
    ensures cause { IfErr result (λ why. why ≡ Truncated) }
{
    match bytes {
        [] => Err(Cause::Truncated),
        [byte, rest @ ..] => Ok((u64::from(*byte), rest)),
    }
}

// The tenth byte of a number, which has the highest of its 64 bits.
#[tactic(auto, unfolding(crate::specs::Front::groups_at))]
fn last_group(bytes: &[u8]) -> Result<(u64, &[u8]), Cause>
    ensures read { Reads (λ x. (x.0, x.1.now)) result (groups_at 0 bytes.now) }
    ensures bit { IfOk result (λ x. x.0 ≤ 1) }
{
    match bytes {
        [] => Err(Cause::Truncated),
        [group, rest @ ..] => {
            if *group > 1 {
                return Err(Cause::LongVarint);
            }
            Ok((u64::from(*group), rest))
        }
    }
}

// A number of more than one byte, group by group of seven bits.
fn long_number(bytes: &[u8]) -> Result<(u64, &[u8]), Cause>
    ensures { Reads (λ x. (x.0, x.1.now)) result (number_at bytes.now) }
{
    let mut low = 0u64;
    let mut scale = 1u64;
    let mut rest = bytes;
    for _ in 0..9u32 {
        let (group, after) = byte(rest)?;
        if group < 128 {
            return Ok((low + group * scale, after));
        }
        low += (group - 128) * scale;
        scale *= 128;
        rest = after;
    }
    let (high, rest) = last_group(rest)?;
    Ok((low + high * scale, rest))
}

/// The number at the front, a varint. Most have one byte.
#[tactic(auto, unfolding(crate::specs::Front::groups_at))]
pub(crate) fn number(bytes: &[u8]) -> Result<(u64, &[u8]), Cause>
    ensures { Reads (λ x. (x.0, x.1.now)) result (number_at bytes.now) }
{
    match bytes {
        [group, rest @ ..] if *group < 128 => Ok((u64::from(*group), rest)),
        _ => long_number(bytes),
    }
}

// So many bytes.
#[tactic(auto, unfolding(crate::specs::Front::part_at))]
fn part(len: u64, bytes: &[u8]) -> Result<(&[u8], &[u8]), Cause>
    ensures { Reads (λ x. (x.0.now, x.1.now)) result (part_at len bytes.now) }
{
    if (bytes.len() as u64) < len {
        return Err(Cause::Truncated);
    }
    let (part, rest) = bytes.split_at(len as usize);
    Ok((part, rest))
}

// What follows a key with this wire type.
#[tactic(auto, unfolding(crate::specs::Front::value_at))]
fn value(wire_type: u64, bytes: &[u8]) -> Result<(Value<'_>, &[u8]), Cause>
    ensures { Reads (λ x. (x.0, x.1.now)) result (value_at wire_type bytes.now) }
{
    match wire_type {
        0 => {
            let (n, rest) = number(bytes)?;
            Ok((Value::Number(n), rest))
        }
        1 => {
            let (eight, rest) = part(8, bytes)?;
            Ok((Value::Eight(Bytes::new(eight)), rest))
        }
        2 => {
            let (len, rest) = number(bytes)?;
            let (content, rest) = part(len, rest)?;
            Ok((Value::Part(Bytes::new(content)), rest))
        }
        5 => {
            let (four, rest) = part(4, bytes)?;
            Ok((Value::Four(Bytes::new(four)), rest))
        }
        _ => Err(Cause::BadWireType),
    }
}

// The field that a key begins.
#[tactic(auto, unfolding(crate::specs::Front::keyed))]
fn keyed(key: u64, bytes: &[u8]) -> Result<(Field<'_>, &[u8]), Cause>
    ensures { Reads (λ x. (x.0, x.1.now)) result (keyed key bytes.now) }
{
    let number = key / 8;
    if number < 1 || number >= FIELD_NUMBERS {
        return Err(Cause::BadKey);
    }
    let (value, rest) = value(key % 8, bytes)?;
    let field = Field {
        number: number as u32,
        value,
    };
    Ok((field, rest))
}

/// The field at the front.
#[tactic(auto, unfolding(crate::specs::Front::field_at))]
pub(crate) fn field(bytes: &[u8]) -> Result<(Field<'_>, &[u8]), Cause>
    ensures { Reads (λ x. (x.0, x.1.now)) result (field_at bytes.now) }
{
    let (key, rest) = number(bytes)?;
    keyed(key, rest)
}
