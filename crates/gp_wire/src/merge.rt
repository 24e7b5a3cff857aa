//! Messages from bytes, field by field.

ghost use Rattle.std.specs.Prelude.{◌≡◌, List, Option, None, [], ◌∷◌, ◌++◌, ◌≤◌, length, OnOk, IfOk, IfErr};
ghost use Rattle.gp_wire.specs.declared.cause.Cause.{Cause};
ghost use Rattle.gp_wire.specs.declared.field.Field.{Field};
ghost use Rattle.gp_wire.specs.Fields.{fields_of, first_fault, first_cause};
ghost use Rattle.gp_wire.specs.Reading.{StopsBy, HaltsBy};
ghost use Rattle.gp_wire.specs.kept.Taking.{cause_at, TakesFirst};

use crate::error::{Halt, Stop};
use crate::field::Field;
use crate::front::field;
use std::alloc::Global;

/// A message of `profile.proto` as it is read: what its fields so far give.
pub(crate) trait FromFields: Drop {
    /// What fields give.
    ghost made: { List Field → Self };

    /// The fault inside a field.
    ghost check: { Field → Option Cause };

    /// What no field gives.
    fn without_fields(alloc: Global) -> Self
        ensures { result ≡ made [] };

    /// One field more.
    fn take(&mut self, alloc: Global, field: &Field<'_>) -> Result<(), Stop>
        ensures taken { (fields : List Field) → self.old ≡ made fields → OnOk result (self.new ≡ made (fields ++ field.now ∷ [])) }
        ensures fine { OnOk result (check field.now ≡ None) }
        ensures fault { IfErr result (StopsBy (check field.now)) };
}

// The field at the front goes into a message. The bytes behind it are left.
fn take_first<'a, M: FromFields>(
    alloc: Global,
    message: &mut M,
    bytes: &'a [u8],
) -> Result<&'a [u8], Stop>
    ensures taken { IfOk result (λ rest. TakesFirst M.made M.check bytes.now rest.now message.old message.new) }
    ensures fault { IfErr result (StopsBy (cause_at M.check bytes.now)) }
{
    let (front, rest) = field(bytes)?;
    message.take(alloc, &front)?;
    Ok(rest)
}

/// All fields go into a message, up to the first fault.
pub(crate) fn take_all<M: FromFields>(
    alloc: Global,
    message: &mut M,
    bytes: &[u8],
) -> Result<(), Halt>
    ensures taken { (fields : List Field) → message.old ≡ M.made fields
        → OnOk result (message.new ≡ M.made (fields ++ fields_of bytes.now)) }
    ensures fine { OnOk result (first_fault M.check bytes.now ≡ None) }
    ensures fault { IfErr result (HaltsBy (first_fault M.check bytes.now)) }
    ensures near { IfErr result (λ halt. halt.left ≤ length bytes.now) }
{
    let mut rest = bytes;
    while !rest.is_empty() {
        match take_first(alloc, message, rest) {
            Ok(after) => rest = after,
            Err(stop) => {
                return Err(Halt {
                    left: rest.len(),
                    stop,
                });
            }
        }
    }
    Ok(())
}

/// All fields of a part go into a message.
pub(crate) fn merge<M: FromFields>(alloc: Global, message: &mut M, bytes: &[u8]) -> Result<(), Stop>
    ensures taken { (fields : List Field) → message.old ≡ M.made fields
        → OnOk result (message.new ≡ M.made (fields ++ fields_of bytes.now)) }
    ensures fine { OnOk result (first_cause M.check bytes.now ≡ None) }
    ensures fault { IfErr result (StopsBy (first_cause M.check bytes.now)) }
{
    match take_all(alloc, message, bytes) {
        Ok(()) => Ok(()),
        Err(halt) => Err(halt.stop),
    }
}

/// The message that a part is.
pub(crate) fn message<M: FromFields>(alloc: Global, bytes: &[u8]) -> Result<M, Stop>
    ensures made { IfOk result (λ message. message ≡ M.made (fields_of bytes.now)) }
    ensures fine { OnOk result (first_cause M.check bytes.now ≡ None) }
    ensures fault { IfErr result (StopsBy (first_cause M.check bytes.now)) }
{
    let mut message = M::without_fields(alloc);
    merge(alloc, &mut message, bytes)?;
    Ok(message)
}
