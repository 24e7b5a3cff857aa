//! What a field gives to the parts of a message. Each function leaves what it is given as it is where the field has
//! another number, or a form that isn't the one it takes.

ghost use Rattle.std.specs.Prelude.{◌≡◌, List, ℕ, Option, None, [], ◌∷◌, ◌++◌, map, OnOk, IfOk, IfErr, option_and_then, option_to_list};
ghost use Rattle.std.specs.List.{flat_map};
ghost use Rattle.std.specs.Option.{option_copied};
ghost use Rattle.gp_wire.specs.declared.cause.Cause.{Cause as Why};
ghost use Rattle.gp_wire.specs.declared.field.Field.{Field};
ghost use Rattle.gp_wire.specs.Checks.{cause_under, text_cause};
ghost use Rattle.gp_wire.specs.Fields.{fields_of, first_cause};
ghost use Rattle.gp_wire.specs.Messages.{last_or, lone_numbers_under, numbers_under, parts_under, messages_under, merged_of, merged_under};
ghost use Rattle.gp_wire.specs.Packed.{packed_cause};
ghost use Rattle.gp_wire.specs.Reading.{StopsBy};

use crate::cause::Cause;
use crate::encoding::Word;
use crate::error::Stop;
use crate::field::{Field, Value};
use crate::merge::{FromFields, merge, message};
use crate::packed::{check_packed, unpack};
use gp_isa::{Memory, Sequence, Text};
use std::alloc::Global;
use std::str;

// The number that stands alone under a field number.
fn number_under(number: u32, field: &Field<'_>) -> Option<u64>
    ensures { lone_numbers_under number (field.now ∷ []) ≡ option_to_list result }
{
    if field.number != number {
        return None;
    }
    match &field.value {
        Value::Number(word) => Some(*word),
        _ => None,
    }
}

// The part that stands under a field number.
fn part_under<'a>(number: u32, field: &Field<'a>) -> Option<&'a [u8]>
    ensures part { parts_under number (field.now ∷ []) ≡ option_to_list (option_copied result) }
    ensures cause { (within : List ℕ → Option Why) → cause_under number within field.now ≡ option_and_then within (option_copied result) }
{
    if field.number != number {
        return None;
    }
    match &field.value {
        Value::Part(bytes) => Some(bytes.as_slice()),
        _ => None,
    }
}

/// A number that isn't repeated: the last one counts.
pub(crate) fn take_scalar<T: Word>(slot: &mut T, number: u32, field: &Field<'_>)
    ensures { slot.new ≡ last_or slot.old (map T.of_word (lone_numbers_under number (field.now ∷ []))) }
{
    if let Some(word) = number_under(number, field) {
        *slot = T::of_word(word);
    }
}

/// Repeated numbers, alone or packed.
pub(crate) fn take_numbers<T: Word>(
    alloc: Global,
    list: &mut Sequence<T>,
    number: u32,
    field: &Field<'_>,
) -> Result<(), Stop>
    ensures taken { OnOk result (list.new ≡ list.old ++ map T.of_word (numbers_under number (field.now ∷ []))) }
    ensures fine { OnOk result (cause_under number packed_cause field.now ≡ None) }
    ensures fault { IfErr result (StopsBy (cause_under number packed_cause field.now)) }
{
    if let Some(bytes) = part_under(number, field) {
        return unpack(alloc, list, bytes);
    }
    if let Some(word) = number_under(number, field) {
        list.push(T::of_word(word))?;
    }
    Ok(())
}

/// Repeated numbers that are kept nowhere.
pub(crate) fn pass_numbers(number: u32, field: &Field<'_>) -> Result<(), Stop>
    ensures fine { OnOk result (cause_under number packed_cause field.now ≡ None) }
    ensures fault { IfErr result (StopsBy (cause_under number packed_cause field.now)) }
{
    match part_under(number, field) {
        Some(bytes) => check_packed(bytes),
        None => Ok(()),
    }
}

// A list of one has room for one: most messages that are repeated within small ones stand there once.
fn push_message<M: Drop>(alloc: Global, list: &mut Sequence<M>, item: M) -> Result<(), Memory>
    ensures { OnOk result (list.new ≡ list.old ++ item ∷ []) }
{
    if list.is_empty() {
        *list = Sequence::from_vec(Vec::with_capacity(alloc, 1)?);
    }
    list.push(item)
}

/// A repeated message.
pub(crate) fn take_messages<M: FromFields>(
    alloc: Global,
    list: &mut Sequence<M>,
    number: u32,
    field: &Field<'_>,
) -> Result<(), Stop>
    ensures taken { OnOk result (list.new ≡ list.old ++ messages_under number M.made (field.now ∷ [])) }
    ensures fine { OnOk result (cause_under number (first_cause M.check) field.now ≡ None) }
    ensures fault { IfErr result (StopsBy (cause_under number (first_cause M.check) field.now)) }
{
    if let Some(bytes) = part_under(number, field) {
        let item = message(alloc, bytes)?;
        push_message(alloc, list, item)?;
    }
    Ok(())
}

// What the parts so far give.
fn merged_so_far<M: FromFields>(alloc: Global, slot: &mut Option<M>) -> M
    ensures { (so_far : List (List ℕ)) → slot.old ≡ merged_of M.made so_far → result ≡ M.made (flat_map fields_of so_far) }
{
    match slot.take() {
        Some(item) => item,
        None => M::without_fields(alloc),
    }
}

/// A message that isn't repeated: the fields of all its parts count.
pub(crate) fn take_merged<M: FromFields>(
    alloc: Global,
    slot: &mut Option<M>,
    number: u32,
    field: &Field<'_>,
) -> Result<(), Stop>
    ensures taken { (fields : List Field) → slot.old ≡ merged_under number M.made fields →
        OnOk result (slot.new ≡ merged_under number M.made (fields ++ field.now ∷ [])) }
    ensures fine { OnOk result (cause_under number (first_cause M.check) field.now ≡ None) }
    ensures fault { IfErr result (StopsBy (cause_under number (first_cause M.check) field.now)) }
{
    if let Some(bytes) = part_under(number, field) {
        let mut item = merged_so_far(alloc, slot);
        merge(alloc, &mut item, bytes)?;
        *slot = Some(item);
    }
    Ok(())
}

// The text that bytes are.
fn text(alloc: Global, bytes: &[u8]) -> Result<Text, Stop>
    ensures text { IfOk result (λ text. text ≡ bytes.now) }
    ensures fine { OnOk result (text_cause bytes.now ≡ None) }
    ensures fault { IfErr result (StopsBy (text_cause bytes.now)) }
{
    match str::from_utf8(bytes) {
        Ok(text) => Ok(Text::from_str(alloc, text)?),
        Err(_) => Err(Stop::Fault(Cause::BadUtf8)),
    }
}

/// A repeated text.
pub(crate) fn take_texts(
    alloc: Global,
    list: &mut Sequence<Text>,
    number: u32,
    field: &Field<'_>,
) -> Result<(), Stop>
    ensures taken { OnOk result (list.new ≡ list.old ++ parts_under number (field.now ∷ [])) }
    ensures fine { OnOk result (cause_under number text_cause field.now ≡ None) }
    ensures fault { IfErr result (StopsBy (cause_under number text_cause field.now)) }
{
    if let Some(bytes) = part_under(number, field) {
        let item = text(alloc, bytes)?;
        list.push(item)?;
    }
    Ok(())
}
