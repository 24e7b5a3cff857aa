//! Packed numbers, one behind the other in a part.

ghost use Rattle.std.specs.Prelude.{◌≡◌, None, ◌++◌, map, OnOk, IfOk, IfErr};
ghost use Rattle.gp_wire.specs.Packed.{packed_numbers, packed_cause};
ghost use Rattle.gp_wire.specs.Reading.{StopsBy};

use crate::encoding::Word;
use crate::error::Stop;
use crate::front::number;
use gp_isa::{Memory, Sequence};
use std::alloc::Global;
use std::mem;

// How many numbers end in these bytes.
fn number_count(bytes: &[u8]) -> usize {
    bytes.iter().filter(|byte| **byte < 128).count()
}

// Room for so many numbers more. The first ones get just that, since most lists have one part. A list that grows again
// at least doubles its room, so that many small parts take no longer than a large one.
fn make_room<T>(items: &mut Vec<T>, more: usize) -> Result<(), Memory>
    ensures { items.new.items ≡ items.old.items }
{
    if items.is_empty() {
        items.reserve_exact(more)?;
    } else {
        items.reserve(more)?;
    }
    Ok(())
}

fn push_numbers<T: Word>(items: &mut Vec<T>, bytes: &[u8]) -> Result<(), Stop>
    ensures taken { OnOk result (items.new.items ≡ items.old.items ++ map T.of_word (packed_numbers bytes.now)) }
    ensures fine { OnOk result (packed_cause bytes.now ≡ None) }
    ensures fault { IfErr result (StopsBy (packed_cause bytes.now)) }
{
    let mut rest = bytes;
    while !rest.is_empty() {
        let (word, after) = number(rest)?;
        items.push(T::of_word(word))?;
        rest = after;
    }
    Ok(())
}

/// The numbers of a part go to the end of a list.
pub(crate) fn unpack<T: Word>(
    alloc: Global,
    list: &mut Sequence<T>,
    bytes: &[u8],
) -> Result<(), Stop>
    ensures taken { OnOk result (list.new ≡ list.old ++ map T.of_word (packed_numbers bytes.now)) }
    ensures fine { OnOk result (packed_cause bytes.now ≡ None) }
    ensures fault { IfErr result (StopsBy (packed_cause bytes.now)) }
{
    let mut items = mem::replace(list, Sequence::new(alloc)).into_vec();
    make_room(&mut items, number_count(bytes))?;
    push_numbers(&mut items, bytes)?;
    *list = Sequence::from_vec(items);
    Ok(())
}

/// Looks for a fault in packed numbers that are kept nowhere.
pub(crate) fn check_packed(bytes: &[u8]) -> Result<(), Stop>
    ensures fine { OnOk result (packed_cause bytes.now ≡ None) }
    ensures fault { IfErr result (StopsBy (packed_cause bytes.now)) }
{
    let mut rest = bytes;
    while !rest.is_empty() {
        let (_, after) = number(rest)?;
        rest = after;
    }
    Ok(())
}
