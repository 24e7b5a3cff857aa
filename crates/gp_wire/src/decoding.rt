ghost use Rattle.std.specs.Prelude.{◌≡◌, ◌≤◌, None, length, IfOk, IfErr};
ghost use Rattle.gp_wire.specs.Checks.{profile_check};
ghost use Rattle.gp_wire.specs.Fields.{first_fault};
ghost use Rattle.gp_wire.specs.Reading.{Gives, HaltsBy, IsRefusalOf, judged, value_of};
ghost use Rattle.gp_wire.specs.Valid.{cause_of};

use crate::error::{Halt, Stop, WireError};
use crate::merge::{FromFields, take_all};
use crate::profile::Profile;
use crate::whole::cause;
use std::alloc::Global;

// The refusal where reading stopped at a fault.
#[tactic(auto, unfolding(crate::specs::Reading::value_of))]
fn refusal(bytes: &[u8], halt: Halt) -> WireError
    requires near { halt.left ≤ length bytes.now }
    requires first { HaltsBy (first_fault profile_check bytes.now) halt }
    ensures { IsRefusalOf (value_of bytes.now) result }
{
    match halt.stop {
        Stop::Fault(cause) => WireError::Refused {
            at: bytes.len() - halt.left,
            cause,
        },
        Stop::Memory => WireError::Memory,
    }
}

// The profile that the fields give.
#[tactic(auto, unfolding(crate::specs::Reading::value_of))]
fn profile(alloc: Global, bytes: &[u8]) -> Result<Profile, WireError>
    ensures ok { IfOk result (λ profile. value_of bytes.now ≡ judged (length bytes.now) profile (cause_of profile)) }
    ensures refused { IfErr result (IsRefusalOf (value_of bytes.now)) }
{
    let mut profile = Profile::without_fields(alloc);
    match take_all(alloc, &mut profile, bytes) {
        Ok(()) => Ok(profile),
        Err(halt) => Err(refusal(bytes, halt)),
    }
}

/// Reads a profile in the uncompressed format of `profile.proto`, whoever wrote it: the profile that the bytes are, or
/// the place and the cause of the first fault, each exactly where `value_of` gives it.
///
/// Fields may stand in any order. Of a number that isn't repeated the last one counts, and a period type has the fields
/// of all its parts. Repeated numbers stand alone, packed or mixed. A field that gp doesn't keep, one whose number no
/// message has, and one whose wire type doesn't fit its number are read over. Samples may have any number of values.
///
/// Bytes are read once, from the first to the last, and texts are checked once. Memory is taken for the profile, and for
/// the ids of its locations and functions while they are looked for; `WireError::Memory` where it is refused.
pub fn decode(alloc: Global, bytes: &[u8]) -> Result<Profile, WireError>
    ensures ok { IfOk result (λ profile. value_of bytes.now ≡ Gives profile) }
    ensures valid { IfOk result (λ profile. cause_of profile ≡ None) }
    ensures refused { IfErr result (IsRefusalOf (value_of bytes.now)) }
{
    let profile = profile(alloc, bytes)?;
    match cause(alloc, &profile)? {
        None => Ok(profile),
        Some(cause) => Err(WireError::Refused {
            at: bytes.len(),
            cause,
        }),
    }
}
