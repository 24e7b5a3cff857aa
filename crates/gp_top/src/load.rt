ghost use Rattle.std.specs.Prelude.{◌≡◌, None, IfOk, IfErr, OnOk};
ghost use Rattle.gp_isa.specs.Limits.{file_bytes};
ghost use Rattle.gp_wire.specs.Valid.{cause_of};
ghost use Rattle.gp_top.specs.Asked.{IsAccepted, IsProfile, IsReadTo, profile_bytes};
ghost use Rattle.gp_top.specs.kept.Steps.{LoadStops, ProfileStops};

use crate::stop::Stop;
use gp_io::{Source, read_all};
use gp_isa::{Program, limits};
use gp_text::read;
use gp_wire::{Profile, decode};
use std::alloc::Global;

/// The most bytes of a profile.
const PROFILE_BYTES: usize = 67_108_864;

/// Reads the program that the source holds.
pub(crate) fn load<S: Source>(alloc: Global, source: &mut S) -> Result<Program, Stop>
    ensures accepted { IfOk result (IsAccepted (S.left source.old)) }
    ensures whole { OnOk result (IsReadTo file_bytes (S.left source.old) (S.left source.new)) }
    ensures well { OnOk result (S.faults source.new ≡ S.faults source.old) }
    ensures stopped { IfErr result (LoadStops S.left S.faults source.old source.new) }
{
    let bytes = read_all(alloc, source, limits::FILE_BYTES)?;
    Ok(read(alloc, bytes.as_slice())?)
}

/// Reads the profile that the source holds.
pub(crate) fn load_profile<S: Source>(alloc: Global, source: &mut S) -> Result<Profile, Stop>
    ensures accepted { IfOk result (IsProfile (S.left source.old)) }
    ensures valid { IfOk result (λ profile. cause_of profile ≡ None) }
    ensures whole { OnOk result (IsReadTo profile_bytes (S.left source.old) (S.left source.new)) }
    ensures well { OnOk result (S.faults source.new ≡ S.faults source.old) }
    ensures stopped { IfErr result (ProfileStops S.left S.faults source.old source.new) }
{
    let bytes = read_all(alloc, source, PROFILE_BYTES)?;
    Ok(decode(alloc, bytes.as_slice())?)
}
