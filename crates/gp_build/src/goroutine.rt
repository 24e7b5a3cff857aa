ghost use Rattle.std.specs.Prelude.{◌≡◌, IfOk};
ghost use Rattle.gp_wire.specs.RoundTrip.{IsValid};
ghost use Rattle.gp_build.specs.Profile.{goroutines, goroutine_header, goroutine_profile_of};

use crate::building::profile;
use crate::messages::one;
use crate::sample::{Header, Kind};
use crate::samples::samples;
use gp_isa::{Memory, Program};
use gp_stack::Records;
use gp_wire::Profile;
use std::alloc::Global;

// Goroutines, counted.
fn kind(alloc: Global) -> Result<Kind, Memory>
    ensures { IfOk result (λ kind. kind ≡ goroutines) }
{
    Kind::new(alloc, "goroutine", "count")
}

#[tactic(auto, unfolding(crate::specs::Profile::goroutine_header))]
fn header(alloc: Global) -> Result<Header, Memory>
    ensures { IfOk result (λ header. header ≡ goroutine_header) }
{
    Ok(Header {
        types: one(alloc, kind(alloc)?)?,
        period_type: Some(kind(alloc)?),
        period: 1,
        duration: 0,
    })
}

/// The goroutine profile of records: one sample for each stack with labels that records show, its value the number of
/// those records, with a period of 1 goroutine.
pub fn goroutine_profile<'a>(
    alloc: Global,
    program: &'a Program,
    file: &'a str,
    records: &'a Records,
) -> Result<Profile, Memory>
    ensures profile { IfOk result (λ profile. profile ≡ goroutine_profile_of program.now file.now records.now) }
    ensures valid { IfOk result (λ profile. IsValid profile) }
{
    let samples = samples(alloc, program.parts(), records.as_slice())?;
    let header = header(alloc)?;
    profile(alloc, program, file, &header, samples.as_slice())
}
