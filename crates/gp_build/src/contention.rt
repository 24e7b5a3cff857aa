ghost use Rattle.std.specs.Prelude.{◌≡◌, map, IfOk};
ghost use Rattle.gp_wire.specs.RoundTrip.{IsValid};
ghost use Rattle.gp_build.specs.Site.{site_of};
ghost use Rattle.gp_build.specs.Contention.{contentions, delays, contention_header, capped, sample_of_sum, contention_profile_of};

use crate::building::profile;
use crate::messages::room;
use crate::sample::{Header, Kind, StackSample};
use crate::site::{Site, Sites};
use gp_events::{Sum, Sums};
use gp_isa::{Frame, Memory, Program, Sequence};
use gp_wire::Profile;
use std::alloc::Global;

fn contentions(alloc: Global) -> Result<Kind, Memory>
    ensures { IfOk result (λ kind. kind ≡ contentions) }
{
    Kind::new(alloc, "contentions", "count")
}

fn delays(alloc: Global) -> Result<Kind, Memory>
    ensures { IfOk result (λ kind. kind ≡ delays) }
{
    Kind::new(alloc, "delay", "nanoseconds")
}

#[tactic(auto, unfolding(crate::specs::Contention::contention_header))]
fn header(alloc: Global) -> Result<Header, Memory>
    ensures { IfOk result (λ header. header ≡ contention_header) }
{
    let mut types = room(alloc, 2)?;
    types.push(contentions(alloc)?)?;
    types.push(delays(alloc)?)?;
    Ok(Header {
        types,
        period_type: Some(contentions(alloc)?),
        period: 1,
        duration: 0,
    })
}

/// A sum as it is written.
pub(crate) fn capped(sum: u128) -> i64
    ensures { result ≡ capped sum }
{
    sum.min(9_223_372_036_854_775_807) as i64
}

/// The sites of a stack's frames.
pub(crate) fn sites(alloc: Global, stack: &[Frame]) -> Result<Sites, Memory>
    ensures { IfOk result (λ sites. sites ≡ map site_of stack.now) }
{
    let mut sites = room(alloc, stack.len())?;
    for frame in stack {
        sites.push(Site::new(*frame))?;
    }
    Ok(sites)
}

fn sample(alloc: Global, sum: &Sum) -> Result<StackSample, Memory>
    ensures { IfOk result (λ sample. sample ≡ sample_of_sum sum.now) }
{
    let mut values = room(alloc, 2)?;
    values.push(capped(sum.count))?;
    values.push(capped(sum.delay))?;
    Ok(StackSample {
        stack: sites(alloc, sum.stack.as_slice())?,
        set: 0,
        values,
    })
}

fn samples(alloc: Global, sums: &[Sum]) -> Result<Vec<StackSample>, Memory>
    ensures { IfOk result (λ samples. samples.items ≡ map sample_of_sum sums.now) }
{
    let mut samples = Vec::with_capacity(alloc, sums.len())?;
    for sum in sums {
        samples.push(sample(alloc, sum)?)?;
    }
    Ok(samples)
}

/// The block or mutex profile of sums of waits: one sample for each, in their order, its values how many waits there
/// were and how many nanoseconds they took, each 2^63 - 1 where the sum is above that, with a period of 1 wait.
pub fn contention_profile<'a>(
    alloc: Global,
    program: &'a Program,
    file: &'a str,
    sums: &'a Sums,
) -> Result<Profile, Memory>
    ensures profile { IfOk result (λ profile. profile ≡ contention_profile_of program.now file.now sums.now) }
    ensures valid { IfOk result (λ profile. IsValid profile) }
{
    let samples = samples(alloc, sums.as_slice())?;
    let header = header(alloc)?;
    profile(alloc, program, file, &header, samples.as_slice())
}
