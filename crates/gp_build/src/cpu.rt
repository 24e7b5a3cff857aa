ghost use Rattle.std.specs.Prelude.{◌≡◌, ◌≤◌, ◌<◌, ◌*◌, ◌^◌, map, IfOk};
ghost use Rattle.gp_wire.specs.RoundTrip.{IsValid};
ghost use Rattle.gp_build.specs.Site.{site_of};
ghost use Rattle.gp_build.specs.Contention.{capped};
ghost use Rattle.gp_build.specs.Cpu.{sampled, processor_time, tick_time, cpu_header};
ghost use Rattle.gp_build.specs.Cpu.{sites_of_key, set_of_key, sample_of_cpu_sum, cpu_profile_of};

use crate::building::profile;
use crate::contention::{capped, sites};
use crate::messages::{one, room};
use crate::sample::{Header, Kind, StackSample};
use crate::site::{Site, Sites};
use gp_cpu::{CpuKey, CpuRecords, CpuSum, sums};
use gp_isa::{Memory, Program};
use gp_wire::Profile;
use std::alloc::Global;

fn sampled(alloc: Global) -> Result<Kind, Memory>
    ensures { IfOk result (λ kind. kind ≡ sampled) }
{
    Kind::new(alloc, "samples", "count")
}

fn processor_time(alloc: Global) -> Result<Kind, Memory>
    ensures { IfOk result (λ kind. kind ≡ processor_time) }
{
    Kind::new(alloc, "cpu", "nanoseconds")
}

// The nanoseconds between two ticks.
fn tick_time(hz: u32) -> u32
    requires { 1 ≤ hz }
    ensures time { result ≡ tick_time hz }
    ensures most { result ≤ 1000000000 }
{
    1_000_000_000 / hz
}

#[tactic(auto, unfolding(crate::specs::Cpu::cpu_header))]
fn header(alloc: Global, hz: u32, clock: u64) -> Result<Header, Memory>
    requires some_hz { 1 ≤ hz }
    requires clock { clock < 2 ^ 53 }
    ensures { IfOk result (λ header. header ≡ cpu_header hz clock) }
{
    let mut types = room(alloc, 2)?;
    types.push(sampled(alloc)?)?;
    types.push(processor_time(alloc)?)?;
    Ok(Header {
        types,
        period_type: Some(processor_time(alloc)?),
        period: i64::from(tick_time(hz)),
        duration: (1000 * clock) as i64,
    })
}

// The time of so many ticks, as it is written.
fn time(count: u128, period: u32) -> i64
    ensures { result ≡ capped (count * period) }
{
    capped(count.saturating_mul(u128::from(period)))
}

fn stack(alloc: Global, key: &CpuKey) -> Result<Sites, Memory>
    ensures { IfOk result (λ stack. stack ≡ sites_of_key key.now) }
{
    match key {
        CpuKey::At { stack, .. } => sites(alloc, stack.as_slice()),
        CpuKey::Lost => one(alloc, Site::lost()),
    }
}

fn set(key: &CpuKey) -> u8
    ensures { result ≡ set_of_key key.now }
{
    match key {
        CpuKey::At { tag, .. } if *tag < 256 => *tag as u8,
        _ => 0,
    }
}

fn sample(alloc: Global, sum: &CpuSum, period: u32) -> Result<StackSample, Memory>
    ensures { IfOk result (λ sample. sample ≡ sample_of_cpu_sum period sum.now) }
{
    let mut values = room(alloc, 2)?;
    values.push(capped(sum.count))?;
    values.push(time(sum.count, period))?;
    Ok(StackSample {
        stack: stack(alloc, &sum.key)?,
        set: set(&sum.key),
        values,
    })
}

fn samples(alloc: Global, sums: &[CpuSum], period: u32) -> Result<Vec<StackSample>, Memory>
    ensures { IfOk result (λ samples. samples.items ≡ map (sample_of_cpu_sum period) sums.now) }
{
    let mut samples = Vec::with_capacity(alloc, sums.len())?;
    for sum in sums {
        samples.push(sample(alloc, sum, period)?)?;
    }
    Ok(samples)
}

/// The CPU profile of the records that a reader took: one sample for each stack with each tag, the number of a label set,
/// and one for all that was lost, in the order in which they are first met. Its values are how many samples there were and
/// the nanoseconds that they stand for, each 2^63 - 1 where it is above that. `hz` is the ticks of a second, and `clock`
/// the instructions of the run, which count as 1,000 nanoseconds each. A tag above 255 shows no labels.
pub fn cpu_profile<'a>(
    alloc: Global,
    program: &'a Program,
    file: &'a str,
    records: &'a CpuRecords,
    hz: u32,
    clock: u64,
) -> Result<Profile, Memory>
    requires some_hz { 1 ≤ hz }
    requires clock { clock < 2 ^ 53 }
    ensures profile { IfOk result (λ profile. profile ≡ cpu_profile_of program.now file.now records.now hz clock) }
    ensures valid { IfOk result (λ profile. IsValid profile) }
{
    let sums = sums(alloc, records)?;
    let samples = samples(alloc, sums.as_slice(), tick_time(hz))?;
    let header = header(alloc, hz, clock)?;
    profile(alloc, program, file, &header, samples.as_slice())
}
