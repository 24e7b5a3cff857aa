ghost use Rattle.std.specs.Prelude.{◌≡◌, ◌≤◌, ◌+◌, ◌++◌, not, length, map, IfOk, OnOk, OnErr};
ghost use Rattle.gp_ring.specs.PlainRing.{closed, looked, acted, records_taken};
ghost use Rattle.gp_cpu.specs.Records.{ring_record_of};
ghost use Rattle.gp_samples.specs.RunRing.{IsReadable, is_end, taken_to_end};

use gp_cpu::Collector;
use gp_isa::Memory;
use gp_ring::{Ring, Taken};
use std::alloc::Global;

/// A read: what it takes goes behind the records. It tells whether it didn't find the end. Where there is no memory the
/// records are as before, and what it took from the ring is gone.
pub fn read(alloc: Global, ring: &mut Ring, cpu: &mut Collector) -> Result<bool, Memory>
    requires { IsReadable ring.old }
    ensures ring { ring.new ≡ acted (looked ring.old) }
    ensures records { OnOk result (map ring_record_of cpu.new ≡ map ring_record_of cpu.old ++ records_taken (looked ring.old)) }
    ensures err { OnErr result (cpu.new ≡ cpu.old) }
    ensures more { IfOk result (λ more. more ≡ not (is_end (acted (looked ring.old)).hand)) }
{
    match ring.read() {
        Taken::Batch { words, tags } => cpu.add(alloc, words, tags)?,
        Taken::Lost { count, time } => cpu.add_lost(alloc, count, time)?,
        Taken::Raced { .. } => {}
        Taken::Nothing => {}
        Taken::End => return Ok(false),
    }
    Ok(true)
}

/// Closes the ring and reads until the end is found, which takes three reads at most. It tells how many it took.
pub fn read_to_end(alloc: Global, ring: &mut Ring, cpu: &mut Collector) -> Result<u64, Memory>
    requires { IsReadable ring.old }
    ensures records { OnOk result (map ring_record_of cpu.new ≡ map ring_record_of cpu.old ++ taken_to_end 3 (closed ring.old)) }
    ensures most { IfOk result (λ reads. reads ≤ 3) }
    ensures least { IfOk result (λ reads. 1 ≤ reads) }
    ensures each { IfOk result (λ reads. reads ≤ length (taken_to_end 3 (closed ring.old)) + 1) }
{
    ring.close();
    let mut reads = 1;
    while read(alloc, ring, cpu)? {
        reads += 1;
    }
    Ok(reads)
}
