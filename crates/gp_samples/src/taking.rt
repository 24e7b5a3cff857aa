ghost use Rattle.std.specs.Prelude.{◌≡◌, ◌+◌, false, IfOk, OnOk, OnErr};
ghost use Rattle.gp_ring.specs.TwoEnds.{Reads};
ghost use Rattle.gp_samples.specs.RunEnds.{AddsTaken, took_of};

use crate::took::Took;
use gp_cpu::Collector;
use gp_isa::Memory;
use gp_ring::{Reader, Taken};
use std::alloc::Global;

/// A read of the ring between two threads: what the reader takes goes behind the records. Where there is no memory the records are
/// as before, and what it took from the ring is gone.
pub fn take(alloc: Global, reader: &mut Reader, cpu: &mut Collector) -> Result<Took, Memory>
    requires { reader.old.ring.hdrsize ≡ 1 }
    ensures reads { Reads reader.old reader.new }
    ensures ring { reader.new.ring ≡ reader.old.ring }
    ensures loads { reader.new.loads ≡ reader.old.loads + 1 }
    ensures looked { reader.new.looked ≡ false }
    ensures answer { IfOk result (λ took. took ≡ took_of reader.new.hand) }
    ensures records { OnOk result (AddsTaken reader.old reader.new cpu.old cpu.new) }
    ensures err { OnErr result (cpu.new ≡ cpu.old) }
{
    match reader.read() {
        Taken::Batch { words, tags } => {
            cpu.add(alloc, words, tags)?;
            Ok(Took::Records)
        }
        Taken::Lost { count, time } => {
            cpu.add_lost(alloc, count, time)?;
            Ok(Took::Records)
        }
        Taken::Raced { .. } => Ok(Took::Nothing),
        Taken::Nothing => Ok(Took::Nothing),
        Taken::End => Ok(Took::End),
    }
}
