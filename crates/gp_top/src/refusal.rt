ghost use Rattle.std.specs.Prelude.{◌≡◌, ◌≢◌, ◌⊎◌, None};
ghost use Rattle.gp_report.specs.Fault.{fault_line};
ghost use Rattle.gp_top.specs.Exit as definition;
ghost use Rattle.gp_top.specs.Exit.{exit_memory};
ghost use Rattle.gp_top.specs.Top.{IsWritten};

use crate::outcome::Outcome;
use crate::status::MEMORY;
use crate::stop::exit_of;
use gp_io::{Sink, write_all};
use gp_report::{Fault, fault};
use std::alloc::Global;

/// The outcome of a fault, whose line is written first. Where the sink fails it has a prefix of the line, and the status stays.
pub(crate) fn refuse<O: Sink>(alloc: Global, what: &Fault, out: &mut O) -> Outcome
    ensures status { (result.status ≡ definition.exit_of what.now) ⊎ (result.status ≡ exit_memory) }
    ensures report { result.report ≡ None }
    ensures written { result.status ≢ exit_memory
        → IsWritten (fault_line what.now) (O.written out.old, O.faults out.old) (O.written out.new, O.faults out.new) }
    ensures memory { result.status ≡ exit_memory → out.new ≡ out.old }
{
    let Ok(line) = fault(alloc, what) else {
        return Outcome::without_report(MEMORY);
    };
    let _ = write_all(out, line.as_bytes());
    Outcome::without_report(exit_of(what))
}
