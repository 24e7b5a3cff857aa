ghost use Rattle.std.specs.Prelude.{◌≡◌, ◌≢◌};
ghost use Rattle.gp_journal.specs.Settings.{AreInRange};
ghost use Rattle.gp_report.specs.Summary.{summary_text};
ghost use Rattle.gp_top.specs.Exit.{exit_memory};
ghost use Rattle.gp_top.specs.Files.{files_of, totals_of, summary_of};
ghost use Rattle.gp_top.specs.Status as definition;
ghost use Rattle.gp_top.specs.Top.{ComesTo, IsTold};
ghost use Rattle.gp_top.specs.kept.Steps.{IsRan};

use crate::report::Ran;
use crate::save::{SaveError, put_files};
use crate::status::{DEADLOCK, DONE, FAULT, FULL, MEMORY, PROFILE_REFUSED, PUT_FAULT};
use crate::totals::totals;
use gp_io::{Sink, Store, write_all};
use gp_isa::Program;
use gp_machine::{Ended, Settings};
use gp_report::{Report, summary};
use std::alloc::Global;

// The status that tells how a run ended.
fn status_of(report: &Report) -> u8
    ensures { result ≡ definition.status_of report.now }
{
    match report.ended {
        Ended::Fault { .. } => FAULT,
        Ended::Full => FULL,
        Ended::Deadlock => DEADLOCK,
        Ended::Main => {
            if report.refused.is_empty() {
                DONE
            } else {
                PROFILE_REFUSED
            }
        }
    }
}

/// Writes a text, and gives the status that tells how all ended; or, where it can't be written, the one of that.
pub(crate) fn tell<O: Sink>(text: &[u8], ending: u8, out: &mut O) -> u8
    ensures { IsTold text.now ending (O.written out.old, O.faults out.old) (O.written out.new, O.faults out.new) result }
{
    match write_all(out, text) {
        Ok(()) => ending,
        Err(_) => PUT_FAULT,
    }
}

// Writes the summary of a run whose files were put, and gives the exit status.
fn summarize<O: Sink>(alloc: Global, ran: &Ran, out: &mut O) -> u8
    ensures told { result ≢ exit_memory
        → IsTold (summary_text ran.now.report (totals_of ran.now.block ran.now.mutex)) (definition.status_of ran.now.report)
        (O.written out.old, O.faults out.old) (O.written out.new, O.faults out.new) result }
    ensures memory { result ≡ exit_memory → out.new ≡ out.old }
{
    let sums = totals(ran.block.as_slice(), ran.mutex.as_slice());
    match summary(alloc, &ran.report, &sums) {
        Ok(text) => tell(text.as_bytes(), status_of(&ran.report), out),
        Err(_) => MEMORY,
    }
}

/// Puts the files of a run that is complete, writes its summary, and gives the exit status.
pub(crate) fn finish<K: Store, O: Sink>(
    alloc: Global,
    program: &Program,
    file: &str,
    settings: &Settings,
    ran: &Ran,
    store: &mut K,
    out: &mut O,
) -> u8
    requires range { AreInRange settings.now }
    requires ran { IsRan program.now settings.now ran.now }
    ensures comes { ComesTo (files_of program.now settings.now file.now ran.now.report)
        (summary_of program.now settings.now ran.now.report) (definition.status_of ran.now.report)
        (K.files store.old, K.asked store.old, K.faults store.old) (K.files store.new, K.asked store.new, K.faults store.new)
        (O.written out.old, O.faults out.old) (O.written out.new, O.faults out.new) result }
    ensures memory { result ≡ exit_memory → out.new ≡ out.old }
{
    match put_files(alloc, program, file, settings, ran, store) {
        Ok(()) => summarize(alloc, ran, out),
        Err(SaveError::PutFault) => PUT_FAULT,
        Err(SaveError::Memory) => MEMORY,
    }
}
