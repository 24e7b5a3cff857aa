ghost use Rattle.std.specs.Prelude.{◌≡◌, None, IfSome};
ghost use Rattle.gp_journal.specs.Settings.{AreInRange};
ghost use Rattle.gp_top.specs.Exit.{exit_memory};
ghost use Rattle.gp_top.specs.Report.{ByNumbers, ByThreads};
ghost use Rattle.gp_top.specs.Task.{read_task};
ghost use Rattle.gp_top.specs.kept.Steps.{CameTo, IsAfterRun};

use crate::finish::finish;
use crate::outcome::Outcome;
use crate::status::MEMORY;
use crate::{by_numbers, by_threads};
use gp_io::{Sink, Store};
use gp_isa::Program;
use gp_machine::Settings;
use gp_workers::Gate;
use std::alloc::Global;
use std::sync::Wait;
use std::thread::Threads;

/// Runs a program in the order that its options' numbers choose, puts the files of the run, writes its summary, and gives the
/// outcome with the report. Where memory runs out before there is a report, nothing is put and nothing is written.
pub(crate) fn run_whole<K: Store, O: Sink>(
    alloc: Global,
    program: &Program,
    file: &str,
    settings: &Settings,
    store: &mut K,
    out: &mut O,
) -> Outcome
    requires { AreInRange settings.now }
    ensures run { IfSome result.report (CameTo (read_task ByNumbers file.now settings.now program.now)
        (K.files store.old, K.asked store.old, K.faults store.old) (K.files store.new, K.asked store.new, K.faults store.new)
        (O.written out.old, O.faults out.old) (O.written out.new, O.faults out.new) result.status) }
    ensures no_report { result.report ≡ None → result.status ≡ exit_memory }
    ensures nothing_put { result.report ≡ None → store.new ≡ store.old }
    ensures memory { result.status ≡ exit_memory → out.new ≡ out.old }
    ensures after_run { IsAfterRun result.status }
{
    let Ok(ran) = by_numbers::run(alloc, program, settings) else {
        return Outcome::without_report(MEMORY);
    };
    let status = finish(alloc, program, file, settings, &ran, store, out);
    Outcome {
        status,
        report: Some(ran.report),
    }
}

/// The same on threads, in whatever order their entries come.
pub(crate) fn run_on_threads<T: Threads + Wait + Sync, K: Store, O: Sink, G: Gate>(
    rt: &T,
    alloc: Global,
    program: &Program,
    file: &str,
    settings: &Settings,
    store: &mut K,
    out: &mut O,
    gate: &G,
) -> Outcome
    requires { AreInRange settings.now }
    ensures run { IfSome result.report (CameTo (read_task ByThreads file.now settings.now program.now)
        (K.files store.old, K.asked store.old, K.faults store.old) (K.files store.new, K.asked store.new, K.faults store.new)
        (O.written out.old, O.faults out.old) (O.written out.new, O.faults out.new) result.status) }
    ensures no_report { result.report ≡ None → result.status ≡ exit_memory }
    ensures nothing_put { result.report ≡ None → store.new ≡ store.old }
    ensures memory { result.status ≡ exit_memory → out.new ≡ out.old }
    ensures after_run { IsAfterRun result.status }
{
    let Ok(ran) = by_threads::run(rt, alloc, program, settings, gate) else {
        return Outcome::without_report(MEMORY);
    };
    let status = finish(alloc, program, file, settings, &ran, store, out);
    Outcome {
        status,
        report: Some(ran.report),
    }
}
