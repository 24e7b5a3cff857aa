ghost use Rattle.std.specs.Prelude.{◌≡◌, IfOk};
ghost use Rattle.gp_journal.specs.Settings.{AreInRange};
ghost use Rattle.gp_top.specs.kept.Steps.{IsRan};

use crate::report::{Complete, Ran, report_on};
use gp_isa::{Memory, Program};
use gp_machine::{Run, Settings};
use gp_workers::{Finished, Gate, run_all};
use std::alloc::Global;
use std::marker::Brand;
use std::sync::Wait;
use std::thread::Threads;

fn run_named<R: Run + Send + Sync, T: Threads + Wait + Sync, G: Gate>(
    rt: &T,
    alloc: Global,
    program: &Program,
    settings: &Settings,
    gate: &G,
) -> Result<Ran, Memory>
    requires program { program.now ≡ R.program }
    requires settings { settings.now ≡ R.settings }
    requires range { AreInRange settings.now }
    ensures { IfOk result (IsRan R.program R.settings) }
{
    let Finished {
        machine,
        records,
        block,
        mutex,
        cpu,
        done,
        made,
        ..
    } = run_all::<R, T, G>(rt, alloc, program, settings, gate)?;
    let complete = Complete {
        machine,
        records,
        block,
        mutex,
        cpu,
        done,
        made,
    };
    report_on(alloc, program, complete)
}

/// Runs a program on threads, to the end, and reports on it. In which order its entries come is open.
pub(crate) fn run<T: Threads + Wait + Sync, G: Gate>(
    rt: &T,
    alloc: Global,
    program: &Program,
    settings: &Settings,
    gate: &G,
) -> Result<Ran, Memory>
    requires { AreInRange settings.now }
    ensures { IfOk result (IsRan program.now settings.now) }
{
    run_named::<Brand, T, G>(rt, alloc, program, settings, gate)
}
