ghost use Rattle.std.specs.Prelude.{◌≡◌, IfOk};
ghost use Rattle.gp_journal.specs.Settings.{AreInRange};
ghost use Rattle.gp_journal.specs.Run.{state_of};
ghost use Rattle.gp_journal.specs.Told.{done_of, made_of};
ghost use Rattle.gp_top.specs.Report.{IsChosen};
ghost use Rattle.gp_top.specs.kept.Steps.{IsRan};

use crate::report::{Complete, Ran, report_on};
use gp_isa::{Memory, Program, Sequence};
use gp_machine::{Counts, Machine, Run, Settings};
use gp_sim::{Simulated, simulate};
use std::alloc::Global;
use std::marker::Brand;

// The instructions of each worker.
fn instructions<R: Run>(
    alloc: Global,
    settings: &Settings,
    machine: &Machine<R>,
) -> Result<Counts, Memory>
    requires settings { settings.now ≡ R.settings }
    requires range { AreInRange settings.now }
    ensures { IfOk result (λ done. done ≡ done_of (state_of R.program R.settings machine.now)) }
{
    let _ = machine.journal();
    let mut done = Vec::new(alloc);
    for w in 0..settings.workers {
        done.push(machine.done(w))?;
    }
    Ok(Sequence::from_vec(done))
}

// The entries of each actor, the profiler last.
fn entries_made<R: Run>(
    alloc: Global,
    settings: &Settings,
    machine: &Machine<R>,
) -> Result<Counts, Memory>
    requires settings { settings.now ≡ R.settings }
    requires range { AreInRange settings.now }
    ensures { IfOk result (λ made. made ≡ made_of R.settings machine.now) }
{
    let mut made = Vec::new(alloc);
    for actor in 0..settings.workers + 1 {
        made.push(machine.made(actor))?;
    }
    Ok(Sequence::from_vec(made))
}

fn run_named<R: Run>(alloc: Global, program: &Program, settings: &Settings) -> Result<Ran, Memory>
    requires program { program.now ≡ R.program }
    requires settings { settings.now ≡ R.settings }
    requires range { AreInRange settings.now }
    ensures ran { IfOk result (IsRan R.program R.settings) }
    ensures chosen { IfOk result (λ ran. IsChosen R.program R.settings ran.report) }
{
    let Simulated {
        machine,
        records,
        block,
        mutex,
        cpu,
        ..
    } = simulate::<R>(alloc, program, settings)?;
    let done = instructions(alloc, settings, &machine)?;
    let made = entries_made(alloc, settings, &machine)?;
    let complete = Complete {
        machine,
        records,
        block,
        mutex,
        cpu,
        done,
        made,
    };
    report_on(alloc, program, complete)
}

/// Runs a program in the order that its options' numbers choose, to the end, and reports on it.
pub(crate) fn run(alloc: Global, program: &Program, settings: &Settings) -> Result<Ran, Memory>
    requires { AreInRange settings.now }
    ensures ran { IfOk result (IsRan program.now settings.now) }
    ensures chosen { IfOk result (λ ran. IsChosen program.now settings.now ran.report) }
{
    run_named::<Brand>(alloc, program, settings)
}
