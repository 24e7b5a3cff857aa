ghost use Rattle.std.specs.Prelude.{◌≡◌, ◌≤◌, ℕ, [], ◌∷◌, length, get_or, replicate, IfOk};
ghost use Rattle.gp_isa.specs.Trace.{trace};
ghost use Rattle.gp_isa.specs.Limits.{most_cells};
ghost use Rattle.gp_sync.specs.WaitState.{at_start};
ghost use Rattle.gp_journal.specs.Settings.{AreInRange, period};
ghost use Rattle.gp_journal.specs.State.{code_of, first, main_goroutine, resting};
ghost use Rattle.gp_machine.specs.kept.Present.{FitsPlan};

use crate::goroutines::Goroutines;
use crate::present::{Plan, Present};
use crate::queue::Queue;
use crate::workers::Workers;
use gp_isa::limits::INSTRUCTIONS_PER_SECOND;
use gp_isa::{Memory, Program};
use gp_journal::{Goroutine, Run, Settings, Status};
use gp_sync::WaitLists;
use std::alloc::Global;
use std::marker::PhantomData;

// The number of points of each function's trace.
fn lengths_of(alloc: Global, program: &Program) -> Result<Vec<u64>, Memory>
    ensures { IfOk result (λ lengths. (f : ℕ) → get_or lengths.items f 0 ≡ length (trace program.now f)) }
{
    let functions = program.parts().functions.len() as u32;
    let mut lengths = Vec::with_capacity(alloc, functions as usize)?;
    for f in 0..functions {
        lengths.push(program.length(f))?;
    }
    Ok(lengths)
}

// What stays of a run.
fn plan_of(alloc: Global, program: &Program, settings: &Settings) -> Result<Plan, Memory>
    requires { AreInRange settings.now }
    ensures { IfOk result (FitsPlan program.now settings.now) }
{
    Ok(Plan {
        lengths: lengths_of(alloc, program)?,
        entries: settings.entries,
        at: Vec::from_slice(alloc, settings.at.as_slice())?,
    })
}

// The goroutine that runs `main`.
fn main_goroutine(program: &Program) -> Goroutine
    ensures { result ≡ main_goroutine (code_of program.now) }
{
    Goroutine {
        start: program.main(),
        set: 0,
        count: 0,
        status: Status::Runnable,
        granted: false,
        epoch: 0,
        blocked: 0,
        woken: 0,
    }
}

// The queue as a run begins: `main` stands in it.
fn first_queue(alloc: Global, cells: u32) -> Result<Queue, Memory>
    requires some { 1 ≤ cells }
    requires few { cells ≤ most_cells }
    ensures { IfOk result (λ queue. queue ≡ record { cells = cells; items = 0 ∷ [] }) }
{
    let mut queue = Queue::new(alloc, cells)?;
    queue.push_back(0);
    Ok(queue)
}

// The workers as a run begins.
fn workers_of(alloc: Global, settings: &Settings) -> Result<Workers, Memory>
    requires { AreInRange settings.now }
    ensures { IfOk result (λ workers. workers ≡ record { period = period settings.now; all = replicate settings.now.workers resting }) }
{
    let period = (INSTRUCTIONS_PER_SECOND / settings.hz) as u64;
    Workers::new(alloc, settings.workers, period)
}

// The goroutines and the wait lists as a run begins: `main` is born, and nobody waits.
fn first_tables(
    alloc: Global,
    program: &Program,
    cells: u32,
) -> Result<(Goroutines, WaitLists), Memory>
    requires some { 1 ≤ cells }
    requires few { cells ≤ most_cells }
    ensures goroutines { IfOk result (λ tables.
        tables.0 ≡ record { cells = cells; all = main_goroutine (code_of program.now) ∷ []; active = 0 }) }
    ensures waits { IfOk result (λ tables. tables.1 ≡ at_start program.now cells) }
{
    let goroutines = Goroutines::new(alloc, cells, main_goroutine(program))?;
    let waits = WaitLists::new(alloc, program, cells)?;
    Ok((goroutines, waits))
}

impl<R: Run> Present<R> {
    /// The first state of a run. It takes all memory here.
    pub fn new(alloc: Global, program: &Program, settings: &Settings) -> Result<Present<R>, Memory>
        requires program { program.now ≡ R.program }
        requires settings { settings.now ≡ R.settings }
        requires range { AreInRange settings.now }
        ensures { IfOk result (λ present. present ≡ first (code_of R.program) R.settings) }
    {
        // (it has no effect, but tells that the program lies in its limits)
        let _ = program.parts();
        let cells = settings.cells;
        // (what frees least is made first: each value that is there is dropped where the next takes no memory)
        let workers = workers_of(alloc, settings)?;
        let queue = first_queue(alloc, cells)?;
        let plan = plan_of(alloc, program, settings)?;
        let (goroutines, waits) = first_tables(alloc, program, cells)?;
        Ok(Present {
            plan,
            goroutines,
            queue,
            waits,
            workers,
            clock: 0,
            served: 0,
            last_epoch: 0,
            fault: 0,
            entries: 0,
            of: PhantomData,
        })
    }
}
