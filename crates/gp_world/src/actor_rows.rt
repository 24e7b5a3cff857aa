//! The rows of actors after a machine's journal. What an actor made and ran is asked of the machine, not counted up.
ghost use Rattle.std.specs.Prelude.{◌≡◌, ◌<◌, ◌≤◌, ◌==◌, if◌then◌else◌, length};
ghost use Rattle.gp_journal.specs.Run.{state_of};
ghost use Rattle.gp_world.specs.Rows.{row_of, worker_row, profiler_row, finished_row, settled_row, between_profiles, within_profile};

use gp_machine::{Machine, Run};
use gp_tally::Row;

// What the first number of a worker's row says of it,
pub(crate) const NOTHING: u64 = 0;

pub(crate) const PICKED: u64 = 1;

pub(crate) const RUNS: u64 = 2;

pub(crate) const DONE: u64 = 3;

// and of the profiler's.
const BETWEEN: u64 = 0;

const WITHIN: u64 = 1;

const FINISHED: u64 = 2;

const SETTLED: u64 = 3;

// A worker's row with two numbers.
pub(crate) fn worker_with<R: Run>(machine: &Machine<R>, w: u32, a: u64, b: u64) -> Row
    requires { w < R.settings.workers }
    ensures { result ≡ row_of R.program R.settings machine.now w a b }
{
    Row {
        a,
        b,
        c: machine.made(w),
        d: machine.done(w),
    }
}

// A worker's row, by what the state says of it.
pub(crate) fn worker_row<R: Run>(machine: &Machine<R>, w: u32) -> Row
    requires { w < R.settings.workers }
    ensures { result ≡ worker_row R.program R.settings machine.now w }
{
    match machine.runs(w) {
        Some(g) => worker_with(machine, w, RUNS, u64::from(g)),
        None => worker_with(machine, w, NOTHING, 0),
    }
}

// The profiler's row with two numbers. It runs no instructions.
fn profiler_with<R: Run>(machine: &Machine<R>, workers: u32, a: u64, b: u64) -> Row
    requires workers { workers ≡ R.settings.workers }
    requires no_more { length (state_of R.program R.settings machine.now).workers ≡ R.settings.workers }
    ensures { result ≡ row_of R.program R.settings machine.now R.settings.workers a b }
{
    Row {
        a,
        b,
        c: machine.made(workers),
        d: 0,
    }
}

// An actor's row with two numbers.
pub(crate) fn actor_with<R: Run>(
    machine: &Machine<R>,
    workers: u32,
    actor: u32,
    a: u64,
    b: u64,
) -> Row
    requires workers { workers ≡ R.settings.workers }
    requires actor { actor ≤ R.settings.workers }
    requires no_more { length (state_of R.program R.settings machine.now).workers ≡ R.settings.workers }
    ensures { result ≡ row_of R.program R.settings machine.now actor a b }
{
    if actor < workers {
        return worker_with(machine, actor, a, b);
    }
    profiler_with(machine, workers, a, b)
}

// What the profiler's row says of profiles.
fn profiles_now<R: Run>(machine: &Machine<R>) -> u64
    ensures { result
        ≡ (if (state_of R.program R.settings machine.now).active == 0 then between_profiles else within_profile) }
{
    if machine.active() == 0 {
        BETWEEN
    } else {
        WITHIN
    }
}

// The row of the profiler, which hasn't finished.
pub(crate) fn profiler_row<R: Run>(machine: &Machine<R>, workers: u32) -> Row
    requires workers { workers ≡ R.settings.workers }
    requires no_more { length (state_of R.program R.settings machine.now).workers ≡ R.settings.workers }
    ensures { result ≡ profiler_row R.program R.settings machine.now }
{
    let a = profiles_now(machine);
    profiler_with(machine, workers, a, u64::from(machine.last_epoch()))
}

// And of the one that has.
pub(crate) fn finished_row<R: Run>(machine: &Machine<R>, workers: u32) -> Row
    requires workers { workers ≡ R.settings.workers }
    requires no_more { length (state_of R.program R.settings machine.now).workers ≡ R.settings.workers }
    ensures { result ≡ finished_row R.program R.settings machine.now }
{
    profiler_with(machine, workers, FINISHED, u64::from(machine.last_epoch()))
}

// And of the one whose ring's end the reader has taken in.
pub(crate) fn settled_row<R: Run>(machine: &Machine<R>, workers: u32) -> Row
    requires workers { workers ≡ R.settings.workers }
    requires no_more { length (state_of R.program R.settings machine.now).workers ≡ R.settings.workers }
    ensures { result ≡ settled_row R.program R.settings machine.now }
{
    profiler_with(machine, workers, SETTLED, u64::from(machine.last_epoch()))
}
