ghost use Rattle.std.specs.Prelude.{◌≡◌, ◌≤◌, ◌<◌, IfOk};
ghost use Rattle.gp_isa.specs.declared.bad.Bad.TheVariants.{Memory as OutOfMemory};
ghost use Rattle.gp_gen.specs.Generated.{generated};
ghost use Rattle.gp_gen.specs.GeneratedLaw.{GeneratedIsInLimits, GeneratedIsProgram};

use crate::declared::{channels, label_sets, mutexes};
use crate::functions::functions;
use gp_isa::{Bad, Memory, Parts, Program, check};
use std::alloc::Global;

#[tactic(auto, unfolding(crate::specs::Generated::generated))]
fn parts(alloc: Global, n: u64, q: u32) -> Result<Parts, Memory>
    requires { q < 64 }
    ensures { IfOk result (λ parts. parts ≡ generated n q) }
{
    Ok(Parts {
        functions: functions(alloc, n, q)?,
        channels: channels(alloc, q)?,
        mutexes: mutexes(alloc)?,
        labels: label_sets(alloc)?,
    })
}

// Where parts are a program, `check` answers with this one refusal alone.
fn want_of_memory(bad: Bad) -> Memory
    requires { bad ≡ OutOfMemory }
{
    match bad {
        Bad::Memory => Memory,
        _ => unreachable!(),
    }
}

/// The generated program for a number and a number of rounds of 16 goroutines. Want of memory is its one failure: the
/// generated parts always pass the check, as [`law_generated`] says.
pub fn program(alloc: Global, n: u64, q: u32) -> Result<Program, Memory>
    requires least { 1 ≤ q }
    requires most { q ≤ 63 }
    ensures { IfOk result (λ program. program ≡ generated n q) }
{
    let parts = parts(alloc, n, q)?;
    match check(alloc, parts) {
        Ok(program) => Ok(program),
        Err(bad) => Err(want_of_memory(bad)),
    }
}

/// For every number and each number of rounds from 1 to 63 the generated parts lie in the limits of programs, and are a
/// program: `main` is there, no body is empty, no function can call itself, and no trace is too long.
pub fn law_generated()
    ensures limits { GeneratedIsInLimits }
    ensures checked { GeneratedIsProgram }
{}
