//! Bodies and records of goroutines, made of what the machine tells of them.
ghost use Rattle.std.specs.Prelude.{◌≡◌, ◌<◌, length, IfOk, IfSome};
ghost use Rattle.gp_isa.specs.declared.parts.Parts.{Parts};
ghost use Rattle.gp_stack.specs.Body.{StandsIn, progress_of};
ghost use Rattle.gp_journal.specs.Bodies.{standing};
ghost use Rattle.gp_journal.specs.Frozen.{row};
ghost use Rattle.gp_journal.specs.Run.{state_of};
ghost use Rattle.gp_journal.specs.State.{code_of, goroutine};
ghost use Rattle.gp_world_tests.specs.Playing.{StandsAt};

use gp_cases::Unanswered;
use gp_isa::Program;
use gp_machine::{Goroutine, Run};
use gp_stack::{Body, Record, Then};
use gp_world::World;
use std::alloc::Global;

// Passes up to `n` points, of any kind.
fn walk(body: &mut Body, program: &Program, n: u64)
    requires { StandsIn program.now body.old }
    ensures stands { StandsIn program.now body.new }
    ensures set { (progress_of body.new).set ≡ (progress_of body.old).set }
{
    let mut left = n;
    while left > 0 {
        let ahead = body.peek(program, left);
        body.advance(program, ahead.local);
        left -= ahead.local;
        if left > 0 {
            match ahead.then {
                Then::Shared(_) => body.pass(program),
                Then::Local => return,
                Then::Over => return,
            }
            left -= 1;
        }
    }
}

// A body that stands where a goroutine stands, if the program has that place.
fn body_of(alloc: Global, program: &Program, it: Goroutine) -> Result<Body, Unanswered>
    ensures { IfOk result (StandsAt program.now (standing it)) }
{
    if it.start as usize >= program.parts().functions.len() {
        return Err(Unanswered::Form);
    }
    let mut body = Body::vacant(alloc, program)?;
    body.born(program, it.start, it.set);
    walk(&mut body, program, it.count);
    if body.start() != it.start || body.count() != it.count {
        return Err(Unanswered::Form);
    }
    Ok(body)
}

/// A body of a goroutine of a world.
pub fn body_in<R: Run>(
    alloc: Global,
    program: &Program,
    world: &World<R>,
    g: u32,
) -> Result<Body, Unanswered>
    requires program { program.now ≡ R.program }
    ensures { IfOk result (StandsAt R.program (standing (goroutine (state_of R.program R.settings world.now.journal) g))) }
{
    body_of(alloc, program, world.machine().goroutine(g))
}

/// The record of a goroutine of a world.
pub fn record_in<R: Run>(
    alloc: Global,
    program: &Program,
    world: &World<R>,
    g: u32,
) -> Result<Record, Unanswered>
    requires program { program.now ≡ R.program }
    ensures { IfOk result (λ it. it ≡ row (code_of R.program) g (goroutine (state_of R.program R.settings world.now.journal) g)) }
{
    let body = body_in(alloc, program, world, g)?;
    Ok(body.record(alloc, program, g)?)
}

/// The record of a goroutine of a world, if it is wanted.
pub fn copy_in<R: Run>(
    alloc: Global,
    program: &Program,
    world: &World<R>,
    g: u32,
    copied: bool,
) -> Result<Option<Record>, Unanswered>
    requires program { program.now ≡ R.program }
    ensures { IfOk result (λ copy. IfSome copy (λ it. it
        ≡ row (code_of R.program) g (goroutine (state_of R.program R.settings world.now.journal) g))) }
{
    if !copied {
        return Ok(None);
    }
    let copy = record_in(alloc, program, world, g)?;
    Ok(Some(copy))
}
