//! The profiler's turn of the lock: it opens a profile that is asked for, records one goroutine, closes the profile, or finishes.
ghost use Rattle.std.specs.Prelude.{◌≡◌, ◌≢◌, ◌↔◌, ◌<◌, ◌≤◌, ◌+◌, true, vec_capacity, Some, None, IfOk, OnErr};
ghost use Rattle.gp_stack.specs.Body.{progress_of, StandsIn};
ghost use Rattle.gp_journal.specs.Bodies.{standing};
ghost use Rattle.gp_journal.specs.Due.{asked};
ghost use Rattle.gp_journal.specs.Run.{state_of};
ghost use Rattle.gp_journal.specs.Settings.{AreInRange};
ghost use Rattle.gp_journal.specs.Standing.{first_behind};
ghost use Rattle.gp_journal.specs.State.{goroutine, is_live, running};
ghost use Rattle.gp_world.specs.Rows.{has_finished};
ghost use Rattle.gp_workers.specs.kept.Idling.{NothingToServe};
ghost use Rattle.gp_workers.specs.kept.Locked.{Fit, Keeps, Leaves, IsProfiler};
ghost use Rattle.gp_workers.specs.kept.Turns.{TakesOneTurn};

use crate::gate::Place;
use crate::locked::Locked;
use crate::naming::Naming;
use crate::turn::{Did, Turn};
use gp_isa::{Memory, Program};
use gp_machine::Run;
use gp_profiler::{Closing, Opening, Recording, close_profile, finish, open_profile, record_one};
use gp_stack::Body;
use gp_tally::Share;
use gp_world::World;
use std::alloc::Global;

// What the first number of the profiler's row says, once it has finished.
const HAS_FINISHED: u64 = 2;

// Opens the profile that is asked for, or refuses it, where nobody runs.
fn open<R: Run>(world: &mut World<R>, who: &mut Share, room: u32) -> Did
    requires range { AreInRange R.settings }
    requires profiler { IsProfiler world.old.book R.settings who.old }
    requires unfinished { who.old.row.a < has_finished }
    requires asked { asked R.settings (state_of R.program R.settings world.old.journal) ≡ true }
    requires room { room ≡ R.settings.room }
    ensures world { Leaves R.program R.settings world.old world.new }
    ensures profiler { IsProfiler world.new.book R.settings who.new }
    ensures entries { TakesOneTurn world.old.journal world.new.journal }
    ensures turn { result.turn ≢ Turn.Done }
    ensures idle { result.turn ≡ Turn.Idle → 0 < running (state_of R.program R.settings world.old.journal) }
    ensures unfinished { who.new.row.a < has_finished }
{
    let opening = open_profile(world, who, room);
    // (it has no effect, but tells that the journal is legal)
    let _ = world.machine();
    match opening {
        Opening::Opened { epoch, .. } => Did::came_by(Turn::Went, Place::Opened { epoch }),
        Opening::TooSmall { .. } => Did::came_to(Turn::Went),
        Opening::NotStopped { .. } => Did::came_to(Turn::Idle),
    }
}

// Records goroutine g, the first that has still to be recorded, whose body is lent.
fn record<R: Run>(
    alloc: Global,
    program: &Program,
    world: &mut World<R>,
    body: &mut Body,
    who: &mut Share,
    g: u32,
) -> Result<Did, Memory>
    requires program { program.now ≡ R.program }
    requires range { AreInRange R.settings }
    requires profiler { IsProfiler world.old.book R.settings who.old }
    requires unfinished { who.old.row.a < has_finished }
    requires behind { let state = state_of R.program R.settings world.old.journal in
        first_behind state.active state.goroutines ≡ Some g }
    requires live { is_live (goroutine (state_of R.program R.settings world.old.journal) g) ≡ true }
    requires stands { StandsIn R.program body.old }
    requires place { progress_of body.old ≡ standing (goroutine (state_of R.program R.settings world.old.journal) g) }
    ensures world { Leaves R.program R.settings world.old world.new }
    ensures profiler { IsProfiler world.new.book R.settings who.new }
    ensures entries { TakesOneTurn world.old.journal world.new.journal }
    ensures body { body.new ≡ body.old }
    ensures went { IfOk result (λ did. did.turn ≡ Turn.Went) }
    ensures unfinished { who.new.row.a < has_finished }
{
    let copy = body.record(alloc, program, g)?;
    let recording = record_one(world, who, body, copy);
    // (it has no effect, but tells that the journal is legal)
    let _ = world.machine();
    match recording {
        Recording::Recorded => {
            let actor = who.number();
            Ok(Did::came_by(Turn::Went, Place::Recorded { actor, g }))
        }
        Recording::Already { .. } => Ok(Did::came_to(Turn::Idle)),
    }
}

// Closes the active profile, where all are recorded.
fn close<R: Run>(world: &mut World<R>, who: &mut Share) -> Did
    requires range { AreInRange R.settings }
    requires profiler { IsProfiler world.old.book R.settings who.old }
    requires unfinished { who.old.row.a < has_finished }
    requires active { 0 < (state_of R.program R.settings world.old.journal).active }
    requires recorded { let state = state_of R.program R.settings world.old.journal in
        first_behind state.active state.goroutines ≡ None }
    ensures world { Leaves R.program R.settings world.old world.new }
    ensures profiler { IsProfiler world.new.book R.settings who.new }
    ensures entries { TakesOneTurn world.old.journal world.new.journal }
    ensures went { result.turn ≡ Turn.Went }
    ensures unfinished { who.new.row.a < has_finished }
{
    let closing = close_profile(world, who);
    // (it has no effect, but tells that the journal is legal)
    let _ = world.machine();
    match closing {
        Closing::Closed { epoch } => Did::came_by(Turn::Went, Place::Closed { epoch }),
        Closing::Missing { .. } => Did::came_to(Turn::Idle),
    }
}

// Records one of those who have still to be recorded in the active profile, or closes it.
fn serve<R: Run>(
    alloc: Global,
    program: &Program,
    world: &mut World<R>,
    bodies: &mut Vec<Body>,
    who: &mut Share,
) -> Result<Did, Memory>
    requires program { program.now ≡ R.program }
    requires profiler { IsProfiler world.old.book R.settings who.old }
    requires unfinished { who.old.row.a < has_finished }
    requires active { 0 < (state_of R.program R.settings world.old.journal).active }
    requires fit { Fit R.program R.settings world.old.journal (vec_capacity bodies.old) bodies.old.items }
    ensures fit { Fit R.program R.settings world.new.journal (vec_capacity bodies.new) bodies.new.items }
    ensures world { Keeps world.old world.new }
    ensures profiler { IsProfiler world.new.book R.settings who.new }
    ensures entries { TakesOneTurn world.old.journal world.new.journal }
    ensures went { IfOk result (λ did. did.turn ≡ Turn.Went) }
    ensures unfinished { who.new.row.a < has_finished }
{
    match world.machine().unrecorded() {
        Some(g) => record(alloc, program, world, &mut bodies[g as usize], who, g),
        None => Ok(close(world, who)),
    }
}

// The profiler, which hasn't finished, does what the machine asks for.
fn profile_on<R: Run>(
    alloc: Global,
    program: &Program,
    world: &mut World<R>,
    bodies: &mut Vec<Body>,
    who: &mut Share,
    room: u32,
) -> Result<Did, Memory>
    requires program { program.now ≡ R.program }
    requires profiler { IsProfiler world.old.book R.settings who.old }
    requires unfinished { who.old.row.a < has_finished }
    requires room { room ≡ R.settings.room }
    requires fit { Fit R.program R.settings world.old.journal (vec_capacity bodies.old) bodies.old.items }
    ensures fit { Fit R.program R.settings world.new.journal (vec_capacity bodies.new) bodies.new.items }
    ensures world { Keeps world.old world.new }
    ensures profiler { IsProfiler world.new.book R.settings who.new }
    ensures entries { TakesOneTurn world.old.journal world.new.journal }
    ensures done { IfOk result (λ did. (did.turn ≡ Turn.Done) ↔ (who.new.row.a ≡ has_finished)) }
    ensures idle { IfOk result (λ did. did.turn ≡ Turn.Idle
        → NothingToServe R.settings (state_of R.program R.settings world.old.journal)) }
    ensures err { OnErr result (who.new.row.a < has_finished) }
{
    let machine = world.machine();
    if machine.active() > 0 {
        return serve(alloc, program, world, bodies, who);
    }
    if machine.asked() {
        return Ok(open(world, who, room));
    }
    if machine.complete() {
        finish(world, who);
        return Ok(Did::came_to(Turn::Done));
    }
    Ok(Did::came_to(Turn::Idle))
}

// What `profile_on` does. The share has the journal's count of the profiler's entries before and behind it.
fn profile_counted<R: Run>(
    alloc: Global,
    program: &Program,
    world: &mut World<R>,
    bodies: &mut Vec<Body>,
    who: &mut Share,
    room: u32,
) -> Result<Did, Memory>
    requires program { program.now ≡ R.program }
    requires profiler { IsProfiler world.old.book R.settings who.old }
    requires unfinished { who.old.row.a < has_finished }
    requires room { room ≡ R.settings.room }
    requires fit { Fit R.program R.settings world.old.journal (vec_capacity bodies.old) bodies.old.items }
    ensures fit { Fit R.program R.settings world.new.journal (vec_capacity bodies.new) bodies.new.items }
    ensures world { Keeps world.old world.new }
    ensures profiler { IsProfiler world.new.book R.settings who.new }
    ensures entries { TakesOneTurn world.old.journal world.new.journal }
    ensures few { who.new.row.c ≤ who.old.row.c + 2 }
    ensures done { IfOk result (λ did. (did.turn ≡ Turn.Done) ↔ (who.new.row.a ≡ has_finished)) }
    ensures idle { IfOk result (λ did. did.turn ≡ Turn.Idle
        → NothingToServe R.settings (state_of R.program R.settings world.old.journal)) }
    ensures err { OnErr result (who.new.row.a < has_finished) }
{
    // (neither of the two has an effect, but they tell what the row counts)
    world.check_actor(who);
    let did = profile_on(alloc, program, world, bodies, who, room);
    world.check_actor(who);
    did
}

impl<K: Naming, R: Run> Locked<K, R> {
    /// A turn of the profiler. It makes one entry, or none. It is idle only where no profile is active, and one is asked for while
    /// somebody runs, or none is and the run isn't complete.
    pub(crate) fn profile(
        &mut self,
        alloc: Global,
        program: &Program,
        who: &mut Share,
        room: u32,
    ) -> Did
        requires program { program.now ≡ R.program }
        requires profiler { IsProfiler K.book R.settings who.old }
        requires room { room ≡ R.settings.room }
        ensures profiler { IsProfiler K.book R.settings who.new }
        ensures entries { TakesOneTurn self.old.journal self.new.journal }
        ensures few { who.new.row.c ≤ who.old.row.c + 2 }
        ensures done { (result.turn ≡ Turn.Done) ↔ (who.new.row.a ≡ has_finished) }
        ensures idle { result.turn ≡ Turn.Idle → NothingToServe R.settings (state_of R.program R.settings self.old.journal) }
    {
        if who.row().a >= HAS_FINISHED {
            return Did::came_to(Turn::Done);
        }
        let Locked { world, bodies, .. } = self;
        if world.failed() {
            return Did::came_to(Turn::Memory);
        }
        match profile_counted(alloc, program, world, bodies, who, room) {
            Ok(did) => did,
            Err(_) => {
                world.fail();
                Did::came_to(Turn::Memory)
            }
        }
    }
}
