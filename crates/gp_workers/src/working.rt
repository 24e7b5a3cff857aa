//! A worker's turn of the lock: it picks a goroutine and starts it, or makes the entry that is due of the one it runs.
ghost use Rattle.std.specs.Prelude.{◌≡◌, ◌≢◌, ◌↔◌, ◌<◌, ◌≤◌, ◌+◌, true, vec_len, vec_capacity, IfSome, IfOk, OnErr};
ghost use Rattle.gp_stack.specs.Body.{progress_of, StandsIn};
ghost use Rattle.gp_journal.specs.Bodies.{standing, AllStand, progress_each};
ghost use Rattle.gp_journal.specs.Frozen.{row};
ghost use Rattle.gp_journal.specs.Run.{state_of};
ghost use Rattle.gp_journal.specs.Settings.{AreInRange};
ghost use Rattle.gp_journal.specs.State.{code_of, goroutine, is_live};
ghost use Rattle.gp_world.specs.Calls.{may_not_start, begun_of};
ghost use Rattle.gp_world.specs.Rows.{has_nothing, has_picked, runs_one, is_done};
ghost use Rattle.gp_workers.specs.kept.Following.{NeedsCopy, CanFollow, places_behind};
ghost use Rattle.gp_workers.specs.kept.Idling.{NothingToStart, IsPutBack, GivesBack};
ghost use Rattle.gp_workers.specs.kept.Locked.{Fit, Keeps, Leaves, IsWorker};
ghost use Rattle.gp_workers.specs.kept.Turns.{TakesOneTurn};

use crate::gate::Place;
use crate::locked::Locked;
use crate::naming::Naming;
use crate::turn::{Did, Turn};
use gp_isa::{Memory, Program};
use gp_machine::Run;
use gp_stack::{Body, Record};
use gp_tally::Share;
use gp_world::{Begun, Pick, Step, World};
use std::alloc::Global;

// What the first number of a worker's row says.
const HAS_NOTHING: u64 = 0;

const HAS_PICKED: u64 = 1;

const IS_DONE: u64 = 3;

// Worker w made an entry.
fn entered(w: u32) -> Did
    ensures { result.turn ≡ Turn.Went }
{
    Did::came_by(Turn::Went, Place::Entered { w })
}

// What a start without a copy came to, where none was needed.
fn begun(w: u32, begun: Begun) -> Did
    ensures turn { result.turn ≢ Turn.Done }
    ensures idle { result.turn ≡ Turn.Idle → IsPutBack begun }
{
    match begun {
        Begun::NotNow { .. } => Did::came_to(Turn::Idle),
        _ => entered(w),
    }
}

// What one with a copy of g came to, where that was needed: it is recorded, and started if the run isn't over by that.
fn begun_with_copy(w: u32, g: u32, begun: Begun) -> Did
    ensures turn { result.turn ≢ Turn.Done }
    ensures idle { result.turn ≡ Turn.Idle → GivesBack begun }
{
    match begun {
        Begun::NotNow { copy: Some(_), .. } => Did::came_to(Turn::Idle),
        _ => entered(w).with_record(w, g),
    }
}

// A start of whom a worker has picked.
fn start_once<R: Run>(
    world: &mut World<R>,
    body: &mut Body,
    who: &mut Share,
    copy: Option<Record>,
) -> Begun
    requires range { AreInRange R.settings }
    requires worker { IsWorker world.old.book R.settings who.old }
    requires picked { who.old.row.a ≡ has_picked }
    requires copy { IfSome copy (λ it. it
        ≡ row (code_of R.program) who.old.row.b (goroutine (state_of R.program R.settings world.old.journal) who.old.row.b)) }
    ensures world { Leaves R.program R.settings world.old world.new }
    ensures worker { IsWorker world.new.book R.settings who.new }
    ensures number { who.new.number ≡ who.old.number }
    ensures entries { TakesOneTurn world.old.journal world.new.journal }
    ensures body { body.new ≡ body.old }
    ensures goes_on { who.new.row.a < is_done }
    ensures needed { NeedsCopy world.old world.new who.old who.new result }
    ensures answer { result ≡ begun_of (code_of R.program) R.settings (state_of R.program R.settings world.old.journal)
        who.old.number who.old.row.b copy }
{
    let begun = world.start(who, body, copy);
    // (it has no effect, but tells that the journal is legal)
    let _ = world.machine();
    begun
}

// Starts g, which a worker has picked and whose body is lent, with a copy made for the active profile where that is needed.
fn start<R: Run>(
    alloc: Global,
    program: &Program,
    world: &mut World<R>,
    body: &mut Body,
    who: &mut Share,
    g: u32,
) -> Result<Did, Memory>
    requires program { program.now ≡ R.program }
    requires range { AreInRange R.settings }
    requires worker { IsWorker world.old.book R.settings who.old }
    requires picked { who.old.row.a ≡ has_picked }
    requires g { who.old.row.b ≡ g }
    requires stands { StandsIn R.program body.old }
    requires place { progress_of body.old ≡ standing (goroutine (state_of R.program R.settings world.old.journal) g) }
    ensures world { Leaves R.program R.settings world.old world.new }
    ensures worker { IsWorker world.new.book R.settings who.new }
    ensures number { who.new.number ≡ who.old.number }
    ensures entries { TakesOneTurn world.old.journal world.new.journal }
    ensures body { body.new ≡ body.old }
    ensures turn { IfOk result (λ did. did.turn ≢ Turn.Done) }
    ensures idle { IfOk result (λ did. did.turn ≡ Turn.Idle
        → may_not_start R.settings (state_of R.program R.settings world.old.journal) ≡ true) }
    ensures goes_on { who.new.row.a < is_done }
{
    let w = who.number();
    match start_once(world, body, who, None) {
        Begun::NeedCopy { .. } => {
            let copy = body.record(alloc, program, g)?;
            let it = start_once(world, body, who, Some(copy));
            Ok(begun_with_copy(w, g, it))
        }
        it => Ok(begun(w, it)),
    }
}

// Goes on with the goroutine that a worker has picked: it starts it.
fn go<R: Run>(
    alloc: Global,
    program: &Program,
    world: &mut World<R>,
    bodies: &mut Vec<Body>,
    who: &mut Share,
) -> Result<Did, Memory>
    requires program { program.now ≡ R.program }
    requires worker { IsWorker world.old.book R.settings who.old }
    requires picked { who.old.row.a ≡ has_picked }
    requires fit { Fit R.program R.settings world.old.journal (vec_capacity bodies.old) bodies.old.items }
    ensures fit { Fit R.program R.settings world.new.journal (vec_capacity bodies.new) bodies.new.items }
    ensures world { Keeps world.old world.new }
    ensures worker { IsWorker world.new.book R.settings who.new }
    ensures number { who.new.number ≡ who.old.number }
    ensures entries { TakesOneTurn world.old.journal world.new.journal }
    ensures turn { IfOk result (λ did. did.turn ≢ Turn.Done) }
    ensures idle { IfOk result (λ did. did.turn ≡ Turn.Idle
        → may_not_start R.settings (state_of R.program R.settings world.old.journal) ≡ true) }
    ensures goes_on { who.new.row.a < is_done }
{
    // (it has no effect, but tells that the journal is legal)
    let _ = world.machine();
    let g = world.whom(who);
    start(alloc, program, world, &mut bodies[g as usize], who, g)
}

// Picks a goroutine for a worker that has nothing, and starts it.
fn begin<R: Run>(
    alloc: Global,
    program: &Program,
    world: &mut World<R>,
    bodies: &mut Vec<Body>,
    who: &mut Share,
) -> Result<Did, Memory>
    requires program { program.now ≡ R.program }
    requires worker { IsWorker world.old.book R.settings who.old }
    requires nothing { who.old.row.a ≡ has_nothing }
    requires fit { Fit R.program R.settings world.old.journal (vec_capacity bodies.old) bodies.old.items }
    ensures fit { Fit R.program R.settings world.new.journal (vec_capacity bodies.new) bodies.new.items }
    ensures world { Keeps world.old world.new }
    ensures worker { IsWorker world.new.book R.settings who.new }
    ensures number { who.new.number ≡ who.old.number }
    ensures entries { TakesOneTurn world.old.journal world.new.journal }
    ensures done { IfOk result (λ did. (did.turn ≡ Turn.Done) ↔ (who.new.row.a ≡ is_done)) }
    ensures idle { IfOk result (λ did. did.turn ≡ Turn.Idle → NothingToStart R.program R.settings world.old who.old.row) }
    ensures err { OnErr result (who.new.row.a < is_done) }
{
    match world.pick(who) {
        Pick::Go { .. } => {
            let did = go(alloc, program, world, bodies, who)?;
            Ok(did.with_pick(who.number()))
        }
        Pick::Idle => Ok(Did::came_to(Turn::Idle)),
        Pick::Over => Ok(Did::came_to(Turn::Done)),
    }
}

// The body of g follows what became of it by the entry that was due, and that of whoever it bore comes to the others.
fn follow(program: &Program, bodies: &mut Vec<Body>, g: usize, step: Step)
    requires stand { AllStand program.now bodies.old.items }
    requires born { g < vec_len bodies.old }
    requires able { CanFollow program.now g (vec_capacity bodies.old) (progress_each bodies.old.items) step }
    ensures stand { AllStand program.now bodies.new.items }
    ensures places { progress_each bodies.new.items ≡ places_behind g step (progress_each bodies.old.items) }
    ensures capacity { vec_capacity bodies.new ≡ vec_capacity bodies.old }
{
    match step {
        Step::Advance { n } => bodies[g].advance(program, n),
        Step::Born { body, .. } => bodies.push_reserved(body),
        _ => {}
    }
}

// Makes the entry that is due of g, which a worker runs.
fn step<R: Run>(
    alloc: Global,
    program: &Program,
    world: &mut World<R>,
    bodies: &mut Vec<Body>,
    who: &mut Share,
    g: u32,
) -> Result<Did, Memory>
    requires program { program.now ≡ R.program }
    requires worker { IsWorker world.old.book R.settings who.old }
    requires runs { who.old.row.a ≡ runs_one }
    requires g { who.old.row.b ≡ g }
    requires live { is_live (goroutine (state_of R.program R.settings world.old.journal) g) ≡ true }
    requires fit { Fit R.program R.settings world.old.journal (vec_capacity bodies.old) bodies.old.items }
    ensures fit { Fit R.program R.settings world.new.journal (vec_capacity bodies.new) bodies.new.items }
    ensures world { Keeps world.old world.new }
    ensures worker { IsWorker world.new.book R.settings who.new }
    ensures number { who.new.number ≡ who.old.number }
    ensures entries { TakesOneTurn world.old.journal world.new.journal }
    ensures went { IfOk result (λ did. did.turn ≡ Turn.Went) }
    ensures goes_on { who.new.row.a < is_done }
{
    // (neither of the two has an effect, but they tell that the journal is legal)
    let _ = world.machine();
    let step = world.step(alloc, program, who, &mut bodies[g as usize])?;
    let _ = world.machine();
    follow(program, bodies, g as usize, step);
    Ok(entered(who.number()))
}

// Goes on with the goroutine that a worker runs.
fn go_on<R: Run>(
    alloc: Global,
    program: &Program,
    world: &mut World<R>,
    bodies: &mut Vec<Body>,
    who: &mut Share,
) -> Result<Did, Memory>
    requires program { program.now ≡ R.program }
    requires worker { IsWorker world.old.book R.settings who.old }
    requires runs { who.old.row.a ≡ runs_one }
    requires fit { Fit R.program R.settings world.old.journal (vec_capacity bodies.old) bodies.old.items }
    ensures fit { Fit R.program R.settings world.new.journal (vec_capacity bodies.new) bodies.new.items }
    ensures world { Keeps world.old world.new }
    ensures worker { IsWorker world.new.book R.settings who.new }
    ensures number { who.new.number ≡ who.old.number }
    ensures entries { TakesOneTurn world.old.journal world.new.journal }
    ensures went { IfOk result (λ did. did.turn ≡ Turn.Went) }
    ensures goes_on { who.new.row.a < is_done }
{
    let g = world.whom(who);
    step(alloc, program, world, bodies, who, g)
}

// A worker does what its row says, which isn't done.
fn work_on<R: Run>(
    alloc: Global,
    program: &Program,
    world: &mut World<R>,
    bodies: &mut Vec<Body>,
    who: &mut Share,
) -> Result<Did, Memory>
    requires program { program.now ≡ R.program }
    requires worker { IsWorker world.old.book R.settings who.old }
    requires more { who.old.row.a < is_done }
    requires fit { Fit R.program R.settings world.old.journal (vec_capacity bodies.old) bodies.old.items }
    ensures fit { Fit R.program R.settings world.new.journal (vec_capacity bodies.new) bodies.new.items }
    ensures world { Keeps world.old world.new }
    ensures worker { IsWorker world.new.book R.settings who.new }
    ensures number { who.new.number ≡ who.old.number }
    ensures entries { TakesOneTurn world.old.journal world.new.journal }
    ensures done { IfOk result (λ did. (did.turn ≡ Turn.Done) ↔ (who.new.row.a ≡ is_done)) }
    ensures idle { IfOk result (λ did. did.turn ≡ Turn.Idle → NothingToStart R.program R.settings world.old who.old.row) }
    ensures err { OnErr result (who.new.row.a < is_done) }
{
    let a = who.row().a;
    if a == HAS_NOTHING {
        begin(alloc, program, world, bodies, who)
    } else if a == HAS_PICKED {
        go(alloc, program, world, bodies, who)
    } else {
        go_on(alloc, program, world, bodies, who)
    }
}

// What `work_on` does. The share has the journal's count of the worker's entries before and behind it.
fn work_counted<R: Run>(
    alloc: Global,
    program: &Program,
    world: &mut World<R>,
    bodies: &mut Vec<Body>,
    who: &mut Share,
) -> Result<Did, Memory>
    requires program { program.now ≡ R.program }
    requires worker { IsWorker world.old.book R.settings who.old }
    requires more { who.old.row.a < is_done }
    requires fit { Fit R.program R.settings world.old.journal (vec_capacity bodies.old) bodies.old.items }
    ensures fit { Fit R.program R.settings world.new.journal (vec_capacity bodies.new) bodies.new.items }
    ensures world { Keeps world.old world.new }
    ensures worker { IsWorker world.new.book R.settings who.new }
    ensures number { who.new.number ≡ who.old.number }
    ensures entries { TakesOneTurn world.old.journal world.new.journal }
    ensures few { who.new.row.c ≤ who.old.row.c + 2 }
    ensures done { IfOk result (λ did. (did.turn ≡ Turn.Done) ↔ (who.new.row.a ≡ is_done)) }
    ensures idle { IfOk result (λ did. did.turn ≡ Turn.Idle → NothingToStart R.program R.settings world.old who.old.row) }
    ensures err { OnErr result (who.new.row.a < is_done) }
{
    // (neither of the two has an effect, but they tell what the row counts)
    world.check_actor(who);
    let did = work_on(alloc, program, world, bodies, who);
    world.check_actor(who);
    did
}

impl<K: Naming, R: Run> Locked<K, R> {
    /// A turn of a worker. It makes a Start and at most one Record, or one entry that is due, or none. It is idle only where the
    /// worker runs nobody, and a profile is asked for, the run is over, or nobody waits.
    pub(crate) fn work(&mut self, alloc: Global, program: &Program, who: &mut Share) -> Did
        requires program { program.now ≡ R.program }
        requires worker { IsWorker K.book R.settings who.old }
        ensures worker { IsWorker K.book R.settings who.new }
        ensures number { who.new.number ≡ who.old.number }
        ensures entries { TakesOneTurn self.old.journal self.new.journal }
        ensures few { who.new.row.c ≤ who.old.row.c + 2 }
        ensures done { (result.turn ≡ Turn.Done) ↔ (who.new.row.a ≡ is_done) }
        ensures idle { result.turn ≡ Turn.Idle → NothingToStart R.program R.settings self.old who.old.row }
    {
        if who.row().a >= IS_DONE {
            return Did::came_to(Turn::Done);
        }
        let Locked { world, bodies, .. } = self;
        if world.failed() {
            return Did::came_to(Turn::Memory);
        }
        match work_counted(alloc, program, world, bodies, who) {
            Ok(did) => did,
            Err(_) => {
                world.fail();
                Did::came_to(Turn::Memory)
            }
        }
    }
}
