//! Calls on a world. One that isn't for that actor now isn't made.
ghost use Rattle.std.specs.Prelude.{◌≡◌, ◌↔◌, ◌<◌, true, IfOk, IsTrue};
ghost use Rattle.std.specs.Bool.{OnTrue};
ghost use Rattle.gp_journal.specs.State as state;
ghost use Rattle.gp_ring.specs.PlainRing.{End};
ghost use Rattle.gp_world.specs.RingEnds.{IsOf};
ghost use Rattle.gp_world.specs.Rows.{MayRecordAs};
ghost use Rattle.gp_world_tests.specs.Playing.{Keeps};

use crate::bodies::{body_in, copy_in, record_in};
use gp_cases::{Unanswered, number_32, word};
use gp_isa::Program;
use gp_machine::{Goroutine, Run, Settings, Status};
use gp_profiler::{Closing, Opening, Recording, close_profile, finish, open_profile, record_one};
use gp_ring::{Reader, Taken};
use gp_tally::{Row, Share};
use gp_world::{Begun, Pick, Step, World};
use std::alloc::Global;

// What the first number of an actor's row says.
const HAS_NOTHING: u64 = 0;

const HAS_PICKED: u64 = 1;

const RUNS_ONE: u64 = 2;

const HAS_FINISHED: u64 = 2;

/// What a call came to.
#[derive(Drop)]
pub enum Answer {
    /// It isn't for that actor now.
    NotNow,
    Pick(Pick),
    Begun(Begun),
    Step(Step),
    Opening(Opening),
    Recording(Recording),
    Closing(Closing),
    Finished,
    Settled,
    /// The actor has this row.
    Checked(Row),
    /// It has this goroutine.
    Has(u32),
}

fn pick<R: Run>(settings: &Settings, world: &mut World<R>, who: &mut Share) -> Answer
    requires settings { settings.now ≡ R.settings }
    requires book { who.old.book ≡ world.old.book }
    ensures kept { Keeps world.old world.new who.old who.new }
{
    if who.number() >= settings.workers || who.row().a != HAS_NOTHING {
        return Answer::NotNow;
    }
    Answer::Pick(world.pick(who))
}

// A worker that has picked a goroutine starts it, with a copy of it or without.
fn start<R: Run>(
    alloc: Global,
    program: &Program,
    settings: &Settings,
    world: &mut World<R>,
    who: &mut Share,
    copied: bool,
) -> Result<Answer, Unanswered>
    requires program { program.now ≡ R.program }
    requires settings { settings.now ≡ R.settings }
    requires book { who.old.book ≡ world.old.book }
    ensures kept { Keeps world.old world.new who.old who.new }
{
    let row = who.row();
    if who.number() >= settings.workers || row.a != HAS_PICKED {
        return Ok(Answer::NotNow);
    }
    let g = u32::try_from(row.b).ok().ok_or(Unanswered::Form)?;
    let mut body = body_in(alloc, program, world, g)?;
    let copy = copy_in(alloc, program, world, g, copied)?;
    Ok(Answer::Begun(world.start(who, &mut body, copy)))
}

// A worker makes the entry that is due of the goroutine that it runs.
fn step<R: Run>(
    alloc: Global,
    program: &Program,
    settings: &Settings,
    world: &mut World<R>,
    who: &mut Share,
) -> Result<Answer, Unanswered>
    requires program { program.now ≡ R.program }
    requires settings { settings.now ≡ R.settings }
    requires book { who.old.book ≡ world.old.book }
    ensures kept { Keeps world.old world.new who.old who.new }
{
    let row = who.row();
    if who.number() >= settings.workers || row.a != RUNS_ONE {
        return Ok(Answer::NotNow);
    }
    let g = u32::try_from(row.b).ok().ok_or(Unanswered::Form)?;
    let mut body = body_in(alloc, program, world, g)?;
    match world.step(alloc, program, who, &mut body) {
        Ok(it) => Ok(Answer::Step(it)),
        Err(_) => Err(Unanswered::Memory),
    }
}

// Whether an actor is the profiler, or a worker that runs nobody.
fn may_record(workers: u32, who: &Share) -> bool
    ensures { OnTrue result (MayRecordAs workers who.now.number who.now.row) }
{
    if who.number() < workers {
        return who.row().a != RUNS_ONE;
    }
    who.number() == workers
}

fn is_live(it: Goroutine) -> bool
    ensures { result ≡ state.is_live it }
{
    match it.status {
        Status::Dead => false,
        _ => true,
    }
}

// The profiler, or a worker that runs nobody, records a goroutine.
fn record<R: Run>(
    alloc: Global,
    program: &Program,
    settings: &Settings,
    world: &mut World<R>,
    who: &mut Share,
    g: u32,
) -> Result<Answer, Unanswered>
    requires program { program.now ≡ R.program }
    requires settings { settings.now ≡ R.settings }
    requires book { who.old.book ≡ world.old.book }
    ensures kept { Keeps world.old world.new who.old who.new }
{
    if !may_record(settings.workers, who) || !is_live(world.machine().goroutine(g)) {
        return Ok(Answer::NotNow);
    }
    let mut body = body_in(alloc, program, world, g)?;
    let copy = record_in(alloc, program, world, g)?;
    Ok(Answer::Recording(record_one(world, who, &mut body, copy)))
}

// The profiler opens a profile that is asked for.
fn open<R: Run>(settings: &Settings, world: &mut World<R>, who: &mut Share) -> Answer
    requires settings { settings.now ≡ R.settings }
    requires book { who.old.book ≡ world.old.book }
    ensures kept { Keeps world.old world.new who.old who.new }
{
    if who.number() != settings.workers || !world.asked() {
        return Answer::NotNow;
    }
    Answer::Opening(open_profile(world, who, settings.room))
}

// The profiler closes the active profile.
fn close<R: Run>(settings: &Settings, world: &mut World<R>, who: &mut Share) -> Answer
    requires settings { settings.now ≡ R.settings }
    requires book { who.old.book ≡ world.old.book }
    ensures kept { Keeps world.old world.new who.old who.new }
{
    if who.number() != settings.workers || world.machine().active() == 0 {
        return Answer::NotNow;
    }
    Answer::Closing(close_profile(world, who))
}

// The profiler finishes.
fn end<R: Run>(settings: &Settings, world: &mut World<R>, who: &mut Share) -> Answer
    requires settings { settings.now ≡ R.settings }
    requires book { who.old.book ≡ world.old.book }
    ensures kept { Keeps world.old world.new who.old who.new }
{
    if who.number() != settings.workers || who.row().a >= HAS_FINISHED || !world.complete() {
        return Answer::NotNow;
    }
    finish(world, who);
    Answer::Finished
}

// Whether the reader's last answer was the end.
fn is_over(reader: &Reader) -> bool
    ensures { IsTrue result ↔ (reader.now.hand ≡ End) }
{
    match reader.shown() {
        Taken::End => true,
        _ => false,
    }
}

// The reader takes in the ring's end, by the profiler's share.
fn settle<R: Run>(
    settings: &Settings,
    world: &mut World<R>,
    reader: &mut Reader,
    who: &mut Share,
) -> Answer
    requires settings { settings.now ≡ R.settings }
    requires book { who.old.book ≡ world.old.book }
    requires ring { IsOf world.old.ring reader.old.ring }
    ensures kept { Keeps world.old world.new who.old who.new }
    ensures reader { reader.new.ring ≡ reader.old.ring }
{
    if who.number() != settings.workers || who.row().a != HAS_FINISHED || !is_over(reader) {
        return Answer::NotNow;
    }
    world.settle(who, reader);
    Answer::Settled
}

fn check<R: Run>(world: &mut World<R>, who: &mut Share) -> Answer
    requires book { who.old.book ≡ world.old.book }
    ensures kept { Keeps world.old world.new who.old who.new }
{
    world.check_actor(who);
    Answer::Checked(who.row())
}

// Whom a worker has picked or runs.
fn whom<R: Run>(settings: &Settings, world: &mut World<R>, who: &mut Share) -> Answer
    requires settings { settings.now ≡ R.settings }
    requires book { who.old.book ≡ world.old.book }
    ensures kept { Keeps world.old world.new who.old who.new }
{
    let a = who.row().a;
    if who.number() >= settings.workers || (a != HAS_PICKED && a != RUNS_ONE) {
        return Answer::NotNow;
    }
    Answer::Has(world.whom(who))
}

/// What an actor calls, by its name and what it takes.
pub fn call<R: Run>(
    alloc: Global,
    program: &Program,
    settings: &Settings,
    world: &mut World<R>,
    reader: &mut Reader,
    who: &mut Share,
    name: &str,
) -> Result<Answer, Unanswered>
    requires program { program.now ≡ R.program }
    requires settings { settings.now ≡ R.settings }
    requires book { who.old.book ≡ world.old.book }
    requires ring { IsOf world.old.ring reader.old.ring }
    ensures kept { Keeps world.old world.new who.old who.new }
    ensures reader { reader.new.ring ≡ reader.old.ring }
{
    let (name, rest) = word(name);
    match name {
        "pick" => Ok(pick(settings, world, who)),
        "start" => start(alloc, program, settings, world, who, false),
        "copy" => start(alloc, program, settings, world, who, true),
        "step" => step(alloc, program, settings, world, who),
        "record" => record(alloc, program, settings, world, who, number_32(rest)?),
        "open" => Ok(open(settings, world, who)),
        "close" => Ok(close(settings, world, who)),
        "finish" => Ok(end(settings, world, who)),
        "settle" => Ok(settle(settings, world, reader, who)),
        "whom" => Ok(whom(settings, world, who)),
        "check" => Ok(check(world, who)),
        _ => Err(Unanswered::Form),
    }
}
