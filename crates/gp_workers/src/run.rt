//! A run on threads, from its first entry to its last.
ghost use Rattle.std.specs.Prelude.{◌≡◌, ◌<◌, ◌≤◌, ◌+◌, ◌++◌, [], ◌∷◌, map, vec_len, vec_capacity, IfOk, OnOk};
ghost use Rattle.std.specs.List.{range_with_len};
ghost use Rattle.gp_events.specs.Sums.{sums};
ghost use Rattle.gp_history.specs.Events.{block_events, mutex_events};
ghost use Rattle.gp_journal.specs.Due.{IsComplete};
ghost use Rattle.gp_journal.specs.Profiles.{records_of, AreFrozen};
ghost use Rattle.gp_journal.specs.Run.{state_of, IsFinished};
ghost use Rattle.gp_journal.specs.Settings.{AreInRange};
ghost use Rattle.gp_journal.specs.State.{code_of};
ghost use Rattle.gp_journal.specs.Told.{done_of, made_of};
ghost use Rattle.gp_ring.specs.PlainRing.{End};
ghost use Rattle.gp_ring.specs.Records.{Covers};
ghost use Rattle.gp_cpu.specs.Records.{ring_record_of};
ghost use Rattle.gp_cpu.specs.Samples.{samples_of_journal};
ghost use Rattle.gp_samples.specs.RunEnds.{IsBegunReader};
ghost use Rattle.gp_samples.specs.RunRing.{BeginWithHead};
ghost use Rattle.gp_world.specs.RingEnds.{IsOf};
ghost use Rattle.gp_world.specs.Rows.{has_nothing, has_finished, shares_of};
ghost use Rattle.gp_workers.specs.Actors.{numbers_of, AreActors, HasEnded, HaveEnded};
ghost use Rattle.gp_workers.specs.Beginning.{IsBegun};
ghost use Rattle.gp_workers.specs.kept.Ending.{done_in, made_in};
ghost use Rattle.gp_workers.specs.kept.Locked.{Fit, IsProfiler};
ghost use Rattle.gp_workers.specs.kept.Roles.{actor_of, IsRole};

use crate::actor::{Actor, Role, Shared};
use crate::gate::Gate;
use crate::intake::Intake;
use crate::locked::Locked;
use crate::naming::Naming;
use crate::seats::play_all;
use gp_cpu::Collector;
use gp_events::Buckets;
use gp_isa::{Memory, Program, Sequence};
use gp_machine::{Counts, Machine, Run, Settings};
use gp_ring::Reader;
use gp_stack::{Body, Profiles};
use gp_tally::{Row, Share};
use gp_world::{Made, World, WorldParts};
use std::alloc::Global;
use std::marker::{Brand, PhantomData};
use std::sync::atomic::AtomicBool;
use std::sync::{Mutex, Wait};
use std::thread::Threads;

/// The actors of a run, by number: the workers, the profiler, and the reader.
pub type Actors<K, R> = Vec<Actor<K, R>>;

/// A run that is complete.
#[derive(Drop)]
pub struct Finished<R: Run> {
    pub machine: Machine<R>,
    /// The records of each profile, by epoch.
    pub records: Profiles,
    /// The sums of the block events.
    pub block: Buckets,
    /// The sums of the mutex events.
    pub mutex: Buckets,
    /// The records that the reader took from the ring of samples.
    pub cpu: Collector,
    /// The reader, which found the end of the ring.
    pub reader: Reader,
    /// By worker: how many instructions it ran, by its share of the actors' book.
    pub done: Counts,
    /// By actor, the profiler last: how many entries it made, by its share.
    pub made: Counts,
}

// The body of goroutine 0, and room for one of each cell.
fn first_bodies(alloc: Global, program: &Program, settings: &Settings) -> Result<Vec<Body>, Memory>
    requires { AreInRange settings.now }
    ensures { IfOk result (λ bodies. Fit program.now settings.now [] (vec_capacity bodies) bodies.items) }
{
    let mut bodies = Vec::with_capacity(alloc, settings.cells as usize)?;
    let mut main = Body::vacant(alloc, program)?;
    main.born(program, program.main(), 0);
    bodies.push_reserved(main);
    Ok(bodies)
}

// The role of the actor who has a share.
fn role<K: Naming>(share: Share, settings: &Settings) -> Role
    requires book { share.book ≡ K.book }
    requires number { share.number ≤ settings.now.workers }
    requires fresh { share.row.a ≡ has_nothing }
    ensures role { IsRole K.book K.ring settings.now result }
    ensures number { (actor_of settings.now result).number ≡ share.number }
{
    if share.number() < settings.workers {
        return Role::Worker { share };
    }
    Role::Profiler {
        share,
        room: settings.room,
    }
}

// The actors who have these shares, and the reader behind them.
fn actors<K: Naming, R: Run>(
    alloc: Global,
    settings: &Settings,
    shares: Vec<Share>,
    intake: Intake,
) -> Result<Actors<K, R>, Memory>
    requires settings { settings.now ≡ R.settings }
    requires range { AreInRange R.settings }
    requires shares { shares.items ≡ shares_of K.book R.settings.workers }
    requires ring { intake.ring ≡ K.ring }
    ensures actors { IfOk result (λ actors. AreActors R.settings actors.items) }
    ensures many { IfOk result (λ actors. vec_len actors ≡ R.settings.workers + 2) }
{
    let mut actors = Vec::with_capacity(alloc, shares.len() + 1)?;
    for share in shares {
        actors.push_reserved(Actor {
            role: role::<K>(share, settings),
            of: PhantomData,
        });
    }
    actors.push_reserved(Actor {
        role: Role::Reader {
            number: settings.workers + 1,
            intake,
        },
        of: PhantomData,
    });
    Ok(actors)
}

impl<K: Naming, R: Run> Locked<K, R> {
    // What stands behind the lock as a run begins.
    fn begun(world: World<R>, bodies: Vec<Body>) -> Locked<K, R>
        requires begun { IsBegun K.book K.ring world }
        requires bodies { Fit R.program R.settings [] (vec_capacity bodies) bodies.items }
        ensures { result ≡ world }
    {
        Locked {
            world,
            bodies,
            of: PhantomData,
        }
    }
}

impl<K: Naming, R: Run> Shared<K, R> {
    /// What the actors of a run share as it begins, and the actors. `made` is the world as it begins, of the book and the ring that
    /// K names.
    pub fn new(
        alloc: Global,
        program: &Program,
        settings: &Settings,
        made: Made<R>,
    ) -> Result<(Shared<K, R>, Actors<K, R>), Memory>
        requires program { program.now ≡ R.program }
        requires settings { settings.now ≡ R.settings }
        requires range { AreInRange settings.now }
        requires made { IsBegun K.book K.ring made.world }
        requires shares { made.shares.items ≡ shares_of K.book R.settings.workers }
        requires reader { IsBegunReader R.program R.settings made.reader }
        requires ring { made.reader.ring ≡ K.ring }
        ensures actors { IfOk result (λ it. AreActors R.settings it.1.items) }
        ensures many { IfOk result (λ it. vec_len it.1 ≡ R.settings.workers + 2) }
    {
        let Made {
            world,
            reader,
            shares,
        } = made;
        let bodies = first_bodies(alloc, program, settings)?;
        let shared = Shared {
            world: Mutex::new(Locked::begun(world, bodies)),
            failed: AtomicBool::new(false),
        };
        let intake = Intake::new(alloc, reader)?;
        Ok((shared, actors(alloc, settings, shares, intake)?))
    }
}

// What the actors did, by their shares.
#[derive(Drop)]
struct Tally {
    // by worker: instructions
    done: Vec<u64>,
    // by actor: entries
    made: Vec<u64>,
}

// The end of the ring that the reader has.
fn intake_of<K: Naming, R: Run>(actor: Actor<K, R>) -> Intake
    requires number { actor.number ≡ R.settings.workers + 1 }
    requires ended { HasEnded R.settings actor }
    ensures ring { result.ring ≡ K.ring }
    ensures end { result.hand ≡ End }
{
    match actor.role {
        Role::Reader { intake, .. } => intake,
        Role::Worker { .. } => unreachable!(),
        Role::Profiler { .. } => unreachable!(),
    }
}

// The share that the profiler has.
fn share_of<K: Naming, R: Run>(actor: Actor<K, R>) -> Share
    requires number { actor.number ≡ R.settings.workers }
    requires ended { HasEnded R.settings actor }
    ensures profiler { IsProfiler K.book R.settings result }
    ensures finished { result.row.a ≡ has_finished }
{
    match actor.role {
        Role::Profiler { share, .. } => share,
        Role::Worker { .. } => unreachable!(),
        Role::Reader { .. } => unreachable!(),
    }
}

// The reader, who is the last of the actors.
fn part_with_reader<K: Naming, R: Run>(actors: &mut Actors<K, R>) -> Intake
    requires actors { AreActors R.settings actors.old.items }
    requires ended { HaveEnded R.settings actors.old.items }
    ensures numbers { numbers_of actors.new.items ≡ range_with_len 0 (R.settings.workers + 1) }
    ensures ended { HaveEnded R.settings actors.new.items }
    ensures ring { result.ring ≡ K.ring }
    ensures end { result.hand ≡ End }
{
    match actors.pop() {
        Some(actor) => intake_of(actor),
        None => unreachable!(),
    }
}

// The profiler's share, who is the last of the workers and the profiler.
fn part_with_profiler<K: Naming, R: Run>(actors: &mut Actors<K, R>) -> Share
    requires numbers { numbers_of actors.old.items ≡ range_with_len 0 (R.settings.workers + 1) }
    requires ended { HaveEnded R.settings actors.old.items }
    ensures numbers { numbers_of actors.new.items ≡ range_with_len 0 R.settings.workers }
    ensures profiler { IsProfiler K.book R.settings result }
    ensures finished { result.row.a ≡ has_finished }
{
    match actors.pop() {
        Some(actor) => share_of(actor),
        None => unreachable!(),
    }
}

// The row of an actor's share, which is checked against the book, and with that against the journal.
fn checked<R: Run>(world: &mut World<R>, share: &mut Share) -> Row
    requires book { share.old.book ≡ world.old.book }
    ensures same { world.new ≡ world.old }
    ensures share { share.new ≡ share.old }
    ensures row { result ≡ share.old.row }
    ensures made { result.c ≡ made_in R.settings world.old.journal share.old.number }
    ensures done { result.d ≡ done_in R.program R.settings world.old.journal share.old.number }
    ensures complete { share.old.number ≡ R.settings.workers → result.a ≡ has_finished
        → IsComplete R.settings (state_of R.program R.settings world.old.journal) }
{
    world.check_actor(share);
    share.row()
}

// Notes what a worker did, by its share.
fn note<K: Naming, R: Run>(world: &mut World<R>, tally: &mut Tally, worker: Actor<K, R>)
    requires book { world.old.book ≡ K.book }
    requires number { worker.number < R.settings.workers }
    requires done_room { vec_len tally.old.done < vec_capacity tally.old.done }
    requires made_room { vec_len tally.old.made < vec_capacity tally.old.made }
    ensures same { world.new ≡ world.old }
    ensures done { tally.new.done.items
        ≡ tally.old.done.items ++ done_in R.program R.settings world.old.journal worker.number ∷ [] }
    ensures made { tally.new.made.items ≡ tally.old.made.items ++ made_in R.settings world.old.journal worker.number ∷ [] }
    ensures done_few { vec_len tally.new.done ≡ vec_len tally.old.done + 1 }
    ensures made_few { vec_len tally.new.made ≡ vec_len tally.old.made + 1 }
    ensures done_room { vec_capacity tally.new.done ≡ vec_capacity tally.old.done }
    ensures made_room { vec_capacity tally.new.made ≡ vec_capacity tally.old.made }
{
    match worker.role {
        Role::Worker { share } => {
            let mut share = share;
            let row = checked(world, &mut share);
            tally.done.push_reserved(row.d);
            tally.made.push_reserved(row.c);
        }
        Role::Profiler { .. } => unreachable!(),
        Role::Reader { .. } => unreachable!(),
    }
}

// What each of the workers and the profiler did, which have ended. Each share is checked.
fn count<K: Naming, R: Run>(
    alloc: Global,
    world: &mut World<R>,
    workers: Actors<K, R>,
    profiler: &mut Share,
) -> Result<Tally, Memory>
    requires range { AreInRange R.settings }
    requires book { world.old.book ≡ K.book }
    requires workers { numbers_of workers.items ≡ range_with_len 0 R.settings.workers }
    requires profiler { IsProfiler K.book R.settings profiler.old }
    requires finished { profiler.old.row.a ≡ has_finished }
    ensures same { world.new ≡ world.old }
    ensures share { profiler.new ≡ profiler.old }
    ensures done { IfOk result (λ tally. tally.done.items ≡ done_of (state_of R.program R.settings world.old.journal)) }
    ensures made { IfOk result (λ tally. tally.made.items ≡ made_of R.settings world.old.journal) }
    ensures complete { OnOk result (IsComplete R.settings (state_of R.program R.settings world.old.journal)) }
{
    // (it has no effect, but tells that the journal is legal)
    let _ = world.machine();
    let mut tally = Tally {
        done: Vec::with_capacity(alloc, workers.len())?,
        made: Vec::with_capacity(alloc, workers.len() + 1)?,
    };
    for worker in workers {
        note(world, &mut tally, worker);
    }
    tally.made.push_reserved(checked(world, profiler).c);
    Ok(tally)
}

// What is left of a complete run. The reader takes in the world's end of its ring.
fn take_apart<R: Run>(
    world: World<R>,
    profiler: Share,
    reader: Reader,
    cpu: Collector,
    tally: Tally,
) -> Finished<R>
    requires profiler { IsProfiler world.book R.settings profiler }
    requires finished { profiler.row.a ≡ has_finished }
    requires ring { IsOf world.ring reader.ring }
    requires end { reader.hand ≡ End }
    requires cpu { map ring_record_of cpu ≡ reader.taken }
    requires complete { IsComplete R.settings (state_of R.program R.settings world.journal) }
    requires done { tally.done.items ≡ done_of (state_of R.program R.settings world.journal) }
    requires made { tally.made.items ≡ made_of R.settings world.journal }
    ensures finished { IsFinished (code_of R.program) R.settings result.machine }
    ensures records { result.records ≡ records_of (code_of R.program) R.settings result.machine }
    ensures frozen { AreFrozen (code_of R.program) R.settings result.machine result.records }
    ensures block { result.block ≡ sums (block_events (code_of R.program) R.settings result.machine) }
    ensures mutex { result.mutex ≡ sums (mutex_events (code_of R.program) R.settings result.machine) }
    ensures cpu { map ring_record_of result.cpu ≡ result.reader.taken }
    ensures end { result.reader.hand ≡ End }
    ensures covered { Covers (map ring_record_of result.cpu) (samples_of_journal (code_of R.program) R.settings result.machine) }
    ensures head { BeginWithHead R.program R.settings result.machine (map ring_record_of result.cpu) }
    ensures done { result.done ≡ done_of (state_of R.program R.settings result.machine) }
    ensures made { result.made ≡ made_of R.settings result.machine }
{
    // (it has no effect, but tells that the journal is legal)
    let _ = world.machine();
    let (mut world, mut profiler, mut reader) = (world, profiler, reader);
    world.settle(&mut profiler, &mut reader);
    let WorldParts {
        machine,
        records,
        block,
        mutex,
    } = world.into_parts();
    let Tally { done, made } = tally;
    Finished {
        machine,
        records,
        block,
        mutex,
        cpu,
        reader,
        done: Sequence::from_vec(done),
        made: Sequence::from_vec(made),
    }
}

impl<K: Naming, R: Run> Locked<K, R> {
    // The run's end, once its actors have ended. `Memory`: one of them met want of memory, or there is none for the counts.
    fn end(self, alloc: Global, actors: Actors<K, R>) -> Result<Finished<R>, Memory>
        requires actors { AreActors R.settings actors.items }
        requires ended { HaveEnded R.settings actors.items }
        ensures finished { IfOk result (λ f. IsFinished (code_of R.program) R.settings f.machine) }
        ensures records { IfOk result (λ f. f.records ≡ records_of (code_of R.program) R.settings f.machine) }
        ensures frozen { IfOk result (λ f. AreFrozen (code_of R.program) R.settings f.machine f.records) }
        ensures block { IfOk result (λ f. f.block ≡ sums (block_events (code_of R.program) R.settings f.machine)) }
        ensures mutex { IfOk result (λ f. f.mutex ≡ sums (mutex_events (code_of R.program) R.settings f.machine)) }
        ensures cpu { IfOk result (λ f. map ring_record_of f.cpu ≡ f.reader.taken) }
        ensures end { IfOk result (λ f. f.reader.hand ≡ End) }
        ensures covered { IfOk result (λ f.
            Covers (map ring_record_of f.cpu) (samples_of_journal (code_of R.program) R.settings f.machine)) }
        ensures head { IfOk result (λ f. BeginWithHead R.program R.settings f.machine (map ring_record_of f.cpu)) }
        ensures done { IfOk result (λ f. f.done ≡ done_of (state_of R.program R.settings f.machine)) }
        ensures made { IfOk result (λ f. f.made ≡ made_of R.settings f.machine) }
    {
        let Locked { world, .. } = self;
        let (mut world, mut actors) = (world, actors);
        let intake = part_with_reader(&mut actors);
        let mut profiler = part_with_profiler(&mut actors);
        let (reader, cpu) = intake.into_parts()?;
        let tally = count(alloc, &mut world, actors, &mut profiler)?;
        Ok(take_apart(world, profiler, reader, cpu, tally))
    }
}

// A run from its begin to its end, with the book of its actors and the ring of its samples named.
fn run_named<K: Naming + Send + Sync, R: Run + Send + Sync, T: Threads + Wait + Sync, G: Gate>(
    rt: &T,
    alloc: Global,
    program: &Program,
    settings: &Settings,
    gate: &G,
    made: Made<R>,
) -> Result<Finished<R>, Memory>
    requires program { program.now ≡ R.program }
    requires settings { settings.now ≡ R.settings }
    requires range { AreInRange settings.now }
    requires made { IsBegun K.book K.ring made.world }
    requires shares { made.shares.items ≡ shares_of K.book R.settings.workers }
    requires reader { IsBegunReader R.program R.settings made.reader }
    requires ring { made.reader.ring ≡ K.ring }
    ensures finished { IfOk result (λ f. IsFinished (code_of R.program) R.settings f.machine) }
    ensures records { IfOk result (λ f. f.records ≡ records_of (code_of R.program) R.settings f.machine) }
    ensures frozen { IfOk result (λ f. AreFrozen (code_of R.program) R.settings f.machine f.records) }
    ensures block { IfOk result (λ f. f.block ≡ sums (block_events (code_of R.program) R.settings f.machine)) }
    ensures mutex { IfOk result (λ f. f.mutex ≡ sums (mutex_events (code_of R.program) R.settings f.machine)) }
    ensures cpu { IfOk result (λ f. map ring_record_of f.cpu ≡ f.reader.taken) }
    ensures end { IfOk result (λ f. f.reader.hand ≡ End) }
    ensures covered { IfOk result (λ f.
        Covers (map ring_record_of f.cpu) (samples_of_journal (code_of R.program) R.settings f.machine)) }
    ensures head { IfOk result (λ f. BeginWithHead R.program R.settings f.machine (map ring_record_of f.cpu)) }
    ensures done { IfOk result (λ f. f.done ≡ done_of (state_of R.program R.settings f.machine)) }
    ensures made { IfOk result (λ f. f.made ≡ made_of R.settings f.machine) }
{
    let (shared, actors) = Shared::<K, R>::new(alloc, program, settings, made)?;
    let back = play_all(rt, alloc, &shared, program, gate, actors)?;
    let Shared { world, .. } = shared;
    world.into_inner().end(alloc, back)
}

/// Runs a program on threads to the end: one for each worker but the first, one for the profiler and one for the reader; the first
/// worker plays on the caller's, and so does whoever's thread can't be started. `Memory`: one of the loops met want of memory, and
/// all of them have ended.
pub fn run_all<R: Run + Send + Sync, T: Threads + Wait + Sync, G: Gate>(
    rt: &T,
    alloc: Global,
    program: &Program,
    settings: &Settings,
    gate: &G,
) -> Result<Finished<R>, Memory>
    requires program { program.now ≡ R.program }
    requires settings { settings.now ≡ R.settings }
    requires range { AreInRange settings.now }
    ensures finished { IfOk result (λ f. IsFinished (code_of R.program) R.settings f.machine) }
    ensures records { IfOk result (λ f. f.records ≡ records_of (code_of R.program) R.settings f.machine) }
    ensures frozen { IfOk result (λ f. AreFrozen (code_of R.program) R.settings f.machine f.records) }
    ensures block { IfOk result (λ f. f.block ≡ sums (block_events (code_of R.program) R.settings f.machine)) }
    ensures mutex { IfOk result (λ f. f.mutex ≡ sums (mutex_events (code_of R.program) R.settings f.machine)) }
    ensures cpu { IfOk result (λ f. map ring_record_of f.cpu ≡ f.reader.taken) }
    ensures end { IfOk result (λ f. f.reader.hand ≡ End) }
    ensures covered { IfOk result (λ f.
        Covers (map ring_record_of f.cpu) (samples_of_journal (code_of R.program) R.settings f.machine)) }
    ensures head { IfOk result (λ f. BeginWithHead R.program R.settings f.machine (map ring_record_of f.cpu)) }
    ensures done { IfOk result (λ f. f.done ≡ done_of (state_of R.program R.settings f.machine)) }
    ensures made { IfOk result (λ f. f.made ≡ made_of R.settings f.machine) }
{
    let made = World::<R>::new(alloc, program, settings)?;
    run_named::<Brand, R, T, G>(rt, alloc, program, settings, gate, made)
}
