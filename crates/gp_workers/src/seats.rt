//! Where each actor plays: on a thread of its own, or at home, on the caller's.
ghost use Rattle.std.specs.Prelude.{◌≡◌, ◌+◌, ◌≤◌, ◌⊎◌, [], length, map, vec_len, vec_capacity, IfOk, IfErr};
ghost use Rattle.std.specs.List.{range_with_len};
ghost use Rattle.std.proofs.Props.{props};
ghost use Rattle.gp_workers.specs.Actors.{HasEnded, AreActors, HaveEnded};

use crate::actor::{Actor, Shared};
use crate::gate::Gate;
use crate::naming::Naming;
use crate::playing::{Numbered, Player, play_away, play_on};
use crate::turn::Turn;
use crossbeam_utils::Backoff;
use gp_isa::{Memory, Program};
use gp_machine::Run;
use std::alloc::Global;
use std::sync::Wait;
use std::sync::atomic::{AtomicBool, Ordering};
use std::thread;
use std::thread::{PromisedHandle, Threads};

/// An actor's seat: the handle of its thread, or the actor itself where it plays at home.
#[derive(Drop)]
pub(crate) struct Seat<K: Naming, R: Run> {
    number: u32,
    at: Result<PromisedHandle<Player<K, R>, Numbered>, Player<K, R>>,
    ghost away: { IfOk at (λ child. child.promise.number ≡ number) } by { Prim.hlevel props },
    ghost home: { IfErr at (λ player. player.actor.number ≡ number) } by { Prim.hlevel props },
}

impl<K: Naming, R: Run> Seat<K, R> {
    /// The seat of a player at home.
    fn home(player: Player<K, R>) -> Seat<K, R>
        ensures { result.number ≡ player.actor.number }
    {
        let number = player.actor.number();
        Seat {
            number,
            at: Err(player),
        }
    }

    /// That of one who plays on a thread.
    fn away(number: u32, child: PromisedHandle<Player<K, R>, Numbered>) -> Seat<K, R>
        requires { child.promise.number ≡ number }
        ensures { result.number ≡ number }
    {
        Seat {
            number,
            at: Ok(child),
        }
    }

    /// One turn, if it plays at home and isn't over. A turn of one that isn't here is `Done`.
    fn play<T: Wait, G: Gate>(
        &mut self,
        rt: &T,
        alloc: Global,
        shared: &Shared<K, R>,
        program: &Program,
        gate: &G,
    ) -> Turn
        requires { program.now ≡ R.program }
        ensures { self.new.number ≡ self.old.number }
    {
        match &mut self.at {
            Ok(_) => Turn::Done,
            Err(player) => {
                if !player.is_over() {
                    player.play(rt, alloc, shared, program, gate);
                }
                player.last
            }
        }
    }

    /// The player, who is back from its thread if it has one.
    fn join<T: Threads>(self, rt: &T) -> Player<K, R>
        ensures { result.actor.number ≡ self.number }
    {
        let Seat { at, .. } = self;
        match at {
            Ok(child) => child.join(rt),
            Err(player) => player,
        }
    }
}

// What two turns of a round came to together: one that went counts most, then one that was idle.
fn busier(one: Turn, other: Turn) -> Turn {
    match (one, other) {
        (Turn::Went, _) => Turn::Went,
        (_, Turn::Went) => Turn::Went,
        (Turn::Idle, _) => Turn::Idle,
        (_, Turn::Idle) => Turn::Idle,
        _ => one,
    }
}

// A round: each of those at home who isn't over has one turn.
fn round<K: Naming, R: Run, T: Wait, G: Gate>(
    rt: &T,
    alloc: Global,
    shared: &Shared<K, R>,
    program: &Program,
    gate: &G,
    seats: &mut Vec<Seat<K, R>>,
) -> Turn
    requires { program.now ≡ R.program }
    ensures { map (λ seat. seat.number) seats.new.items ≡ map (λ seat. seat.number) seats.old.items }
{
    let mut all = Turn::Done;
    for k in 0..seats.len() {
        all = busier(all, seats[k].play(rt, alloc, shared, program, gate));
    }
    all
}

// Those at home play in rotation, until all of them are over. After a round in which nobody went the caller rests.
fn play_at_home<K: Naming, R: Run, T: Wait, G: Gate>(
    rt: &T,
    alloc: Global,
    shared: &Shared<K, R>,
    program: &Program,
    gate: &G,
    seats: &mut Vec<Seat<K, R>>,
)
    requires { program.now ≡ R.program }
    ensures { map (λ seat. seat.number) seats.new.items ≡ map (λ seat. seat.number) seats.old.items }
{
    let backoff = Backoff::new();
    for _ in rt.forever() {
        match round(rt, alloc, shared, program, gate, seats) {
            Turn::Went => backoff.reset(),
            Turn::Idle => backoff.snooze(),
            _ => break,
        }
    }
}

// The actor who has no further turn, which is done. `Memory`: it met want of memory.
fn ended<K: Naming, R: Run>(player: Player<K, R>) -> Result<Actor<K, R>, Memory>
    requires { (player.last ≡ Turn.Done) ⊎ (player.last ≡ Turn.Memory) }
    ensures number { IfOk result (λ actor. actor.number ≡ player.actor.number) }
    ensures ended { IfOk result (HasEnded R.settings) }
{
    let Player { actor, last, .. } = player;
    if last == Turn::Memory {
        return Err(Memory);
    }
    Ok(actor)
}

// All come back, each of them over. `Memory`: one met want of memory.
fn join_all<K: Naming, R: Run, T: Threads + Wait, G: Gate>(
    rt: &T,
    alloc: Global,
    shared: &Shared<K, R>,
    program: &Program,
    gate: &G,
    seats: Vec<Seat<K, R>>,
    mut back: Vec<Actor<K, R>>,
) -> Result<Vec<Actor<K, R>>, Memory>
    requires program { program.now ≡ R.program }
    requires seats { map (λ seat. seat.number) seats.items ≡ range_with_len 0 (R.settings.workers + 2) }
    requires none { back.items ≡ [] }
    requires room { R.settings.workers + 2 ≤ vec_capacity back }
    ensures actors { IfOk result (λ back. AreActors R.settings back.items) }
    ensures ended { IfOk result (λ back. HaveEnded R.settings back.items) }
{
    for seat in seats {
        let player = play_on(rt, alloc, shared, program, gate, seat.join(rt));
        back.push_reserved(ended(player)?);
    }
    Ok(back)
}

// One flag for each actor, by which it is called back.
fn flags(alloc: Global, actors: usize) -> Result<Vec<AtomicBool>, Memory>
    ensures { IfOk result (λ flags. vec_len flags ≡ actors) }
{
    let mut flags = Vec::with_capacity(alloc, actors)?;
    for _ in 0..actors {
        flags.push_reserved(AtomicBool::new(false));
    }
    Ok(flags)
}

/// All actors play until they are over: the first of the workers at home, each other on a thread of its own, or at home where
/// that can't be started. They come back in their order, each of them done. `Memory`: one met want of memory; all ended then too.
pub(crate) fn play_all<
    K: Naming + Send + Sync,
    R: Run + Send + Sync,
    T: Threads + Wait + Sync,
    G: Gate,
>(
    rt: &T,
    alloc: Global,
    shared: &Shared<K, R>,
    program: &Program,
    gate: &G,
    actors: Vec<Actor<K, R>>,
) -> Result<Vec<Actor<K, R>>, Memory>
    requires program { program.now ≡ R.program }
    requires actors { AreActors R.settings actors.items }
    requires many { vec_len actors ≡ R.settings.workers + 2 }
    ensures actors { IfOk result (λ back. AreActors R.settings back.items) }
    ensures ended { IfOk result (λ back. HaveEnded R.settings back.items) }
{
    let called = flags(alloc, actors.len())?;
    let called = called.as_slice();
    thread::scope(
        thread::scope_env(),
        rt,
        move |scope| -> Result<Vec<Actor<K, R>>, Memory>
            requires program { program.now ≡ R.program }
            requires actors { AreActors R.settings actors.items }
            requires many { vec_len actors ≡ R.settings.workers + 2 }
            requires called { length called.now ≡ R.settings.workers + 2 }
            ensures actors { IfOk result (λ back. AreActors R.settings back.items) }
            ensures ended { IfOk result (λ back. HaveEnded R.settings back.items) }
        {
            let mut seats = Vec::with_capacity(alloc, actors.len())?;
            let back = Vec::with_capacity(alloc, actors.len())?;
            for actor in actors {
                let number = actor.number();
                if number == 0 {
                    seats.push_reserved(Seat::home(Player::new(actor)));
                    continue;
                }
                let flag = &called[number as usize];
                let seat = match scope.spawn_with(
                    Numbered { number },
                    move || -> Player<K, R>
                        requires { program.now ≡ R.program }
                        ensures { result.actor.number ≡ actor.number }
                    { play_away(rt, alloc, shared, program, gate, actor, flag) },
                ) {
                    Ok(child) => Seat::away(number, child),
                    Err(refused) => {
                        flag.store(true, Ordering::SeqCst);
                        Seat::home((refused.value)())
                    }
                };
                seats.push_reserved(seat);
            }
            play_at_home(rt, alloc, shared, program, gate, &mut seats);
            join_all(rt, alloc, shared, program, gate, seats, back)
        },
    )
}
