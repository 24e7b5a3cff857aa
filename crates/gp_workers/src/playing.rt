//! Actors play their turns, on a thread of their own or at home, until they have nothing to do any more.
ghost use Rattle.std.specs.Prelude.{◌≡◌, ◌≢◌, ◌↔◌, ◌⊎◌, IsTrue};
ghost use Rattle.std.proofs.Props.{props};
ghost use Rattle.gp_workers.specs.Actors.{HasEnded};
ghost use mathlib.Core.Sum.{⊎_set};
ghost use Rattle.gp_workers.specs.declared.turn.Turn.TheVariants as came_to;

use crate::actor::{Actor, Shared};
use crate::gate::Gate;
use crate::naming::Naming;
use crate::turn::Turn;
use crossbeam_utils::Backoff;
use gp_isa::Program;
use gp_machine::Run;
use std::alloc::Global;
use std::sync::Wait;
use std::sync::atomic::{AtomicBool, Ordering};
use std::thread::Promise;

/// An actor, and what its last turn came to.
#[derive(Drop)]
pub(crate) struct Player<K: Naming, R: Run> {
    pub(crate) actor: Actor<K, R>,
    pub(crate) last: Turn,
    ghost told: { last ≡ came_to.Done → HasEnded R.settings actor } by { Prim.hlevel (props, ⊎_set) },
}

/// The player who comes back from a thread is the actor of this number.
#[derive(Clone, Copy)]
pub(crate) struct Numbered {
    pub(crate) number: u32,
}

impl<K: Naming, R: Run> Promise<Player<K, R>> for Numbered {
    ghost kept_by = { λ p r. r.actor.number ≡ p.number };
}

// Rests after a turn that had nothing to do, the longer the more of them come one after another.
fn rest(backoff: &Backoff, last: Turn) {
    match last {
        Turn::Idle => backoff.snooze(),
        _ => backoff.reset(),
    }
}

impl<K: Naming, R: Run> Player<K, R> {
    /// An actor that has had no turn.
    pub fn new(actor: Actor<K, R>) -> Player<K, R>
        ensures { result.actor ≡ actor }
    {
        Player {
            actor,
            last: Turn::Idle,
        }
    }

    /// Whether it has no further turn: it is done, or there was no memory.
    pub fn is_over(&self) -> bool
        ensures { IsTrue result ↔ ((self.now.last ≡ Turn.Done) ⊎ (self.now.last ≡ Turn.Memory)) }
    {
        match self.last {
            Turn::Done => true,
            Turn::Memory => true,
            _ => false,
        }
    }

    /// One turn.
    pub fn play<T: Wait, G: Gate>(
        &mut self,
        rt: &T,
        alloc: Global,
        shared: &Shared<K, R>,
        program: &Program,
        gate: &G,
    )
        requires { program.now ≡ R.program }
        ensures { self.new.actor.number ≡ self.old.actor.number }
    {
        self.last = self.actor.turn(rt, alloc, shared, program, gate);
    }
}

/// Turn after turn, until it has no further one. After an idle one it rests.
pub(crate) fn play_on<K: Naming, R: Run, T: Wait, G: Gate>(
    rt: &T,
    alloc: Global,
    shared: &Shared<K, R>,
    program: &Program,
    gate: &G,
    mut player: Player<K, R>,
) -> Player<K, R>
    requires { program.now ≡ R.program }
    ensures number { result.actor.number ≡ player.actor.number }
    ensures over { (result.last ≡ Turn.Done) ⊎ (result.last ≡ Turn.Memory) }
{
    let backoff = Backoff::new();
    for _ in rt.forever() {
        if player.is_over() {
            break;
        }
        player.play(rt, alloc, shared, program, gate);
        rest(&backoff, player.last);
    }
    player
}

/// What a thread of an actor's own does: it plays on. Where the actor is called back before, because its thread couldn't be
/// started, it comes back as it was.
pub(crate) fn play_away<K: Naming, R: Run, T: Wait, G: Gate>(
    rt: &T,
    alloc: Global,
    shared: &Shared<K, R>,
    program: &Program,
    gate: &G,
    actor: Actor<K, R>,
    back: &AtomicBool,
) -> Player<K, R>
    requires { program.now ≡ R.program }
    ensures { result.actor.number ≡ actor.number }
{
    let player = Player::new(actor);
    if back.load(Ordering::SeqCst) {
        return player;
    }
    play_on(rt, alloc, shared, program, gate, player)
}
