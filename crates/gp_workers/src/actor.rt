//! An actor of a run, whose turns may come on any thread.
ghost use Rattle.std.specs.Prelude.{◌≡◌, ◌↔◌, ◌≤◌, ◌+◌};
ghost use Rattle.gp_ring.specs.PlainRing.{End};
ghost use Rattle.gp_workers.specs.Actors.{HasEnded, IsInVain, ReadsInVain};

use crate::gate::Gate;
use crate::intake::Intake;
use crate::locked::Locked;
use crate::naming::Naming;
use crate::turn::{Did, Turn};
use gp_isa::Program;
use gp_machine::Run;
use gp_tally::Share;
use std::alloc::Global;
use std::marker::{Model, PhantomData};
use std::sync::atomic::{AtomicBool, Ordering};
use std::sync::{Mutex, Wait};

/// Who an actor is, with its share of the actors' book, or with the end of the ring that it reads.
#[derive(Drop)]
pub(crate) enum Role {
    Worker { share: Share },
    /// `room` is the option's.
    Profiler { share: Share, room: u32 },
    /// `number` is one above the profiler's.
    Reader { number: u32, intake: Intake },
}

/// An actor: a worker, the profiler, or the reader. Its value is its number and the row of its share, or the end of the ring that
/// it reads.
#[derive(Drop)]
pub struct Actor<K: Naming, R: Run> {
    pub(crate) role: Role,
    pub(crate) of: PhantomData<(K, R)>,
}

impl<K: Naming, R: Run> Model for Actor<K, R> {
    ghost use Rattle.gp_workers.specs.Actors.{Actor};
    ghost use Rattle.gp_workers.specs.kept.Roles.{actor_of, IsRole};

    ghost Value = { Actor };

    ghost view = { λ a. actor_of R.settings a.role };

    ghost invariant = { λ a. IsRole K.book K.ring R.settings a.role };
}

/// What the actors of a run share.
#[derive(Drop)]
pub struct Shared<K: Naming, R: Run> {
    pub world: Mutex<Locked<K, R>>,
    // whether somebody met want of memory, for the reader, who doesn't look behind the lock
    pub(crate) failed: AtomicBool,
}

// A turn of the reader. It takes the lock only to note that it met want of memory.
fn read<K: Naming, R: Run, T: Wait>(
    rt: &T,
    alloc: Global,
    shared: &Shared<K, R>,
    intake: &mut Intake,
) -> Did
    ensures ring { intake.new.ring ≡ intake.old.ring }
    ensures done { (result.turn ≡ Turn.Done) ↔ (intake.new.hand ≡ End) }
    ensures idle { result.turn ≡ Turn.Idle → IsInVain intake.old intake.new }
{
    let did = intake.turn(alloc, shared.failed.load(Ordering::SeqCst));
    if did.turn == Turn::Memory {
        shared.world.lock(rt).fail();
    }
    did
}

impl<K: Naming, R: Run> Actor<K, R> {
    /// Its number: the workers' from 0 on, the profiler's behind them, and the reader's behind that.
    pub fn number(&self) -> u32
        ensures { result ≡ self.now.number }
    {
        match &self.role {
            Role::Worker { share } => share.number(),
            Role::Profiler { share, .. } => share.number(),
            Role::Reader { number, .. } => *number,
        }
    }

    /// A turn: under the lock it makes at most one Start, Run, Op, Tick, Park, Open, Refuse or Close and one Record, or without the
    /// lock it reads the ring once; then, with no lock held, it passes the places that it came by. So by its share it has made at
    /// most two entries more. `Done` comes, for a worker, exactly where it has found the run over as the turn ends, for the profiler
    /// exactly where it has finished, and for the reader exactly where it found the end last. The reader is idle only where it
    /// loaded the word of what is written in this turn, and took nothing by it. What `Idle` of the others means is said where the
    /// lock is held (`Locked::work` and `Locked::profile`), since it speaks of what stands behind the lock.
    pub fn turn<T: Wait, G: Gate>(
        &mut self,
        rt: &T,
        alloc: Global,
        shared: &Shared<K, R>,
        program: &Program,
        gate: &G,
    ) -> Turn
        requires { program.now ≡ R.program }
        ensures number { self.new.number ≡ self.old.number }
        ensures few { self.new.row.c ≤ self.old.row.c + 2 }
        ensures done { (result ≡ Turn.Done) ↔ HasEnded R.settings self.new }
        ensures idle { result ≡ Turn.Idle → ReadsInVain self.old.reader self.new.reader }
    {
        let did = match &mut self.role {
            Role::Worker { share } => shared.world.lock(rt).work(alloc, program, share),
            Role::Profiler { share, room } => {
                shared.world.lock(rt).profile(alloc, program, share, *room)
            }
            Role::Reader { intake, .. } => read(rt, alloc, shared, intake),
        };
        if did.turn == Turn::Memory {
            shared.failed.store(true, Ordering::SeqCst);
        }
        did.pass(gate);
        did.turn
    }
}
