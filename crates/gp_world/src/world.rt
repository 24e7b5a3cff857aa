ghost use Rattle.std.specs.Prelude.{◌≡◌, ◌≤◌, ◌-◌, [], true, get_or};
ghost use Rattle.std.specs.Bool.{OnTrue, OnFalse};
ghost use Rattle.gp_events.specs.Sums.{sums};
ghost use Rattle.gp_history.specs.Events.{block_events, mutex_events};
ghost use Rattle.gp_journal.specs.Due as definition;
ghost use Rattle.gp_journal.specs.Due.{IsComplete};
ghost use Rattle.gp_journal.specs.Profiles.{records_of};
ghost use Rattle.gp_journal.specs.Run.{IsLegal, state_of};
ghost use Rattle.gp_journal.specs.State.{code_of, live, running};
ghost use Rattle.gp_world.specs.Calls.{live_at_open};

use crate::ring_end::RingEnd;
use gp_events::Buckets;
use gp_history::{History, HistoryParts};
use gp_machine::{Machine, Queue, Run};
use gp_ring::Reader;
use gp_stack::{Body, Profiles, Record};
use gp_tally::{Book, Share};
use std::marker::Model;

/// What the goroutines of a run share, behind its lock.
///
/// Its value is the journal, with who waits for a worker, its end of the ring of samples, which book the actors' shares are of, and
/// whether somebody met want of memory. Whenever the lock is free the journal is legal.
#[derive(Drop)]
pub struct World<R: Run> {
    pub(crate) history: History<R>,
    // runnable goroutines that no worker has picked
    pub(crate) waiting: Queue,
    pub(crate) ring: RingEnd,
    // a row for each actor
    pub(crate) book: Book,
    // bodies of those that aren't born yet
    pub(crate) unborn: Vec<Body>,
    pub(crate) numbers: Numbers,
    pub(crate) failed: bool,
}

/// Numbers that a world keeps beside: of workers, the room of a profile, and how many were live at the last Open.
#[derive(Clone, Copy)]
pub(crate) struct Numbers {
    pub(crate) workers: u32,
    pub(crate) room: u32,
    pub(crate) expected: u32,
}

impl<R: Run> Model for World<R> {
    ghost use Rattle.gp_world.specs.Scene.{Scene};
    ghost use Rattle.gp_world.specs.kept.World.{IsWorld};

    ghost Value = { Scene };

    ghost view = { λ w. record { book = w.book.book; journal = w.history; waiting = w.waiting.items; ring = w.ring; failed = w.failed } };

    ghost invariant = { λ w. IsWorld R.program R.settings w.history w.waiting w.ring w.book.rows w.unborn.items w.numbers };
}

/// A world as it begins, the reader's end of its ring of samples, and the share of each actor: the workers', and then the
/// profiler's.
#[derive(Drop)]
pub struct Made<R: Run> {
    pub world: World<R>,
    pub reader: Reader,
    pub shares: Vec<Share>,
}

/// What a world has, each part by itself.
#[derive(Drop)]
pub struct WorldParts<R: Run> {
    pub machine: Machine<R>,
    /// The records of each profile, by epoch.
    pub records: Profiles,
    /// The sums of the block events.
    pub block: Buckets,
    /// The sums of the mutex events.
    pub mutex: Buckets,
}

impl<R: Run> World<R> {
    /// Whether a profile is asked for: none is active, and the next request's instant has come, or the run is over.
    pub fn asked(&self) -> bool
        ensures { result ≡ definition.asked R.settings (state_of R.program R.settings self.now.journal) }
    {
        self.history.machine().asked()
    }

    /// Whether the run is over: main is dead, a fault was made, the journal is full, or nobody can go on.
    pub fn over(&self) -> bool
        ensures { result ≡ definition.over R.settings (state_of R.program R.settings self.now.journal) }
    {
        self.history.machine().over()
    }

    /// Whether the run is complete: over, nobody runs, no profile is active and none is left to be served.
    pub fn complete(&self) -> bool
        ensures complete { OnTrue result (IsComplete R.settings (state_of R.program R.settings self.now.journal)) }
        ensures more { OnFalse result (IsComplete R.settings (state_of R.program R.settings self.now.journal) → ⊥) }
    {
        self.history.machine().complete()
    }

    /// How many goroutines run.
    pub fn running(&self) -> u32
        ensures { result ≡ running (state_of R.program R.settings self.now.journal) }
    {
        self.history.machine().running()
    }

    /// How many are live.
    pub fn live(&self) -> u32
        ensures { result ≡ live (state_of R.program R.settings self.now.journal) }
    {
        self.history.machine().live()
    }

    /// How many were live at the last Open, 0 before the first.
    pub fn expected(&self) -> u32
        ensures { result ≡ live_at_open (code_of R.program) R.settings self.now.journal }
    {
        self.numbers.expected
    }

    /// The machine, which tells the entries so far and what they did.
    pub fn machine(&self) -> &Machine<R>
        ensures journal { result.now ≡ self.now.journal }
        ensures legal { IsLegal (code_of R.program) R.settings self.now.journal }
    {
        self.history.machine()
    }

    /// The records of the profile of an epoch, in the order in which they were made.
    pub fn records(&self, epoch: u32) -> &[Record]
        requires { 1 ≤ epoch }
        ensures { result.now ≡ get_or (records_of (code_of R.program) R.settings self.now.journal) (epoch - 1) [] }
    {
        self.history.records(epoch)
    }

    /// The sums of the block events so far.
    pub fn block(&self) -> &Buckets
        ensures { result.now ≡ sums (block_events (code_of R.program) R.settings self.now.journal) }
    {
        self.history.block()
    }

    /// The sums of the mutex events so far.
    pub fn mutex(&self) -> &Buckets
        ensures { result.now ≡ sums (mutex_events (code_of R.program) R.settings self.now.journal) }
    {
        self.history.mutex()
    }

    /// Notes that somebody met want of memory. Every loop then ends.
    pub fn fail(&mut self)
        ensures { self.new ≡ record self.old { failed = true } }
    {
        self.failed = true;
    }

    /// Whether somebody met want of memory.
    pub fn failed(&self) -> bool
        ensures { result ≡ self.now.failed }
    {
        self.failed
    }

    /// The machine, the records and the sums. It takes no memory.
    pub fn into_parts(self) -> WorldParts<R>
        ensures machine { result.machine ≡ self.journal }
        ensures records { result.records ≡ records_of (code_of R.program) R.settings self.journal }
        ensures block { result.block ≡ sums (block_events (code_of R.program) R.settings self.journal) }
        ensures mutex { result.mutex ≡ sums (mutex_events (code_of R.program) R.settings self.journal) }
    {
        let World { history, .. } = self;
        let HistoryParts {
            machine,
            records,
            block,
            mutex,
        } = history.into_parts();
        WorldParts {
            machine,
            records,
            block,
            mutex,
        }
    }
}
