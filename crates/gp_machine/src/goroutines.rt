ghost use Rattle.std.specs.Prelude.{◌≡◌, ◌<◌, ◌≤◌, ◌++◌, ◌∷◌, ◌+◌, ◌^◌, [], ℕ, true, false, IsTrue, length, get_or, set, count_by, IfOk, nat_lt};
ghost use Rattle.gp_isa.specs.Limits.{most_cells};
ghost use Rattle.gp_journal.specs.State.{nobody, is_runnable, is_running, is_live, is_behind};
ghost use Rattle.gp_journal.specs.Standing.{first_behind};
ghost use Rattle.gp_journal.specs.Effect.{unmarked};
ghost use Rattle.gp_machine.specs.kept.Crowd.{is_settled, one_if, further};

use crate::id_set::IdSet;
use gp_isa::Memory;
use gp_journal::{Goroutine, Status};
use std::alloc::Global;
use std::marker::Model;
use std::mem;

/// The goroutines that were born, by number.
///
/// How many are live, running and runnable is counted as they change, and who has still to be recorded in the active
/// profile is marked, so that each call takes constant time. To open a profile exchanges the two sets of marks: all
/// live goroutines were recorded or born before, and all have to be recorded again.
#[derive(Debug, Drop)]
pub struct Goroutines {
    cells: u32,
    all: Vec<Goroutine>,
    active: u32,
    live: u32,
    running: u32,
    runnable: u32,
    // the live ones that have nothing to be recorded, and the others
    recorded: IdSet,
    unrecorded: IdSet,
}

impl Model for Goroutines {
    ghost use Rattle.std.specs.Prelude.{length};
    ghost use Rattle.std.specs.Vec.{vec_capacity};
    ghost use Rattle.gp_machine.specs.kept.Crowd.{Crowd, AreCounted};

    ghost Value = { Crowd };

    ghost view = { λ t. record { cells = t.cells; all = t.all.items; active = t.active } };

    ghost invariant = { λ t. AreCounted t.cells (vec_capacity t.all) t.all.items t.active
        t.live t.running t.runnable t.recorded t.unrecorded };
}

const NOBODY: Goroutine = Goroutine {
    start: 0,
    set: 0,
    count: 0,
    status: Status::Dead,
    granted: false,
    epoch: 0,
    blocked: 0,
    woken: 0,
};

fn is_runnable(g: Goroutine) -> bool
    ensures { result ≡ is_runnable g.status }
{
    matches!(g.status, Status::Runnable)
}

fn is_running(g: Goroutine) -> bool
    ensures { result ≡ is_running g.status }
{
    matches!(g.status, Status::Running { .. })
}

pub(crate) fn is_live(g: Goroutine) -> bool
    ensures { result ≡ is_live g }
{
    !matches!(g.status, Status::Dead)
}

fn is_behind(epoch: u32, g: Goroutine) -> bool
    ensures { result ≡ is_behind epoch g }
{
    is_live(g) && g.epoch < epoch
}

fn is_settled(epoch: u32, g: Goroutine) -> bool
    ensures { result ≡ is_settled epoch g }
{
    is_live(g) && !is_behind(epoch, g)
}

// A number of some kind of goroutines, once one that was of it or wasn't is of it or isn't.
pub(crate) fn moved(count: u32, was: bool, is: bool) -> u32
    requires was { IsTrue was → 1 ≤ count }
    requires few { count < 2 ^ 31 }
    ensures { result + one_if was ≡ count + one_if is }
{
    count + is as u32 - was as u32
}

fn mark(ids: &mut IdSet, g: u32, is: bool)
    requires { g < length ids.old }
    ensures { ids.new ≡ set ids.old g is }
{
    if is {
        ids.insert(g);
    } else {
        ids.remove(g);
    }
}

// Marks goroutine g, which was another one before, where it is live now and wasn't, or the other way round, or its epoch
// is another.
fn mark_again(
    recorded: &mut IdSet,
    unrecorded: &mut IdSet,
    active: u32,
    g: u32,
    old: Goroutine,
    new: Goroutine,
)
    requires recorded { g < length recorded.old }
    requires unrecorded { g < length unrecorded.old }
    requires was_settled { get_or recorded.old g false ≡ is_settled active old }
    requires was_behind { get_or unrecorded.old g false ≡ is_behind active old }
    ensures settled { recorded.new ≡ set recorded.old g (is_settled active new) }
    ensures behind { unrecorded.new ≡ set unrecorded.old g (is_behind active new) }
{
    if is_live(old) == is_live(new) && old.epoch == new.epoch {
        return;
    }
    mark(unrecorded, g, is_behind(active, new));
    mark(recorded, g, is_settled(active, new));
}

impl Goroutines {
    /// With `first` born, and room for so many. Nothing that is done with them takes memory after.
    pub fn new(alloc: Global, cells: u32, first: Goroutine) -> Result<Goroutines, Memory>
        requires some { 1 ≤ cells }
        requires few { cells ≤ most_cells }
        ensures { IfOk result (λ goroutines. goroutines ≡ record { cells = cells; all = first ∷ []; active = 0 }) }
    {
        let mut goroutines = Goroutines {
            cells,
            all: Vec::with_capacity(alloc, cells as usize)?,
            active: 0,
            live: 0,
            running: 0,
            runnable: 0,
            recorded: IdSet::new(alloc, cells)?,
            unrecorded: IdSet::new(alloc, cells)?,
        };
        goroutines.push(first);
        Ok(goroutines)
    }

    /// How many were born.
    pub fn births(&self) -> u32
        ensures { result ≡ length self.now.all }
    {
        self.all.len() as u32
    }

    /// Whether one more can be born.
    pub fn has_cell(&self) -> bool
        ensures { result ≡ nat_lt (length self.now.all) self.now.cells }
    {
        (self.all.len() as u32) < self.cells
    }

    /// How many are live.
    pub fn live(&self) -> u32
        ensures { result ≡ count_by is_live self.now.all }
    {
        self.live
    }

    /// How many run.
    pub fn running(&self) -> u32
        ensures { result ≡ count_by (λ g. is_running g.status) self.now.all }
    {
        self.running
    }

    /// How many could run, and don't.
    pub fn runnable(&self) -> u32
        ensures { result ≡ count_by (λ g. is_runnable g.status) self.now.all }
    {
        self.runnable
    }

    /// The epoch of the active profile, or 0.
    pub fn active(&self) -> u32
        ensures { result ≡ self.now.active }
    {
        self.active
    }

    /// The goroutine of a number, a dead one where there is none.
    pub fn get(&self, g: u32) -> Goroutine
        ensures { result ≡ get_or self.now.all g nobody }
    {
        self.all.get(g as usize).copied().unwrap_or(NOBODY)
    }

    /// The first that has still to be recorded.
    pub fn unrecorded(&self) -> Option<u32>
        ensures { result ≡ first_behind self.now.active self.now.all }
    {
        self.unrecorded.least()
    }

    /// Changes one of them.
    pub fn set(&mut self, g: u32, new: Goroutine)
        requires { g < length self.old.all }
        ensures { self.new ≡ record self.old { all = set self.old.all g new } }
    {
        let old = self.get(g);
        self.live = moved(self.live, is_live(old), is_live(new));
        self.running = moved(self.running, is_running(old), is_running(new));
        self.runnable = moved(self.runnable, is_runnable(old), is_runnable(new));
        mark_again(
            &mut self.recorded,
            &mut self.unrecorded,
            self.active,
            g,
            old,
            new,
        );
        self.all[g as usize] = new;
    }

    /// One of them passes n points, and goes on.
    pub fn advance(&mut self, g: u32, n: u64)
        requires within { g < length self.old.all }
        requires room { (get_or self.old.all g nobody).count + n < 2 ^ 64 }
        ensures { self.new ≡ record self.old { all = set self.old.all g (further n (get_or self.old.all g nobody)) } }
    {
        let it = &mut self.all[g as usize];
        it.count += n;
    }

    /// One of them loses its granted mark.
    pub fn unmark(&mut self, g: u32)
        requires { g < length self.old.all }
        ensures { self.new ≡ record self.old { all = set self.old.all g (unmarked (get_or self.old.all g nobody)) } }
    {
        let it = &mut self.all[g as usize];
        it.granted = false;
    }

    /// One more is born.
    pub fn push(&mut self, new: Goroutine)
        requires { length self.old.all < self.old.cells }
        ensures { self.new ≡ record self.old { all = self.old.all ++ new ∷ [] } }
    {
        let g = self.all.len() as u32;
        self.live = moved(self.live, false, is_live(new));
        self.running = moved(self.running, false, is_running(new));
        self.runnable = moved(self.runnable, false, is_runnable(new));
        mark(&mut self.unrecorded, g, is_behind(self.active, new));
        mark(&mut self.recorded, g, is_settled(self.active, new));
        match self.all.push(new) {
            Ok(()) => {}
            Err(_) => unreachable!(),
        }
    }

    /// A profile becomes active, in which all live ones have to be recorded.
    pub fn open(&mut self, epoch: u32)
        requires none { self.old.active ≡ 0 }
        requires before { (g : ℕ) → is_live (get_or self.old.all g nobody) ≡ true → (get_or self.old.all g nobody).epoch < epoch }
        ensures { self.new ≡ record self.old { active = epoch } }
    {
        mem::swap(&mut self.recorded, &mut self.unrecorded);
        self.active = epoch;
    }

    /// The active profile is closed, in which all were recorded.
    pub fn close(&mut self)
        requires { count_by (is_behind self.old.active) self.old.all ≡ 0 }
        ensures { self.new ≡ record self.old { active = 0 } }
    {
        self.active = 0;
    }
}
