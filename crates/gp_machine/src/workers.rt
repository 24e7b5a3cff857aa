ghost use Rattle.std.specs.Prelude.{◌≡◌, ◌≢◌, ◌<◌, ◌≤◌, ◌+◌, ◌-◌, ◌%◌, ◌^◌, ◌==◌, ℕ, true};
ghost use Rattle.std.specs.Prelude.{length, get_or, set, take, replicate, count_by, IfOk};
ghost use Rattle.std.specs.Int.{bit_at};
ghost use Rattle.gp_isa.specs.Limits.{most_workers};
ghost use Rattle.gp_journal.specs.State.{resting};
ghost use Rattle.gp_journal.specs.Effect as effect;
ghost use Rattle.gp_machine.specs.OnWorker.{is_busy};
ghost use Rattle.gp_machine.specs.kept.Crowd.{one_if};
ghost use Rattle.gp_machine.specs.kept.Workers.{bits_below, left_of, worked_at, worked_by};

use crate::goroutines::moved;
use gp_isa::Memory;
use gp_journal::Worker;
use std::alloc::Global;
use std::marker::Model;

/// The workers, by number.
///
/// Those that run a goroutine are marked and counted as they start one and leave it. How many instructions each has left to
/// its next tick is counted down, so that a division is made at a tick alone.
#[derive(Debug, Drop)]
pub struct Workers {
    // how many instructions of a worker lie between two ticks
    period: u64,
    all: Vec<Worker>,
    // by worker: how many are left to its next tick
    to_tick: Vec<u64>,
    // bit w tells whether worker w runs a goroutine
    marks: u32,
    // how many do
    busy: u32,
}

impl Model for Workers {
    ghost use Rattle.gp_machine.specs.kept.Workers.{Crew, AreKept};

    ghost Value = { Crew };

    ghost view = { λ w. record { period = w.period; all = w.all.items } };

    ghost invariant = { λ w. AreKept w.period w.all.items w.to_tick.items w.marks w.busy };
}

const RESTING: Worker = Worker {
    runs: None,
    instructions: 0,
    slice: 0,
    tick: false,
};

// A worker with so many instructions runs n more: `left` is how many it has left to its next tick. It tells whether it
// comes to one.
fn count_down(left: &mut u64, period: u64, instructions: u64, n: u64) -> bool
    requires some { 0 < period }
    requires left { left.old ≡ period - instructions % period }
    requires room { instructions + n < 2 ^ 64 }
    ensures left { left.new ≡ period - (instructions + n) % period }
    ensures comes { result ≡ ((instructions + n) % period == 0) }
{
    if 0 < n && n < *left {
        *left -= n;
        return false;
    }
    let past = (instructions + n) % period;
    *left = period - past;
    past == 0
}

// A worker has run n instructions more, which brought it to a tick or not, and its goroutine has died or not.
fn work(worker: &mut Worker, n: u64, died: bool, at_tick: bool)
    requires instructions { worker.old.instructions + n < 2 ^ 64 }
    requires slice { worker.old.slice + n < 2 ^ 64 }
    ensures { worker.new ≡ worked_at n died at_tick worker.old }
{
    worker.instructions += n;
    worker.slice += n;
    if died {
        worker.runs = None;
    } else if at_tick {
        worker.tick = true;
    }
}

// The marks of workers once worker w runs a goroutine or doesn't.
fn mark(marks: u32, w: u32, is: bool) -> u32
    requires { w < 32 }
    ensures here { bit_at result w ≡ one_if is }
    ensures others { (v : ℕ) → v < 32 → v ≢ w → bit_at result v ≡ bit_at marks v }
{
    let bit = 1 << w;
    if is { marks | bit } else { marks & !bit }
}

// The place in a word of one of its set bits, which are counted from 0 and from the lowest.
fn set_bit(word: u32, count: u32) -> u32
    requires { count < bits_below word 32 }
    ensures within { result < 32 }
    ensures set { bit_at word result ≡ 1 }
    ensures before { bits_below word result ≡ count }
{
    let mut rest = word;
    let mut left = count;
    while left > 0 {
        rest &= !(1 << rest.trailing_zeros());
        left -= 1;
    }
    rest.trailing_zeros()
}

impl Workers {
    /// So many, which run nothing, and between whose ticks lie so many instructions. Nothing that is done with them takes
    /// memory after.
    pub fn new(alloc: Global, count: u32, period: u64) -> Result<Workers, Memory>
        requires few { count ≤ most_workers }
        requires some { 0 < period }
        ensures { IfOk result (λ workers. workers ≡ record { period = period; all = replicate count resting }) }
    {
        let all = vec![in alloc; RESTING; count as usize]?;
        let to_tick = vec![in alloc; period; count as usize]?;
        Ok(Workers {
            period,
            all,
            to_tick,
            marks: 0,
            busy: 0,
        })
    }

    /// The worker of a number, one that rests where there is none.
    pub fn get(&self, w: u32) -> Worker
        ensures { result ≡ get_or self.now.all w resting }
    {
        self.all.get(w as usize).copied().unwrap_or(RESTING)
    }

    /// How many run a goroutine.
    pub fn busy(&self) -> u32
        ensures { result ≡ count_by is_busy self.now.all }
    {
        self.busy
    }

    /// The worker at a place, counted from 0, among those that run a goroutine.
    pub fn busy_at(&self, place: u32) -> u32
        requires { place < count_by is_busy self.now.all }
        ensures within { result < length self.now.all }
        ensures busy { is_busy (get_or self.now.all result resting) ≡ true }
        ensures before { count_by is_busy (take result self.now.all) ≡ place }
    {
        set_bit(self.marks, place)
    }

    /// w begins to run g.
    pub fn starts(&mut self, w: u32, g: u32)
        requires { w < length self.old.all }
        ensures { self.new ≡ record self.old { all = set self.old.all w (effect.started g (get_or self.old.all w resting)) } }
    {
        let worker = &mut self.all[w as usize];
        let was = worker.runs.is_some();
        worker.runs = Some(g);
        worker.slice = 0;
        self.marks = mark(self.marks, w, true);
        self.busy = moved(self.busy, was, true);
    }

    /// w leaves its goroutine.
    pub fn leaves(&mut self, w: u32)
        requires { w < length self.old.all }
        ensures { self.new ≡ record self.old { all = set self.old.all w (effect.left (get_or self.old.all w resting)) } }
    {
        let worker = &mut self.all[w as usize];
        let was = worker.runs.is_some();
        worker.runs = None;
        self.marks = mark(self.marks, w, false);
        self.busy = moved(self.busy, was, false);
    }

    /// How many instructions w has left to its next tick.
    pub fn to_tick(&self, w: u32) -> u64
        ensures { result ≡ left_of self.now.period (get_or self.now.all w resting) }
    {
        self.to_tick.get(w as usize).copied().unwrap_or(self.period)
    }

    /// w has run n instructions more, and its goroutine has died or not.
    pub fn works(&mut self, w: u32, n: u64, died: bool)
        requires within { w < length self.old.all }
        requires instructions { (get_or self.old.all w resting).instructions + n < 2 ^ 64 }
        requires slice { (get_or self.old.all w resting).slice + n < 2 ^ 64 }
        ensures { self.new ≡ record self.old {
          all = set self.old.all w (worked_by self.old.period n died (get_or self.old.all w resting));
        } }
    {
        let worker = &mut self.all[w as usize];
        let was = worker.runs.is_some();
        let left = &mut self.to_tick[w as usize];
        let at_tick = count_down(left, self.period, worker.instructions, n);
        work(worker, n, died, at_tick);
        let is = worker.runs.is_some();
        self.marks = mark(self.marks, w, is);
        self.busy = moved(self.busy, was, is);
    }

    /// w's due tick is cleared.
    pub fn ticks(&mut self, w: u32)
        requires { w < length self.old.all }
        ensures { self.new ≡ record self.old { all = set self.old.all w (effect.ticked (get_or self.old.all w resting)) } }
    {
        let worker = &mut self.all[w as usize];
        worker.tick = false;
    }
}
