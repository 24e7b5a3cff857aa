ghost use Rattle.std.specs.Prelude.{◌≡◌, ◌<◌, ◌≤◌, ◌+◌, ◌^◌, ℕ, true, [], ◌∷◌, ◌++◌, Some, length, count_by, if◌then◌else◌, nat_lt};
ghost use Rattle.gp_isa.specs.InLimits.{AreInLimits};
ghost use Rattle.gp_isa.specs.Trace.{trace};
ghost use Rattle.gp_journal.specs.Settings.{AreInRange, period};
ghost use Rattle.gp_journal.specs.State.{code_of, State, goroutine, worker, births, live, running, is_live, is_behind};
ghost use Rattle.gp_journal.specs.Effect as effect;
ghost use Rattle.gp_journal.specs.Effect.{is_over_after, with_goroutine, with_worker};
ghost use Rattle.gp_journal.specs.Standing.{first_behind};
ghost use Rattle.gp_journal.specs.Standing.{head_of, times};
ghost use Rattle.gp_journal.specs.Reached.{Runs};
ghost use Rattle.gp_machine.specs.OnWorker.{busy, IsBusyAt};
ghost use Rattle.gp_machine.specs.kept.Present.{CanCount, CanWake};
ghost use Rattle.gp_journal.specs.declared.goroutine.Status.TheVariants.{Runnable, Running, Dead as DeadStatus};

use crate::goroutines::Goroutines;
use crate::queue::Queue;
use crate::workers::Workers;
use gp_journal::{Goroutine, Request, Run, Status, Worker};
use gp_sync::WaitLists;
use std::marker::{Model, PhantomData};

/// What stays of a run: the length of each function's trace, the number of entries at which the journal is full, and the
/// requests.
#[derive(Debug, Drop)]
pub struct Plan {
    pub lengths: Vec<u64>,
    pub entries: u32,
    pub at: Vec<Request>,
}

/// The machine's present state. Its value is the state of the definitions; each call is one part of an effect.
#[derive(Debug, Drop)]
pub struct Present<R: Run> {
    pub(crate) plan: Plan,
    pub(crate) goroutines: Goroutines,
    pub(crate) queue: Queue,
    pub(crate) waits: WaitLists,
    pub(crate) workers: Workers,
    pub(crate) clock: u64,
    pub(crate) served: usize,
    pub(crate) last_epoch: u32,
    pub(crate) fault: u8,
    pub(crate) entries: u32,
    pub(crate) of: PhantomData<R>,
}

impl<R: Run> Model for Present<R> {
    ghost use Rattle.std.specs.Prelude.{drop};
    ghost use Rattle.gp_journal.specs.State.{State};
    ghost use Rattle.gp_machine.specs.kept.Present.{FitsRun, HasCells};

    ghost Value = { State };

    ghost view = { λ p. record {
      goroutines = p.goroutines.all;
      queue = p.queue.items;
      channels = p.waits.channels;
      mutexes = p.waits.mutexes;
      workers = p.workers.all;
      clock = p.clock;
      requests = drop p.served p.plan.at.items;
      active = p.goroutines.active;
      last_epoch = p.last_epoch;
      fault = p.fault;
      entries = p.entries;
    } };

    ghost invariant = { λ p. FitsRun R.program R.settings p.plan p.waits.capacities p.workers.period
        × HasCells R.settings p.goroutines.cells p.queue.cells p.waits.cells };
}

impl<R: Run> Present<R> {
    pub fn goroutine(&self, g: u32) -> Goroutine
        ensures { result ≡ goroutine self.now g }
    {
        self.goroutines.get(g)
    }

    pub fn worker(&self, w: u32) -> Worker
        ensures { result ≡ worker self.now w }
    {
        self.workers.get(w)
    }

    /// The runnable goroutine at the head of the queue.
    pub fn head(&self) -> Option<u32>
        ensures { result ≡ head_of self.now.queue }
    {
        self.queue.head()
    }

    pub fn clock(&self) -> u64
        ensures { result ≡ self.now.clock }
    {
        self.clock
    }

    pub fn births(&self) -> u32
        ensures { result ≡ births self.now }
    {
        self.goroutines.births()
    }

    pub fn live(&self) -> u32
        ensures { result ≡ live self.now }
    {
        self.goroutines.live()
    }

    pub fn running(&self) -> u32
        ensures { result ≡ running self.now }
    {
        self.goroutines.running()
    }

    /// How many workers run a goroutine.
    pub fn busy(&self) -> u32
        ensures { result ≡ busy self.now }
    {
        self.workers.busy()
    }

    /// The worker at a place among those that do.
    pub fn busy_at(&self, place: u32) -> u32
        requires { place < busy self.now }
        ensures { IsBusyAt self.now place result }
    {
        self.workers.busy_at(place)
    }

    pub fn active(&self) -> u32
        ensures { result ≡ self.now.active }
    {
        self.goroutines.active()
    }

    pub fn last_epoch(&self) -> u32
        ensures { result ≡ self.now.last_epoch }
    {
        self.last_epoch
    }

    /// The first goroutine that has still to be recorded.
    pub fn unrecorded(&self) -> Option<u32>
        ensures { result ≡ first_behind self.now.active self.now.goroutines }
    {
        self.goroutines.unrecorded()
    }

    /// Whether the goroutine's next point, at which it has waited, is granted.
    pub fn is_granted(&self, g: u32) -> bool
        ensures granted { result ≡ (goroutine self.now g).granted }
        ensures in_range { AreInRange R.settings }
        ensures in_limits { AreInLimits R.program }
    {
        // (it has no effect, but brings the invariant, which the clauses tell)
        let _ = &self.plan;
        self.goroutine(g).granted
    }

    fn put_goroutine(&mut self, g: u32, new: Goroutine)
        requires { g < births self.old }
        ensures { self.new ≡ with_goroutine g new self.old }
    {
        self.goroutines.set(g, new);
    }

    // w begins to run g.
    fn start_worker(&mut self, w: u32, g: u32)
        requires { w < length self.old.workers }
        ensures { self.new ≡ with_worker w (effect.started g (worker self.old w)) self.old }
    {
        self.workers.starts(w, g);
    }

    // w leaves its goroutine.
    fn leave_worker(&mut self, w: u32)
        requires { w < length self.old.workers }
        ensures { self.new ≡ with_worker w (effect.left (worker self.old w)) self.old }
    {
        self.workers.leaves(w);
    }

    fn join_queue(&mut self, g: u32)
        requires within { g < R.settings.cells }
        requires absent { times g self.old.queue ≡ 0 }
        ensures { self.new ≡ effect.queued g self.old }
    {
        self.queue.push_back(g);
    }

    fn leave_queue(&mut self, g: u32)
        requires within { g < R.settings.cells }
        requires once { times g self.old.queue ≡ 1 }
        ensures { self.new ≡ effect.unqueued g self.old }
    {
        self.queue.remove(g);
    }

    /// Whether one more goroutine can be born.
    pub fn has_cell(&self) -> bool
        ensures { result ≡ nat_lt (births self.now) R.settings.cells }
    {
        self.goroutines.has_cell()
    }

    // The number of points of a function's trace.
    fn length_of(&self, function: u32) -> u64
        ensures { result ≡ length (trace R.program function) }
    {
        let lengths = &self.plan.lengths;
        lengths.get(function as usize).copied().unwrap_or(0)
    }

    // Whether a goroutine's trace ends with n points more.
    #[tactic(auto, using(crate::proofs::Ending::ends_after))]
    fn ends_after(&self, g: Goroutine, n: u64) -> bool
        requires { g.count + n < 2 ^ 64 }
        ensures { result ≡ is_over_after (code_of R.program) n g }
    {
        self.length_of(g.start) <= g.count + n
    }

    // g has passed n points more, and has died or not.
    fn moves_on(&mut self, g: u32, n: u64, died: bool)
        requires born { g < births self.old }
        requires room { (goroutine self.old g).count + n < 2 ^ 64 }
        requires died { died ≡ is_over_after (code_of R.program) n (goroutine self.old g) }
        ensures { self.new ≡ with_goroutine g (effect.passed (code_of R.program) n (goroutine self.old g)) self.old }
    {
        if died {
            let goroutine = self.goroutine(g);
            self.put_goroutine(
                g,
                Goroutine {
                    count: goroutine.count + n,
                    status: Status::Dead,
                    ..goroutine
                },
            );
        } else {
            self.goroutines.advance(g, n);
        }
    }

    // w has run n instructions more, its goroutine having died or not.
    fn works(&mut self, w: u32, n: u64, died: bool)
        requires worker { w < length self.old.workers }
        requires instructions { (worker self.old w).instructions + n < 2 ^ 64 }
        requires slice { (worker self.old w).slice + n < 2 ^ 64 }
        ensures { self.new ≡ with_worker w (effect.worked R.settings n died (worker self.old w)) self.old }
    {
        self.workers.works(w, n, died);
    }

    /// w begins to run g.
    pub fn starts(&mut self, w: u32, g: u32)
        requires worker { w < length self.old.workers }
        requires born { g < births self.old }
        requires cell { g < R.settings.cells }
        requires once { times g self.old.queue ≡ 1 }
        ensures { self.new ≡ effect.starts w g self.old }
    {
        let goroutine = self.goroutine(g);
        self.put_goroutine(
            g,
            Goroutine {
                status: Status::Running { w },
                ..goroutine
            },
        );
        self.start_worker(w, g);
        self.leave_queue(g);
    }

    // g leaves w, and is another from now on.
    fn leaves(&mut self, w: u32, g: u32, new: Goroutine)
        requires worker { w < length self.old.workers }
        requires born { g < births self.old }
        ensures { self.new ≡ effect.leaves w g new self.old }
    {
        self.put_goroutine(g, new);
        self.leave_worker(w);
    }

    /// g is put back: it leaves w, and goes to the tail of the queue.
    pub fn parks(&mut self, w: u32, g: u32)
        requires worker { w < length self.old.workers }
        requires born { g < births self.old }
        requires cell { g < R.settings.cells }
        requires absent { times g self.old.queue ≡ 0 }
        ensures { self.new ≡ effect.queued g (effect.leaves w g (effect.turned Runnable (goroutine self.old g)) self.old) }
    {
        let goroutine = self.goroutine(g);
        self.leaves(
            w,
            g,
            Goroutine {
                status: Status::Runnable,
                ..goroutine
            },
        );
        self.join_queue(g);
    }

    /// g passes n points on w. It answers whether g's trace ends with them.
    pub fn passes(&mut self, w: u32, g: u32, n: u64) -> bool
        requires worker { w < length self.old.workers }
        requires born { g < births self.old }
        requires room { CanCount self.old w g n }
        ensures state { self.new ≡ effect.passes (code_of R.program) R.settings w g n self.old }
        ensures died { result ≡ is_over_after (code_of R.program) n (goroutine self.old g) }
    {
        let died = self.ends_after(self.goroutine(g), n);
        self.moves_on(g, n, died);
        self.works(w, n, died);
        self.clock += n;
        died
    }

    /// g leaves w as blocked.
    pub fn blocks(&mut self, w: u32, g: u32)
        requires worker { w < length self.old.workers }
        requires born { g < births self.old }
        ensures { self.new ≡ effect.blocks w g self.old }
    {
        let goroutine = self.goroutine(g);
        let clock = self.clock;
        self.leaves(
            w,
            g,
            Goroutine {
                status: Status::Blocked,
                blocked: clock,
                ..goroutine
            },
        );
    }

    /// g leaves w as faulted.
    pub fn faults(&mut self, cause: u8, w: u32, g: u32)
        requires worker { w < length self.old.workers }
        requires born { g < births self.old }
        ensures { self.new ≡ effect.faults cause w g self.old }
    {
        let goroutine = self.goroutine(g);
        self.leaves(
            w,
            g,
            Goroutine {
                status: Status::Faulted,
                ..goroutine
            },
        );
        self.fault = cause;
    }

    /// g is woken.
    pub fn wakes(&mut self, g: u32)
        requires born { g < births self.old }
        requires cell { g < R.settings.cells }
        requires absent { times g self.old.queue ≡ 0 }
        ensures { self.new ≡ effect.wakes g self.old }
    {
        let goroutine = self.goroutine(g);
        let clock = self.clock;
        self.put_goroutine(
            g,
            Goroutine {
                status: Status::Runnable,
                granted: true,
                woken: clock,
                ..goroutine
            },
        );
        self.join_queue(g);
    }

    /// A goroutine is born, to run a function with a label set. It answers its number.
    pub fn bears(&mut self, function: u32, labels: u8) -> u32
        requires room { births self.old < R.settings.cells }
        requires absent { times (births self.old) self.old.queue ≡ 0 }
        ensures born { result ≡ births self.old }
        ensures state { self.new ≡ effect.born (effect.newborn function labels self.old.last_epoch) self.old }
    {
        let g = self.goroutines.births();
        let epoch = self.last_epoch;
        self.goroutines.push(Goroutine {
            start: function,
            set: labels,
            count: 0,
            status: Status::Runnable,
            granted: false,
            epoch,
            blocked: 0,
            woken: 0,
        });
        self.join_queue(g);
        g
    }

    /// g loses its granted mark.
    pub fn unmarks(&mut self, g: u32)
        requires { g < births self.old }
        ensures { self.new ≡ with_goroutine g (effect.unmarked (goroutine self.old g)) self.old }
    {
        self.goroutines.unmark(g);
    }

    /// w's due tick is cleared.
    pub fn ticks(&mut self, w: u32)
        requires { w < length self.old.workers }
        ensures { self.new ≡ with_worker w (effect.ticked (worker self.old w)) self.old }
    {
        self.workers.ticks(w);
    }

    /// The next request is served.
    #[tactic(auto, using(crate::proofs::Ending::one_less))]
    pub fn serves(&mut self)
        requires { 0 < length self.old.requests }
        ensures { self.new ≡ effect.served self.old }
    {
        self.served += 1;
    }

    /// A profile becomes active.
    pub fn opens(&mut self, epoch: u32)
        requires none { self.old.active ≡ 0 }
        requires before { (g : ℕ) → is_live (goroutine self.old g) ≡ true → (goroutine self.old g).epoch < epoch }
        ensures { self.new ≡ record self.old { active = epoch; last_epoch = epoch } }
    {
        self.goroutines.open(epoch);
        self.last_epoch = epoch;
    }

    /// g is recorded in the active profile.
    pub fn records(&mut self, g: u32)
        requires { g < births self.old }
        ensures { self.new ≡ with_goroutine g (effect.recorded self.old.active (goroutine self.old g)) self.old }
    {
        let goroutine = self.goroutine(g);
        let epoch = self.goroutines.active();
        self.put_goroutine(g, Goroutine { epoch, ..goroutine });
    }

    /// The active profile is closed.
    pub fn closes(&mut self)
        requires { count_by (is_behind self.old.active) self.old.goroutines ≡ 0 }
        ensures { self.new ≡ record self.old { active = 0 } }
    {
        self.goroutines.close();
    }

    /// One more entry was made.
    pub fn counts(&mut self)
        requires { self.old.entries + 1 < 2 ^ 32 }
        ensures { self.new ≡ record self.old { entries = self.old.entries + 1 } }
    {
        self.entries += 1;
    }
}
