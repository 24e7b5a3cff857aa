ghost use Rattle.std.specs.Prelude.{◌≡◌, ◌≤◌, ◌<◌, ◌-◌, ◌^◌, min, Some, length};
ghost use Rattle.std.specs.Bool.{OnTrue, OnFalse};
ghost use Rattle.gp_journal.specs.Settings.{quantum};
ghost use Rattle.gp_journal.specs.State.{code_of, worker, mutex};
ghost use Rattle.gp_journal.specs.Due.{asked, over, to_tick, ended, due, IsComplete, calls_for, some_ready, next_instruction};
ghost use Rattle.gp_stack.specs.Peek.{operation_of};
ghost use Rattle.gp_journal.specs.Answer.{foreseen, contention};
ghost use Rattle.gp_journal.specs.Reached.{IsReached};
ghost use Rattle.gp_journal.specs.Shown.{IsPeekAt};

use crate::operations::block_delay;
use crate::present::Present;
use gp_isa::limits::{INSTRUCTION_TIME, QUANTUM};
use gp_journal::{Ended, Entry, Foreseen, Request, Run, Status};
use gp_stack::{Operation, Peek, Then};

impl<R: Run> Present<R> {
    // Whether a goroutine is runnable or running.
    #[tactic(auto, using(crate::proofs::Judged::ready_counted))]
    fn some_ready(&self) -> bool
        ensures { result ≡ some_ready self.now }
    {
        self.goroutines.runnable() > 0 || self.goroutines.running() > 0
    }

    /// Whether the run is over.
    #[tactic(auto, unfolding(gp_journal::specs::Due::over))]
    pub fn over(&self) -> bool
        ensures { result ≡ over R.settings self.now }
    {
        let main_is_dead = matches!(self.goroutine(0).status, Status::Dead);
        main_is_dead || self.fault != 0 || self.plan.entries <= self.entries || !self.some_ready()
    }

    // Whether the next request is to be served.
    fn calls(&self) -> bool
        ensures { result ≡ calls_for R.settings self.now self.now.requests }
    {
        match self.plan.at.get(self.served) {
            None => false,
            Some(Request::Clock { clock }) => *clock <= self.clock || self.over(),
            Some(Request::End) => self.over(),
        }
    }

    /// Whether a profile is asked for.
    #[tactic(auto, unfolding(gp_journal::specs::Due::asked))]
    pub fn asked(&self) -> bool
        ensures { result ≡ asked R.settings self.now }
    {
        self.goroutines.active() == 0 && self.calls()
    }

    /// Whether the run is complete.
    #[tactic(auto, using(crate::proofs::Judged::some_left))]
    pub fn complete(&self) -> bool
        ensures complete { OnTrue result (IsComplete R.settings self.now) }
        ensures more { OnFalse result (IsComplete R.settings self.now → ⊥) }
    {
        self.over()
            && self.goroutines.running() == 0
            && self.goroutines.active() == 0
            && self.served >= self.plan.at.len()
    }

    /// How a run ended that is complete.
    #[tactic(auto, using(crate::proofs::Judged::any_counted))]
    pub fn ended(&self) -> Ended
        ensures { result ≡ ended self.now }
    {
        if self.fault != 0 {
            Ended::Fault { cause: self.fault }
        } else if matches!(self.goroutine(0).status, Status::Dead) {
            Ended::Main
        } else if self.goroutines.runnable() > 0 {
            Ended::Full
        } else {
            Ended::Deadlock
        }
    }

    // How many of so many local points, the quantum at most, a Run on w passes.
    fn extent(&self, w: u32, local: u64) -> u64
        requires { (worker self.now w).slice ≤ quantum }
        ensures { let v = worker self.now w in result ≡ min local (min (to_tick R.settings v) (quantum - v.slice)) }
    {
        let left = QUANTUM - self.worker(w).slice;
        local.min(self.workers.to_tick(w).min(left))
    }

    /// What is due while w runs g.
    pub fn due(&self, w: u32, g: u32, peek: &Peek) -> Entry
        requires slice { (worker self.now w).slice ≤ quantum }
        requires peek { IsPeekAt (code_of R.program) self.now g peek.now }
        ensures { result ≡ due (code_of R.program) R.settings self.now w g }
    {
        let worker = self.worker(w);
        if worker.tick {
            return Entry::Tick { w, g };
        }
        if self.asked() || self.over() || worker.slice == QUANTUM {
            return Entry::Park { w, g };
        }
        if peek.local == 0 && matches!(peek.then, Then::Shared(_)) {
            return Entry::Op { w, g };
        }
        let n = self.extent(w, peek.local);
        Entry::Run { w, g, n }
    }

    // How long the first waiter for a mutex has waited, where it is held and one waits, in nanoseconds.
    fn contention(&self, m: u32) -> Option<u64>
        requires there { m < length self.now.mutexes }
        requires clock { self.now.clock < 2 ^ 40 }
        ensures { result ≡ contention self.now.clock (mutex self.now m) }
    {
        if !self.waits.is_held(m) {
            return None;
        }
        let head = self.waits.first_waiter(m)?;
        Some(INSTRUCTION_TIME * self.clock.saturating_sub(head.since))
    }

    /// What the Op of g at its next point will tell.
    pub fn foresees(&self, g: u32, operation: Operation) -> Foreseen
        requires reached { IsReached (code_of R.program) R.settings self.now }
        requires operation { operation_of (next_instruction (code_of R.program) self.now g) ≡ Some operation }
        ensures { result ≡ foreseen (code_of R.program) self.now g }
    {
        if self.is_granted(g) {
            return Foreseen {
                wait: Some(block_delay(self.goroutine(g))),
                contended: None,
            };
        }
        let contended = match operation {
            Operation::Unlock { m } => self.contention(m),
            Operation::Send { .. } => None,
            Operation::Recv { .. } => None,
            Operation::Lock { .. } => None,
            Operation::Spawn { .. } => None,
        };
        Foreseen {
            wait: None,
            contended,
        }
    }
}
