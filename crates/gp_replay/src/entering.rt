//! What each entry does to a replay.
use crate::goroutine::{FRAMES, Goroutine, Status, is_live, rule};
use crate::replay::{Event, Profile, Replay, Sample, Seat};
use crate::waiting::Outcome;
use gp_cases::Unanswered;
use gp_isa::{Frame, Program};
use gp_machine::Entry;
use std::alloc::Global;

/// The nanoseconds of an instruction.
const INSTRUCTION: u64 = 1000;

/// The most frames that a sample has of a stack.
const SAMPLE_FRAMES: usize = 64;

/// The cause of a fault: an unlock of a free mutex.
const UNLOCK: u8 = 1;

/// The cause of a fault: no cell for one that is born.
const CELLS: u8 = 2;

// The nanoseconds between two clocks.
fn between(from: u64, to: u64) -> u64 {
    to.saturating_sub(from).saturating_mul(INSTRUCTION)
}

fn count(of: &mut Vec<u64>, at: u32, n: u64) -> Result<(), Unanswered> {
    match of.get_mut(at as usize) {
        Some(number) => {
            *number = number.saturating_add(n);
            Ok(())
        }
        None => Err(Unanswered::Form),
    }
}

fn actor_of(entry: &Entry, profiler: u32) -> u32 {
    match *entry {
        Entry::Start { w, .. } => w,
        Entry::Run { w, .. } => w,
        Entry::Op { w, .. } => w,
        Entry::Tick { w, .. } => w,
        Entry::Park { w, .. } => w,
        Entry::Record { actor, .. } => actor,
        _ => profiler,
    }
}

impl Replay {
    fn seat(&mut self, w: u32) -> Result<&mut Seat, Unanswered> {
        self.seats.get_mut(w as usize).ok_or(Unanswered::Form)
    }

    fn goroutine(&mut self, g: u32) -> Result<&mut Goroutine, Unanswered> {
        self.goroutines.get_mut(g as usize).ok_or(Unanswered::Form)
    }

    fn is_idle(&self, w: u32) -> bool {
        match self.seats.get(w as usize) {
            Some(seat) => seat.runs.is_none(),
            None => false,
        }
    }

    fn turn(&mut self, g: u32, status: Status) -> Result<(), Unanswered> {
        self.goroutine(g)?.status = status;
        Ok(())
    }

    // g leaves w.
    fn leave(&mut self, w: u32, g: u32, status: Status) -> Result<(), Unanswered> {
        self.seat(w)?.runs = None;
        self.turn(g, status)
    }

    fn start(&mut self, w: u32, g: u32) -> Result<(), Unanswered> {
        rule(self.is_idle(w) && !self.is_asked() && !self.is_run_over())?;
        let active = self.active;
        let it = self.goroutine(g)?;
        rule(it.status == Status::Runnable)?;
        rule(active == 0 || it.epoch == active)?;
        it.status = Status::Running;
        *self.seat(w)? = Seat {
            runs: Some(g),
            slice: 0,
            is_tick_due: false,
        };
        Ok(())
    }

    // g has passed so many points on w. Where it goes on the worker's tick may be due.
    fn passed(&mut self, w: u32, g: u32, n: u64) -> Result<(), Unanswered> {
        self.clock = self.clock.saturating_add(n);
        count(&mut self.done, w, n)?;
        let done = self.done.get(w as usize).copied().unwrap_or(0);
        let is_tick = done.checked_rem(self.period) == Some(0);
        if self.goroutine(g)?.route.is_over() {
            return self.leave(w, g, Status::Dead);
        }
        let seat = self.seat(w)?;
        seat.slice = seat.slice.saturating_add(n);
        seat.is_tick_due = is_tick;
        Ok(())
    }

    // It goes as far as it may.
    fn run(&mut self, program: &Program, w: u32, g: u32, n: u64) -> Result<(), Unanswered> {
        let slice = self.seat(w)?.slice;
        let most = self.most_points(w, slice);
        self.goroutine(g)?.run(program, n)?;
        rule(n == most || !self.is_at_local(program, g))?;
        self.passed(w, g, n)
    }

    // g passes its shared point on w.
    fn pass(&mut self, program: &Program, w: u32, g: u32) -> Result<(), Unanswered> {
        self.goroutine(g)?.route.pass(program)?;
        self.passed(w, g, 1)
    }

    fn frames(
        &mut self,
        alloc: Global,
        program: &Program,
        g: u32,
        most: usize,
    ) -> Result<Vec<Frame>, Unanswered> {
        Ok(self.goroutine(g)?.route.frames(alloc, program, most)?)
    }

    // g's point isn't granted any more; the wait is an event.
    fn resume(&mut self, alloc: Global, program: &Program, g: u32) -> Result<(), Unanswered> {
        let it = self.goroutine(g)?;
        it.granted = false;
        let delay = between(it.blocked, it.woken).max(1);
        let frames = self.frames(alloc, program, g, FRAMES)?;
        self.block.push(Event { frames, delay })?;
        Ok(())
    }

    // Another is woken, who has waited so long.
    fn wake(&mut self, other: u32) -> Result<u64, Unanswered> {
        let clock = self.clock;
        let it = self.goroutine(other)?;
        rule(it.status == Status::Blocked)?;
        it.status = Status::Runnable;
        it.granted = true;
        it.woken = clock;
        Ok(between(it.blocked, clock))
    }

    fn wait(&mut self, w: u32, g: u32) -> Result<(), Unanswered> {
        self.leave(w, g, Status::Blocked)?;
        let clock = self.clock;
        self.goroutine(g)?.blocked = clock;
        Ok(())
    }

    fn fail(&mut self, w: u32, g: u32, cause: u8) -> Result<(), Unanswered> {
        self.fault = Some(cause);
        self.leave(w, g, Status::Faulted)
    }

    // g bears one, where there is a cell. It tells whether there was.
    fn bear(
        &mut self,
        alloc: Global,
        program: &Program,
        g: u32,
        function: u32,
    ) -> Result<bool, Unanswered> {
        if self.goroutines.len() >= self.cells as usize {
            return Ok(false);
        }
        let set = self.goroutine(g)?.set;
        let born = Goroutine::new(alloc, program, function, set, self.last)?;
        self.goroutines.push(born)?;
        Ok(true)
    }

    // What becomes of g at its shared point, which isn't granted.
    fn meet(&mut self, program: &Program, g: u32) -> Result<Outcome, Unanswered> {
        let what = match self.goroutines.get(g as usize) {
            Some(it) => it.route.next(program),
            None => None,
        };
        match what {
            Some(what) => self.waiting.meet(g, what),
            None => Err(Unanswered::Form),
        }
    }

    // g wakes another, and passes; that is an event where it unlocks.
    fn hand_over(
        &mut self,
        alloc: Global,
        program: &Program,
        g: u32,
        other: u32,
        unlocked: bool,
    ) -> Result<(), Unanswered> {
        let delay = self.wake(other)?;
        if unlocked {
            let frames = self.frames(alloc, program, g, FRAMES)?;
            self.mutex.push(Event { frames, delay })?;
        }
        Ok(())
    }

    fn operate(
        &mut self,
        alloc: Global,
        program: &Program,
        w: u32,
        g: u32,
    ) -> Result<(), Unanswered> {
        if self.goroutine(g)?.granted {
            self.resume(alloc, program, g)?;
            return self.pass(program, w, g);
        }
        match self.meet(program, g)? {
            Outcome::Passes => self.pass(program, w, g),
            Outcome::Wakes { g: other, unlocked } => {
                self.hand_over(alloc, program, g, other, unlocked)?;
                self.pass(program, w, g)
            }
            Outcome::Waits => self.wait(w, g),
            Outcome::Fault => self.fail(w, g, UNLOCK),
            Outcome::Bears { function } => {
                if self.bear(alloc, program, g, function)? {
                    self.pass(program, w, g)
                } else {
                    self.fail(w, g, CELLS)
                }
            }
        }
    }

    fn tick(&mut self, alloc: Global, program: &Program, w: u32, g: u32) -> Result<(), Unanswered> {
        self.seat(w)?.is_tick_due = false;
        let frames = self.frames(alloc, program, g, SAMPLE_FRAMES)?;
        let set = self.goroutine(g)?.set;
        let time = self.clock.saturating_mul(INSTRUCTION);
        self.samples.push(Sample { time, frames, set })?;
        Ok(())
    }

    // A request for a profile is served.
    fn serve(&mut self) -> Result<(), Unanswered> {
        rule(self.is_asked() && self.is_still())?;
        self.served = self.served.saturating_add(1);
        Ok(())
    }

    fn open(
        &mut self,
        alloc: Global,
        program: &Program,
        epoch: u32,
        room: u32,
    ) -> Result<(), Unanswered> {
        self.serve()?;
        rule(room == self.room && self.live() <= room as usize)?;
        rule(epoch == self.last.saturating_add(1))?;
        let mut frozen = Vec::new(alloc);
        let mut g = 0_u32;
        for it in self.goroutines.iter() {
            if is_live(it) {
                frozen.push(it.shown(alloc, program, g)?)?;
            }
            g = g.saturating_add(1);
        }
        self.profiles.push(Profile {
            frozen,
            taken: Vec::new(alloc),
        })?;
        self.active = epoch;
        self.last = epoch;
        Ok(())
    }

    fn refuse(&mut self, room: u32, n: u32) -> Result<(), Unanswered> {
        self.serve()?;
        rule(room == self.room && self.live() == n as usize && n > room)?;
        self.refused.push(n)?;
        Ok(())
    }

    fn record(&mut self, actor: u32, g: u32) -> Result<(), Unanswered> {
        let active = self.active;
        rule(active > 0)?;
        rule(actor == self.profiler || self.is_idle(actor))?;
        let it = self.goroutine(g)?;
        rule(is_live(it) && it.epoch < active)?;
        it.epoch = active;
        match self.profiles.last_mut() {
            Some(profile) => Ok(profile.taken.push(g)?),
            None => Err(Unanswered::Form),
        }
    }

    fn close(&mut self, epoch: u32) -> Result<(), Unanswered> {
        rule(self.active > 0 && epoch == self.active)?;
        let active = self.active;
        rule(
            self.goroutines
                .iter()
                .all(|it| !is_live(it) || it.epoch >= active),
        )?;
        self.active = 0;
        Ok(())
    }

    /// Makes an entry.
    pub fn enter(
        &mut self,
        alloc: Global,
        program: &Program,
        entry: &Entry,
    ) -> Result<(), Unanswered> {
        self.is_due(program, entry)?;
        match *entry {
            Entry::Start { w, g } => self.start(w, g)?,
            Entry::Run { w, g, n } => self.run(program, w, g, n)?,
            Entry::Op { w, g } => self.operate(alloc, program, w, g)?,
            Entry::Tick { w, g } => self.tick(alloc, program, w, g)?,
            Entry::Park { w, g } => self.leave(w, g, Status::Runnable)?,
            Entry::Open { epoch, room } => self.open(alloc, program, epoch, room)?,
            Entry::Refuse { room, n } => self.refuse(room, n)?,
            Entry::Record { actor, g } => self.record(actor, g)?,
            Entry::Close { epoch } => self.close(epoch)?,
        }
        self.length = self.length.saturating_add(1);
        count(&mut self.made, actor_of(entry, self.profiler), 1)
    }
}
