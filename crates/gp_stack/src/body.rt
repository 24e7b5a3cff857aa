ghost use Rattle.std.specs.Prelude.{◌≡◌, ◌+◌, ◌-◌, ◌<◌, ◌≤◌, ◌^◌, ℕ, true, false, length, reverse, IfOk, min, map, take, drop};
ghost use Rattle.gp_isa.specs.declared.parts.Parts.{Parts};
ghost use Rattle.gp_isa.specs.Calls.{IsProgram};
ghost use Rattle.gp_isa.specs.Limits.{most_functions};
ghost use Rattle.gp_isa.specs.Size.{depth_of};
ghost use Rattle.gp_isa.specs.Trace.{trace, is_local};
ghost use Rattle.gp_stack.specs.Goroutine.{local_ahead};
ghost use Rattle.gp_stack.specs.Peek.{then_at};
ghost use Rattle.gp_stack.specs.Word.{word_of};
ghost use Rattle.gp_stack.specs.Body.{Progress, progress_of, is_over_at, stack_at, labels_at, ahead_at, HasRoom, StandsIn, IsAtShared};
ghost use Rattle.gp_stack.specs.Record.{record_of};
ghost use Rattle.gp_stack.specs.kept.Place.{IsHere};

use crate::climb::{Climb, leaf, word};
use crate::peek::{Peek, Then, look_local};
use crate::place::Place;
use crate::record::{Record, Stack};
use crate::statement::Ahead;
use gp_isa::limits::{GOROUTINE_FRAMES, LOOPS};
use gp_isa::{Block, Memory, Program};
use std::alloc::Global;

/// Where a goroutine stands in a program, told by levels and the turns of its loops.
///
/// A body has room for the frames of one program, each with a level of 16 bytes and one for each loop that stands inside
/// another in some function, and each call that takes a program has to be given that one.
#[derive(Drop)]
pub struct Body {
    start: u32,
    set: u8,
    labels: u8,
    count: u64,
    // the points of the next statement that were passed
    passed: u32,
    place: Place,
}

/// How many calls are followed at most inside each other: one less than a stack has frames.
fn most_calls(program: &Program) -> u16
    ensures calls { result ≡ depth_of program.now - 1 }
    ensures few { length program.now.functions ≤ most_functions }
    ensures program { IsProgram program.now }
{
    let _ = program.parts();
    program.depth().saturating_sub(1) as u16
}

impl Body {
    /// A body with room for the frames of any goroutine of a program.
    pub fn vacant(alloc: Global, program: &Program) -> Result<Body, Memory>
        ensures { IfOk result (λ body. HasRoom program.now body) }
    {
        let most = most_calls(program);
        let loops = program.loops() as usize;
        let levels = (loops + 1) * most as usize + loops;
        Ok(Body {
            start: 0,
            set: 0,
            labels: 0,
            count: 0,
            passed: 0,
            place: Place::vacant(alloc, levels)?,
        })
    }

    /// Begins the trace of function `start`, with label set `set`.
    pub fn born(&mut self, program: &Program, start: u32, set: u8)
        requires room { HasRoom program.now self.old }
        requires function { start < length program.now.functions }
        ensures stands { StandsIn program.now self.new }
        ensures progress { progress_of self.new ≡ record { start = start; set = set; count = 0 } }
    {
        let calls = most_calls(program);
        self.start = start;
        self.set = set;
        self.labels = set;
        self.count = 0;
        self.passed = 0;
        self.place.begin(program, start as u8, calls);
    }

    /// How many points were passed.
    pub fn count(&self) -> u64
        ensures { result ≡ (progress_of self.now).count }
    {
        self.count
    }

    /// The function that is run.
    pub fn start(&self) -> u32
        ensures { result ≡ (progress_of self.now).start }
    {
        self.start
    }

    /// The number of the label set.
    pub fn labels(&self) -> u8
        ensures { (parts : Parts) → StandsIn parts self.now → result ≡ labels_at parts (progress_of self.now) }
    {
        self.labels
    }

    /// Passes `n` local points. It takes time by the statements that it crosses, however large `n` is. A call or a loop
    /// whose points all are work counts as one, and so do turns of a loop that have work alone.
    pub fn advance(&mut self, program: &Program, n: u64)
        requires stands { StandsIn program.now self.old }
        requires ahead { n ≤ ahead_at program.now (progress_of self.old) }
        ensures stands { StandsIn program.now self.new }
        ensures progress { progress_of self.new ≡ record (progress_of self.old) { count = (progress_of self.old).count + n } }
    {
        let mut left = n;
        while left > 0 {
            left -= self.advance_some(program, left);
        }
    }

    /// Passes the next point, which is shared.
    pub fn pass(&mut self, program: &Program)
        requires stands { StandsIn program.now self.old }
        requires shared { let p = progress_of self.old in IsAtShared (trace program.now p.start) p.count }
        ensures stands { StandsIn program.now self.new }
        ensures progress { progress_of self.new ≡ record (progress_of self.old) { count = (progress_of self.old).count + 1 } }
    {
        // (two calls, so that what is looked up isn't copied)
        if self.place.top.loops == LOOPS {
            let here = program.block(self.place.top.function as u32);
            return self.pass_in(program, &here);
        }
        let here = self.place.here(program);
        self.pass_in(program, &here)
    }

    /// How many local points are ahead, at most `limit`, and what comes behind them. It looks no further.
    pub fn peek(&self, program: &Program, limit: u64) -> Peek
        requires { StandsIn program.now self.now }
        ensures local { result.local ≡ min limit (ahead_at program.now (progress_of self.now)) }
        ensures then { let p = progress_of self.now in result.then ≡ then_at (trace program.now p.start) (p.count + result.local) }
    {
        // (two calls, so that what is looked up isn't copied)
        if self.place.top.loops == LOOPS {
            let here = program.block(self.place.top.function as u32);
            return self.peek_in(program, &here, limit);
        }
        let here = self.place.here(program);
        self.peek_in(program, &here, limit)
    }

    /// Whether the trace is ended.
    pub fn is_over(&self, program: &Program) -> bool
        requires { StandsIn program.now self.now }
        ensures { result ≡ is_over_at program.now (progress_of self.now) }
    {
        match self.peek(program, 0).then {
            Then::Over => true,
            Then::Local => false,
            Then::Shared(_) => false,
        }
    }

    /// What a profile has of the goroutine, whose number is `g`. At its trace's end its stack is empty.
    pub fn record(&self, alloc: Global, program: &Program, g: u32) -> Result<Record, Memory>
        requires { StandsIn program.now self.now }
        ensures { IfOk result (λ row. row ≡ record_of program.now g (progress_of self.now)) }
    {
        let stack = if self.is_over(program) {
            Stack::new(alloc)
        } else {
            self.stack(alloc, program, GOROUTINE_FRAMES)?
        };
        Ok(Record {
            g,
            stack,
            set: self.labels(),
        })
    }

    /// The stack of the next point, the leaf first, cut to its first `max` frames.
    pub fn stack(&self, alloc: Global, program: &Program, max: u32) -> Result<Stack, Memory>
        requires stands { StandsIn program.now self.now }
        requires going { is_over_at program.now (progress_of self.now) ≡ false }
        ensures { IfOk result (λ stack. stack ≡ take max (stack_at program.now (progress_of self.now))) }
    {
        if max == 0 {
            return Ok(Stack::new(alloc));
        }
        // (no level has more than one frame)
        let levels = self.place.outer.len() + 1;
        let mut frames = Vec::with_capacity(alloc, levels.min(max as usize))?;
        frames.push(leaf(program, &self.place))?;
        let mut climb = Climb::new(&self.place);
        while frames.len() < max as usize {
            match climb.next(&self.place, program) {
                Some(frame) => frames.push(frame)?,
                None => return Ok(Stack::from_vec(frames)),
            }
        }
        Ok(Stack::from_vec(frames))
    }

    /// Writes the words of the stack of the next point, the leaf first, as many as there is room for, and says how
    /// many. A frame's word is its function times 2^32 plus its line.
    pub fn stack_words(&self, program: &Program, to: &mut [u64]) -> usize
        requires stands { StandsIn program.now self.now }
        requires going { is_over_at program.now (progress_of self.now) ≡ false }
        ensures count { result ≡ min (length to.old) (length (stack_at program.now (progress_of self.now))) }
        ensures words { take result to.new ≡ map word_of (take result (stack_at program.now (progress_of self.now))) }
        ensures rest { drop result to.new ≡ drop result to.old }
    {
        if to.is_empty() {
            return 0;
        }
        to[0] = word(leaf(program, &self.place));
        let mut written = 1;
        let mut climb = Climb::new(&self.place);
        while written < to.len() {
            match climb.next(&self.place, program) {
                Some(frame) => {
                    to[written] = word(frame);
                    written += 1;
                }
                None => return written,
            }
        }
        written
    }

    /// How many local points are ahead and what comes behind them, where the level's statements were looked up.
    fn peek_in(&self, program: &Program, here: &Block<'_>, limit: u64) -> Peek
        requires stands { StandsIn program.now self.now }
        requires here { IsHere program.now self.now.place.top (reverse self.now.place.outer.items) here.now }
        ensures local { result.local ≡ min limit (ahead_at program.now (progress_of self.now)) }
        ensures then { result.then ≡ then_at (trace program.now self.now.start) (self.now.count + result.local) }
    {
        match self.place.ahead_in(program, here) {
            Ahead::Work(n) => {
                let first = look_local((n - self.passed) as u64, limit);
                self.place.look_past(program, here, first, limit)
            }
            Ahead::Labels(_) => self
                .place
                .look_past(program, here, look_local(1, limit), limit),
            Ahead::Shared(operation) => Peek {
                local: 0,
                then: Then::Shared(operation),
            },
            Ahead::End => Peek {
                local: 0,
                then: Then::Over,
            },
            Ahead::Loop(_, _) => unreachable!(),
            Ahead::Call(_) => unreachable!(),
        }
    }

    /// Passes the next point, which is shared, where its level's statements were looked up.
    fn pass_in(&mut self, program: &Program, here: &Block<'_>)
        requires stands { StandsIn program.now self.old }
        requires here { IsHere program.now self.old.place.top (reverse self.old.place.outer.items) here.now }
        requires shared { IsAtShared (trace program.now self.old.start) self.old.count }
        ensures stands { StandsIn program.now self.new }
        ensures progress { progress_of self.new ≡ record (progress_of self.old) { count = self.old.count + 1 } }
    {
        match self.place.ahead_in(program, here) {
            Ahead::Shared(_) => {
                self.count += 1;
                self.place.pass(program, here, 0);
            }
            Ahead::End => unreachable!(),
            Ahead::Work(_) => unreachable!(),
            Ahead::Labels(_) => unreachable!(),
            Ahead::Loop(_, _) => unreachable!(),
            Ahead::Call(_) => unreachable!(),
        }
    }

    /// Passes up to `n` local points, those of one statement and of calls behind it, and says how many.
    fn advance_some(&mut self, program: &Program, n: u64) -> u64
        requires stands { StandsIn program.now self.old }
        requires some { 0 < n }
        requires ahead { n ≤ local_ahead (trace program.now self.old.start) self.old.count }
        ensures stands { StandsIn program.now self.new }
        ensures progress { progress_of self.new ≡ record (progress_of self.old) { count = self.old.count + result } }
        ensures some { 0 < result }
        ensures within { result ≤ n }
    {
        // (two calls, so that what is looked up isn't copied)
        if self.place.top.loops == LOOPS {
            let here = program.block(self.place.top.function as u32);
            return self.advance_in(program, &here, n);
        }
        let here = self.place.here(program);
        self.advance_in(program, &here, n)
    }

    /// The same, where the level's statements were looked up.
    fn advance_in(&mut self, program: &Program, here: &Block<'_>, n: u64) -> u64
        requires stands { StandsIn program.now self.old }
        requires here { IsHere program.now self.old.place.top (reverse self.old.place.outer.items) here.now }
        requires some { 0 < n }
        requires ahead { n ≤ local_ahead (trace program.now self.old.start) self.old.count }
        ensures stands { StandsIn program.now self.new }
        ensures progress { progress_of self.new ≡ record (progress_of self.old) { count = self.old.count + result } }
        ensures some { 0 < result }
        ensures within { result ≤ n }
    {
        match self.place.ahead_in(program, here) {
            Ahead::Work(of) => {
                let left = (of - self.passed) as u64;
                if n < left {
                    self.passed += n as u32;
                    self.count += n;
                    n
                } else {
                    self.passed = 0;
                    let behind = self.place.pass(program, here, n - left);
                    self.count += left + behind;
                    left + behind
                }
            }
            Ahead::Labels(set) => {
                self.labels = set;
                let behind = self.place.pass(program, here, n - 1);
                self.count += 1 + behind;
                1 + behind
            }
            Ahead::End => unreachable!(),
            Ahead::Loop(_, _) => unreachable!(),
            Ahead::Call(_) => unreachable!(),
            Ahead::Shared(_) => unreachable!(),
        }
    }
}
