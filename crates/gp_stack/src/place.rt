ghost use Rattle.std.specs.Prelude.{◌≡◌, ◌+◌, ◌-◌, ◌*◌, ◌<◌, ◌≤◌, ◌^◌, List, [], ◌∷◌, ◌++◌, IsTrue, length, reverse, vec_len, vec_capacity, drop, IfOk, IfSome, MatchOption, Option};
ghost use Rattle.std.specs.Bool.{OnTrue, OnFalse};
ghost use Rattle.gp_stack.specs.kept.Place.{levels, stepped, left_behind, looped, called, room, IsHere, IsIn, IsSettled};
ghost use Rattle.gp_isa.specs.Trace.{trace, trace_within};
ghost use Rattle.gp_isa.specs.Size.{depth_of};
ghost use Rattle.gp_stack.specs.kept.Level.{left, body_at};
ghost use Rattle.gp_stack.specs.kept.Ahead.{IsAhead, HasNext};
ghost use Rattle.gp_stack.specs.kept.Looks.{peek_of, steps};
ghost use Rattle.gp_stack.specs.declared.statement.Operation.{Operation};
ghost use Rattle.gp_stack.specs.kept.Cost.{cost};
ghost use Rattle.gp_stack.specs.kept.Passing.{Passes, IsWorkRun, IsWorkTurn};

use crate::level::{Level, block};
use crate::peek::{Peek, Then, look_here, look_level};
use crate::statement::{Ahead, statement_at};
use gp_isa::limits::LOOPS;
use gp_isa::{Block, Memory, Program, Run};
use std::alloc::Global;

/// A place in the trace of a function: the level of the next statement, and those around it, the outermost first.
#[derive(Drop)]
pub(crate) struct Place {
    pub(crate) top: Level,
    pub(crate) outer: Vec<Level>,
}

/// What going on came to: the points that were passed, and whether the place is at the next point or at the end.
#[derive(Clone, Copy)]
struct Crossing {
    points: u64,
    settled: bool,
}

impl Place {
    /// A place with room for so many levels around another one.
    pub(crate) fn vacant(alloc: Global, levels: usize) -> Result<Place, Memory>
        ensures { IfOk result (λ place. levels ≤ vec_capacity place.outer) }
    {
        Ok(Place {
            top: Level {
                at: 0,
                turns: 0,
                calls: 0,
                function: 0,
                loops: LOOPS,
            },
            outer: Vec::with_capacity(alloc, levels)?,
        })
    }

    /// Goes on to the next statement.
    fn skip(&mut self)
        requires { self.old.top.at + 1 < 2 ^ 64 }
        ensures levels { levels self.new ≡ stepped (levels self.old) }
        ensures room { vec_capacity self.new.outer ≡ vec_capacity self.old.outer }
    {
        self.top.at += 1;
    }

    /// Goes into a level, from which the next statement is come back to.
    fn enter(&mut self, level: Level)
        requires next { self.old.top.at + 1 < 2 ^ 64 }
        requires room { vec_len self.old.outer < vec_capacity self.old.outer }
        ensures levels { levels self.new ≡ level ∷ stepped (levels self.old) }
        ensures room { vec_capacity self.new.outer ≡ vec_capacity self.old.outer }
    {
        // (field by field: a level is written here whose fields were written just before)
        self.outer.push_reserved(Level {
            at: self.top.at + 1,
            turns: self.top.turns,
            calls: self.top.calls,
            function: self.top.function,
            loops: self.top.loops,
        });
        self.top = level;
    }

    /// At the end of a level: takes its next turn, or goes back to the level around it, where there is one.
    fn leave(&mut self) -> bool
        ensures left { OnTrue result (levels self.new ≡ left_behind (levels self.old)) }
        ensures over { OnFalse result ((self.old.top.turns ≡ 0) × (self.old.outer.items ≡ [])) }
        ensures stays { OnFalse result (levels self.new ≡ levels self.old) }
        ensures room { vec_capacity self.new.outer ≡ vec_capacity self.old.outer }
    {
        if self.top.turns > 0 {
            self.top.turns -= 1;
            self.top.at = 0;
            return true;
        }
        match self.outer.pop() {
            Some(level) => {
                self.top = level;
                true
            }
            None => false,
        }
    }

    /// Goes into a loop of `n` turns, at its end, or passes it by where loops stand too deep.
    fn enter_loop(&mut self, n: u32, len: usize)
        requires next { self.old.top.at + 1 < 2 ^ 64 }
        requires room { vec_len self.old.outer < vec_capacity self.old.outer }
        ensures levels { levels self.new ≡ looped self.old.top.loops n len self.old.top (reverse self.old.outer.items) }
        ensures room { vec_capacity self.new.outer ≡ vec_capacity self.old.outer }
    {
        if self.top.loops == 0 {
            self.skip();
            return;
        }
        let inner = Level {
            at: len,
            turns: n,
            calls: self.top.calls,
            function: self.top.function,
            loops: self.top.loops - 1,
        };
        self.enter(inner);
    }

    /// Goes into function `f`, or passes the call by where calls aren't followed.
    fn enter_call(&mut self, f: u8)
        requires next { self.old.top.at + 1 < 2 ^ 64 }
        requires room { vec_len self.old.outer + self.old.top.calls ≤ vec_capacity self.old.outer }
        ensures levels { levels self.new ≡ called self.old.top.calls f self.old.top (reverse self.old.outer.items) }
        ensures room { vec_capacity self.new.outer ≡ vec_capacity self.old.outer }
    {
        if self.top.calls == 0 {
            self.skip();
            return;
        }
        let inner = Level {
            at: 0,
            turns: 0,
            calls: self.top.calls - 1,
            function: f,
            loops: LOOPS,
        };
        self.enter(inner);
    }

    /// The statements of the level of the place, and what the program keeps of them.
    pub(crate) fn here<'a>(&self, program: &'a Program) -> Block<'a>
        ensures { IsHere program.now self.now.top (reverse self.now.outer.items) result }
    {
        block(program, self.top, self.outer.as_slice())
    }

    /// What stands at the place.
    pub(crate) fn ahead<'a>(&self, program: &'a Program) -> Ahead<'a>
        ensures ahead { IsAhead (body_at program.now self.now.top (reverse self.now.outer.items)) self.now.top.at result }
        ensures within { HasNext self.now.top.at result }
    {
        self.ahead_in(program, &self.here(program))
    }

    /// What stands at the place, where its level's statements were looked up.
    pub(crate) fn ahead_in<'a>(&self, program: &Program, here: &Block<'a>) -> Ahead<'a>
        requires { IsHere program.now self.now.top (reverse self.now.outer.items) here.now }
        ensures ahead { IsAhead (body_at program.now self.now.top (reverse self.now.outer.items)) self.now.top.at result }
        ensures within { HasNext self.now.top.at result }
    {
        // (it brings what the program is, of which the clauses tell)
        let _ = program;
        statement_at(here.statements, self.top.at)
    }

    /// At the end of a level whose body doesn't come again: goes back to the level around it, where there is one.
    fn leave_over(&mut self, program: &Program) -> bool
        requires { IsIn program.now self.old }
        ensures place { IsIn program.now self.new }
        ensures left { left program.now (levels self.new) ≡ left program.now (levels self.old) }
        ensures falls { cost program.now (levels self.new) ≤ cost program.now (levels self.old) }
        ensures less { OnTrue result (cost program.now (levels self.new) < cost program.now (levels self.old)) }
    {
        if self.top.turns != 0 {
            return false;
        }
        if self.top.at < self.here(program).statements.len() {
            return false;
        }
        self.leave()
    }

    /// At the end of a level: takes its next turn, or goes back to the level around it, and on from there where that is
    /// at its end too.
    fn leave_all(&mut self, program: &Program) -> bool
        requires place { IsIn program.now self.old }
        requires over { length (body_at program.now self.old.top (reverse self.old.outer.items)) ≤ self.old.top.at }
        ensures place { IsIn program.now self.new }
        ensures left { left program.now (levels self.new) ≡ left program.now (levels self.old) }
        ensures falls { OnTrue result (cost program.now (levels self.new) < cost program.now (levels self.old)) }
        ensures settled { OnFalse result (IsSettled program.now self.new.top (reverse self.new.outer.items)) }
    {
        if !self.leave() {
            return false;
        }
        while self.leave_over(program) {}
        true
    }

    /// A move towards the next point that passes none, where one is left.
    fn step(&mut self, program: &Program, here: &Block<'_>) -> bool
        requires place { IsIn program.now self.old }
        requires here { IsHere program.now self.old.top (reverse self.old.outer.items) here.now }
        ensures place { IsIn program.now self.new }
        ensures left { left program.now (levels self.new) ≡ left program.now (levels self.old) }
        ensures falls { OnTrue result (cost program.now (levels self.new) < cost program.now (levels self.old)) }
        ensures settled { OnFalse result (IsSettled program.now self.new.top (reverse self.new.outer.items)) }
    {
        match self.ahead_in(program, here) {
            Ahead::End => self.leave_all(program),
            Ahead::Work(n) => {
                if n == 0 {
                    self.skip();
                    return true;
                }
                false
            }
            Ahead::Labels(_) => false,
            Ahead::Loop(n, inner) => {
                self.enter_loop(n, inner.len());
                true
            }
            Ahead::Call(f) => {
                if (f as usize) < program.parts().functions.len() {
                    self.enter_call(f as u8);
                } else {
                    self.skip();
                }
                true
            }
            Ahead::Shared(_) => false,
        }
    }

    /// As many statements from the one at the place on as have points of work alone, at most `most`.
    fn work_here(&self, program: &Program, here: &Block<'_>, most: u64) -> Option<Run>
        requires { IsHere program.now self.now.top (reverse self.now.outer.items) here.now }
        ensures stands { IfSome result (λ run. IsWorkRun program.now self.now.top (reverse self.now.outer.items) run.to run.points) }
        ensures few { IfSome result (λ run. run.points ≤ most) }
    {
        if most == 0 {
            return None;
        }
        // (it tells that the program was checked)
        let _ = program.parts();
        here.work_run(self.top.at, self.top.loops, self.top.calls, most)
    }

    /// The points of a turn of the level at whose end the place is, where it comes again and they all are work and at
    /// most `most`.
    fn work_turn(&self, program: &Program, here: &Block<'_>, most: u64) -> Option<u64>
        requires { IsHere program.now self.now.top (reverse self.now.outer.items) here.now }
        ensures stands { IfSome result (IsWorkTurn program.now self.now.top (reverse self.now.outer.items)) }
        ensures few { IfSome result (λ n. n ≤ most) }
    {
        if self.top.turns == 0 {
            return None;
        }
        let _ = program.parts();
        if self.top.at < here.statements.len() {
            return None;
        }
        let turn = here.work_run(0, self.top.loops, self.top.calls, most)?;
        if turn.to < here.statements.len() || turn.points == 0 {
            return None;
        }
        Some(turn.points)
    }

    /// Takes so many turns of the level at whose end the place is as have at most `most` points, all of them work, and
    /// says how many points.
    fn take_turns(&mut self, program: &Program, here: &Block<'_>, most: u64) -> Option<u64>
        requires place { IsIn program.now self.old }
        requires here { IsHere program.now self.old.top (reverse self.old.outer.items) here.now }
        ensures place { IsIn program.now self.new }
        ensures here { IsHere program.now self.new.top (reverse self.new.outer.items) here.now }
        ensures few { IfSome result (λ n. n ≤ most) }
        ensures passes { MatchOption result (levels self.new ≡ levels self.old) (Passes program.now (levels self.old) (levels self.new)) }
        ensures falls { IfSome result (λ _. cost program.now (levels self.new) < cost program.now (levels self.old)) }
    {
        let once = self.work_turn(program, here, most)?;
        let turns = (most / once).min(self.top.turns as u64);
        self.top.turns -= turns as u32;
        Some(turns * once)
    }

    /// Begins the next turn of the level at whose end the place is, where one comes.
    fn turn(&mut self, program: &Program, here: &Block<'_>) -> bool
        requires place { IsIn program.now self.old }
        requires here { IsHere program.now self.old.top (reverse self.old.outer.items) here.now }
        ensures place { IsIn program.now self.new }
        ensures here { IsHere program.now self.new.top (reverse self.new.outer.items) here.now }
        ensures stays { OnFalse result (levels self.new ≡ levels self.old) }
        ensures left { left program.now (levels self.new) ≡ left program.now (levels self.old) }
        ensures falls { OnTrue result (cost program.now (levels self.new) < cost program.now (levels self.old)) }
    {
        // (it brings what the program is, of which the clauses tell)
        let _ = program;
        if self.top.turns == 0 || self.top.at < here.statements.len() {
            return false;
        }
        self.top.turns -= 1;
        self.top.at = 0;
        true
    }

    /// A move towards the next point that stays in its level, which passes at most `most` points of work where statements
    /// or turns have no others.
    fn move_within(&mut self, program: &Program, here: &Block<'_>, most: u64) -> Option<u64>
        requires place { IsIn program.now self.old }
        requires here { IsHere program.now self.old.top (reverse self.old.outer.items) here.now }
        ensures place { IsIn program.now self.new }
        ensures here { IsHere program.now self.new.top (reverse self.new.outer.items) here.now }
        ensures few { IfSome result (λ n. n ≤ most) }
        ensures passes { MatchOption result (levels self.new ≡ levels self.old) (Passes program.now (levels self.old) (levels self.new)) }
        ensures falls { IfSome result (λ _. cost program.now (levels self.new) < cost program.now (levels self.old)) }
    {
        if let Some(run) = self.work_here(program, here, most) {
            self.top.at = run.to;
            return Some(run.points);
        }
        if let Some(n) = self.take_turns(program, here, most) {
            return Some(n);
        }
        if self.turn(program, here) {
            Some(0)
        } else {
            None
        }
    }

    /// Goes on in a level whose statements were looked up, and then into another one, where no point comes before that.
    /// On the way it passes at most `most` points of work: those of statements and of turns that have no others.
    fn cross(&mut self, program: &Program, here: &Block<'_>, most: u64) -> Crossing
        requires place { IsIn program.now self.old }
        requires here { IsHere program.now self.old.top (reverse self.old.outer.items) here.now }
        ensures place { IsIn program.now self.new }
        ensures few { result.points ≤ most }
        ensures passes { Passes program.now (levels self.old) (levels self.new) result.points }
        ensures falls { OnFalse result.settled (cost program.now (levels self.new) < cost program.now (levels self.old)) }
        ensures settled { OnTrue result.settled (IsSettled program.now self.new.top (reverse self.new.outer.items)) }
    {
        let mut points = 0;
        while let Some(n) = self.move_within(program, here, most - points) {
            points += n;
        }
        let moved = self.step(program, here);
        if moved {
            return Crossing {
                points,
                settled: false,
            };
        }
        Crossing {
            points,
            settled: true,
        }
    }

    /// The same, where they are looked up.
    fn cross_level(&mut self, program: &Program, most: u64) -> Crossing
        requires { IsIn program.now self.old }
        ensures place { IsIn program.now self.new }
        ensures few { result.points ≤ most }
        ensures passes { Passes program.now (levels self.old) (levels self.new) result.points }
        ensures falls { OnFalse result.settled (cost program.now (levels self.new) < cost program.now (levels self.old)) }
        ensures settled { OnTrue result.settled (IsSettled program.now self.new.top (reverse self.new.outer.items)) }
    {
        // (two calls, so that what was looked up isn't copied)
        if self.top.loops == LOOPS {
            let here = program.block(self.top.function as u32);
            return self.cross(program, &here, most);
        }
        let here = self.here(program);
        self.cross(program, &here, most)
    }

    /// Goes on to the next point or to the end, and on the way passes at most `most` points of work, so many as it says:
    /// those of statements and of turns that have no others.
    fn go_on(&mut self, program: &Program, most: u64) -> u64
        requires { IsIn program.now self.old }
        ensures place { IsIn program.now self.new }
        ensures passes { Passes program.now (levels self.old) (levels self.new) result }
        ensures few { result ≤ most }
        ensures settled { IsSettled program.now self.new.top (reverse self.new.outer.items) }
    {
        let mut passed = 0;
        let mut settled = false;
        while !settled {
            let crossing = self.cross_level(program, most - passed);
            passed += crossing.points;
            settled = crossing.settled;
        }
        passed
    }

    /// Goes past the statement at the place, to the next point or to the end, and on the way passes at most `most`
    /// points of work, so many as it says: those of statements and of turns that have no others. The level's statements
    /// were looked up.
    pub(crate) fn pass(&mut self, program: &Program, here: &Block<'_>, most: u64) -> u64
        requires place { IsIn program.now self.old }
        requires here { IsHere program.now self.old.top (reverse self.old.outer.items) here.now }
        requires next { self.old.top.at + 1 < 2 ^ 64 }
        ensures place { IsIn program.now self.new }
        ensures passes { Passes program.now (stepped (levels self.old)) (levels self.new) result }
        ensures few { result ≤ most }
        ensures settled { IsSettled program.now self.new.top (reverse self.new.outer.items) }
    {
        self.skip();
        let crossing = self.cross(program, here, most);
        if crossing.settled {
            return crossing.points;
        }
        crossing.points + self.go_on(program, most - crossing.points)
    }

    /// Begins function `f`, with calls followed `calls` deep.
    pub(crate) fn begin(&mut self, program: &Program, f: u8, calls: u16)
        requires room { room program.now ≤ vec_capacity self.old.outer }
        requires calls { calls ≡ depth_of program.now - 1 }
        requires whole { trace_within program.now calls f ≡ trace program.now f }
        ensures place { IsIn program.now self.new }
        ensures left { left program.now (levels self.new) ≡ trace program.now f }
        ensures settled { IsSettled program.now self.new.top (reverse self.new.outer.items) }
    {
        self.top = Level {
            at: 0,
            turns: 0,
            calls,
            function: f,
            loops: LOOPS,
        };
        self.outer.clear();
        self.go_on(program, 0);
    }

    /// The points behind the statement at the place.
    fn look_behind(&self, program: &Program, here: &Block<'_>, limit: u64) -> Peek
        requires place { IsIn program.now self.now }
        requires here { IsHere program.now self.now.top (reverse self.now.outer.items) here.now }
        requires next { self.now.top.at + 1 < 2 ^ 64 }
        ensures { result ≡ peek_of (steps (left program.now (stepped (levels self.now)))) limit }
    {
        let mut top = self.top;
        top.at += 1;
        let first = look_here(program, top, here, limit);
        let mut local = first.local;
        if !first.is_over() {
            return first;
        }
        let mut around = self.outer.len();
        while around > 0 {
            around -= 1;
            let level = self.outer[around];
            let seen = look_level(
                program,
                level,
                &self.outer.as_slice()[..around],
                limit - local,
            );
            local += seen.local;
            if !seen.is_over() {
                return Peek {
                    local,
                    then: seen.then,
                };
            }
        }
        Peek {
            local,
            then: Then::Over,
        }
    }

    /// What `first` found of the statement at the place, and then the points behind it.
    pub(crate) fn look_past(
        &self,
        program: &Program,
        here: &Block<'_>,
        first: Peek,
        limit: u64,
    ) -> Peek
        requires place { IsIn program.now self.now }
        requires here { IsHere program.now self.now.top (reverse self.now.outer.items) here.now }
        requires next { self.now.top.at + 1 < 2 ^ 64 }
        requires few { first.local ≤ limit }
        ensures { (xs : List (Option Operation)) → first ≡ peek_of xs limit →
            result ≡ peek_of (xs ++ steps (left program.now (stepped (levels self.now)))) limit }
    {
        if !first.is_over() {
            return first;
        }
        let rest = self.look_behind(program, here, limit - first.local);
        Peek {
            local: first.local + rest.local,
            then: rest.then,
        }
    }
}
