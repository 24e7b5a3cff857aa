ghost use Rattle.std.specs.Prelude.{◌≡◌, ◌<◌, ◌≤◌, ◌+◌, ◌++◌, ◌∷◌, [], false, length, get_or, map, take, min, IfOk};
ghost use Rattle.gp_isa.specs.Trace.{trace};
ghost use Rattle.gp_stack.specs.Body.{progress_of, stack_at, is_over_at, StandsIn, IsAtShared};
ghost use Rattle.gp_stack.specs.Goroutine.{labels_of, local_ahead};
ghost use Rattle.gp_stack.specs.Peek.{then_at};
ghost use Rattle.gp_stack.specs.Record.{record_of};
ghost use Rattle.gp_journal.specs.Bodies.{nowhere, moved_on};
ghost use Rattle.gp_sim.specs.kept.Bodies.{Shows, gone_on, joined};

use gp_isa::{Memory, Program};
use gp_machine::{AtPoint, Run, Settings, SharedPoint};
use gp_stack::{Body, Peek, Record, Stack, Then};
use std::alloc::Global;
use std::marker::{Model, PhantomData};

/// The bodies of the goroutines that were born, by number, with room for each cell. The value is where each stands.
#[derive(Drop)]
pub(crate) struct Bodies<R: Run> {
    bodies: Vec<Body>,
    of: PhantomData<R>,
}

impl<R: Run> Model for Bodies<R> {
    ghost use Rattle.std.specs.Prelude.{List};
    ghost use Rattle.std.specs.Vec.{vec_capacity};
    ghost use Rattle.gp_stack.specs.Body.{Progress};
    ghost use Rattle.gp_journal.specs.Bodies.{progress_each};
    ghost use Rattle.gp_sim.specs.kept.Bodies.{StandInRoom};

    ghost Value = { List Progress };

    ghost view = { λ b. progress_each b.bodies.items };

    ghost invariant = { λ b. StandInRoom R.program R.settings (vec_capacity b.bodies) b.bodies.items };
}

/// The body of one that is born, to run a function with a label set.
pub(crate) fn newborn(alloc: Global, program: &Program, start: u32, set: u8) -> Result<Body, Memory>
    requires { start < length program.now.functions }
    ensures stands { IfOk result (StandsIn program.now) }
    ensures progress { IfOk result (λ body. progress_of body ≡ record { start = start; set = set; count = 0 }) }
{
    let mut body = Body::vacant(alloc, program)?;
    body.born(program, start, set);
    Ok(body)
}

impl<R: Run> Bodies<R> {
    /// None yet, and room for each cell.
    pub fn new(alloc: Global, settings: &Settings) -> Result<Bodies<R>, Memory>
        requires { settings.now ≡ R.settings }
        ensures { IfOk result (λ bodies. bodies ≡ []) }
    {
        Ok(Bodies {
            bodies: Vec::with_capacity(alloc, settings.cells as usize)?,
            of: PhantomData,
        })
    }

    /// One more comes to them.
    pub fn push(&mut self, body: Body)
        requires stands { StandsIn R.program body }
        requires room { length self.old < R.settings.cells }
        ensures { self.new ≡ self.old ++ progress_of body ∷ [] }
    {
        match self.bodies.push(body) {
            Ok(()) => {}
            Err(_) => unreachable!(),
        }
    }

    /// How many local points the body of g has ahead, up to a limit, and what follows.
    pub fn peek(&self, program: &Program, g: u32, limit: u64) -> Peek
        requires program { program.now ≡ R.program }
        requires born { g < length self.now }
        ensures local { let p = get_or self.now g nowhere in result.local ≡ min limit (local_ahead (trace R.program p.start) p.count) }
        ensures then { let p = get_or self.now g nowhere in result.then ≡ then_at (trace R.program p.start) (p.count + result.local) }
    {
        self.bodies[g as usize].peek(program, limit)
    }

    /// The body of g.
    pub fn body(&self, g: u32) -> &Body
        requires { g < length self.now }
        ensures stands { StandsIn R.program result.now }
        ensures place { progress_of result.now ≡ get_or self.now g nowhere }
    {
        &self.bodies[g as usize]
    }

    // The labels of g.
    fn labels(&self, g: u32) -> u8
        requires { g < length self.now }
        ensures { let p = get_or self.now g nowhere in result ≡ labels_of (trace R.program p.start) p.set p.count }
    {
        self.bodies[g as usize].labels()
    }

    /// The next point of g with g's labels, where it is shared, as a look ahead at it found.
    pub fn point(&self, g: u32, peek: Peek) -> Option<SharedPoint>
        requires born { g < length self.now }
        requires then { let p = get_or self.now g nowhere in peek.then ≡ then_at (trace R.program p.start) (p.count + peek.local) }
        requires local { let p = get_or self.now g nowhere in IsAtShared (trace R.program p.start) p.count → peek.local ≡ 0 }
        ensures { let p = get_or self.now g nowhere in
            IsAtShared (trace R.program p.start) p.count → Shows (trace R.program p.start) p result }
    {
        match peek.then {
            Then::Shared(operation) => Some(SharedPoint {
                operation,
                labels: self.labels(g),
            }),
            Then::Local => None,
            Then::Over => None,
        }
    }

    /// g passes n local points.
    pub fn advance(&mut self, program: &Program, g: u32, n: u64)
        requires program { program.now ≡ R.program }
        requires born { g < length self.old }
        requires ahead { let p = get_or self.old g nowhere in n ≤ local_ahead (trace R.program p.start) p.count }
        ensures { self.new ≡ moved_on self.old g n }
    {
        self.bodies[g as usize].advance(program, n);
    }

    // g passes its next point, which is shared.
    fn pass(&mut self, program: &Program, g: u32)
        requires program { program.now ≡ R.program }
        requires born { g < length self.old }
        requires shared { let p = get_or self.old g nowhere in IsAtShared (trace R.program p.start) p.count }
        ensures { self.new ≡ moved_on self.old g 1 }
    {
        self.bodies[g as usize].pass(program);
    }

    /// Goes on after g came to a shared point, by what became of it: g passes it or stays.
    pub fn follow(&mut self, program: &Program, g: u32, at: AtPoint)
        requires program { program.now ≡ R.program }
        requires born { g < length self.old }
        requires shared { let p = get_or self.old g nowhere in IsAtShared (trace R.program p.start) p.count }
        ensures { self.new ≡ gone_on g at self.old }
    {
        match at {
            AtPoint::Passes => self.pass(program, g),
            AtPoint::Bears => self.pass(program, g),
            AtPoint::Stays => {}
        }
    }

    /// The body of one who stands ready comes to them, where somebody was born.
    pub fn gain(&mut self, at: AtPoint, born: Body)
        requires stands { StandsIn R.program born }
        requires room { at ≡ AtPoint.Bears → length self.old < R.settings.cells }
        ensures { self.new ≡ joined at (progress_of born) self.old }
    {
        match at {
            AtPoint::Bears => self.push(born),
            AtPoint::Passes => {}
            AtPoint::Stays => {}
        }
    }

    /// The stack of g, whose trace isn't ended, cut to so many frames. It takes no memory for none.
    pub fn stack(
        &self,
        alloc: Global,
        program: &Program,
        g: u32,
        frames: u32,
    ) -> Result<Stack, Memory>
        requires program { program.now ≡ R.program }
        requires born { g < length self.now }
        requires going { is_over_at R.program (get_or self.now g nowhere) ≡ false }
        ensures { IfOk result (λ stack. stack ≡ take frames (stack_at R.program (get_or self.now g nowhere))) }
    {
        self.bodies[g as usize].stack(alloc, program, frames)
    }

    /// The record of g.
    pub fn record(&self, alloc: Global, program: &Program, g: u32) -> Result<Record, Memory>
        requires program { program.now ≡ R.program }
        requires born { g < length self.now }
        ensures { IfOk result (λ row. row ≡ record_of R.program g (get_or self.now g nowhere)) }
    {
        self.bodies[g as usize].record(alloc, program, g)
    }
}
