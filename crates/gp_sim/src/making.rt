ghost use Rattle.std.specs.Prelude.{◌≡◌, ◌<◌, ◌++◌, ◌∷◌, [], length, get_or, IfOk, OnOk, OnErr};
ghost use Rattle.gp_isa.specs.Trace.{trace};
ghost use Rattle.gp_stack.specs.Body.{IsAtShared};
ghost use Rattle.gp_journal.specs.State.{code_of, goroutine};
ghost use Rattle.gp_journal.specs.May.{May};
ghost use Rattle.gp_journal.specs.Run.{state_of};
ghost use Rattle.gp_journal.specs.Shown.{IsPointOf, IsGiven};
ghost use Rattle.gp_journal.specs.Answer.{applied};
ghost use Rattle.gp_journal.specs.Bodies.{nowhere, standing};
ghost use Rattle.gp_machine.specs.AtPoint.{at_point};
ghost use Rattle.gp_journal.specs.declared.entry.Entry.TheVariants as entry;
ghost use Rattle.gp_stack.specs.declared.statement.Operation.TheVariants as operation;
ghost use Rattle.gp_sim.specs.Choice.{with_entry, with_read, after_act};
ghost use Rattle.gp_sim.specs.ChoiceLaw.{MayAct};
ghost use Rattle.gp_sim.specs.kept.Acting.{IsGivenTo};
ghost use Rattle.gp_sim.specs.kept.Simulation.{IsQuiet, BearsNobody, KeepsItsRing, StaysButRing};

use crate::bodies::{Bodies, newborn};
use crate::numbers::Act;
use crate::simulation::Simulation;
use gp_history::History;
use gp_isa::{Memory, Program};
use gp_machine::{AtPoint, Entry, Run, Settings, SharedPoint};
use gp_samples::{offer_sample, read};
use gp_stack::{Operation, Stack};
use std::alloc::Global;

// Makes the Op of g, whose body stands at its next point, a shared one, on w. What it leaves for the profiles of waits goes
// with a copy of that stack, which is made first; the body isn't asked for one where it leaves nothing.
fn come_to<R: Run>(
    history: &mut History<R>,
    bodies: &Bodies<R>,
    alloc: Global,
    program: &Program,
    w: u32,
    g: u32,
    point: SharedPoint,
) -> Result<AtPoint, Memory>
    requires program { program.now ≡ R.program }
    requires may { May (code_of R.program) R.settings (state_of R.program R.settings history.old) (entry.Op w g) }
    requires point { IsPointOf (code_of R.program) (state_of R.program R.settings history.old) g point }
    requires born { g < length bodies.now }
    requires shared { let p = get_or bodies.now g nowhere in IsAtShared (trace R.program p.start) p.count }
    requires stands { get_or bodies.now g nowhere ≡ standing (goroutine (state_of R.program R.settings history.old) g) }
    ensures journal { OnOk result (history.new ≡ history.old ++ entry.Op w g ∷ []) }
    ensures at_point { IfOk result (λ at. at
        ≡ at_point (applied (code_of R.program) R.settings (state_of R.program R.settings history.old) (entry.Op w g))) }
    ensures err { OnErr result (history.new ≡ history.old) }
{
    let event = history.foresee(w, point.operation);
    let frames = event.frames();
    if frames == 0 {
        return history.operate(w, g, point, event, Stack::new(alloc));
    }
    let stack = bodies.stack(alloc, program, g, frames)?;
    history.operate(w, g, point, event, stack)
}

impl<R: Run> Simulation<R> {
    // Makes an entry by which no body moves, nobody is sampled, and no profile begins, grows or ends.
    fn enter(&mut self, made: Entry)
        requires may { May (code_of R.program) R.settings (state_of R.program R.settings self.old.journal) made }
        requires quiet { IsQuiet made }
        ensures { self.new ≡ record self.old { journal = self.old.journal ++ made ∷ [] } }
    {
        self.history.enter(made);
    }

    fn open(&mut self, epoch: u32, room: u32)
        requires { May (code_of R.program) R.settings (state_of R.program R.settings self.old.journal) (entry.Open epoch room) }
        ensures { self.new ≡ record self.old { journal = self.old.journal ++ entry.Open epoch room ∷ [] } }
    {
        self.history.open(epoch, room);
    }

    fn close(&mut self, epoch: u32)
        requires { May (code_of R.program) R.settings (state_of R.program R.settings self.old.journal) (entry.Close epoch) }
        ensures { self.new ≡ record self.old { journal = self.old.journal ++ entry.Close epoch ∷ [] } }
    {
        self.history.close(epoch);
    }

    // g is sampled on w: its sample is offered to the ring, as g stands and at the clock.
    fn tick(&mut self, program: &Program, w: u32, g: u32)
        requires program { program.now ≡ R.program }
        requires may { May (code_of R.program) R.settings (state_of R.program R.settings self.old.journal) (entry.Tick w g) }
        requires ring { KeepsItsRing R.program R.settings self.old }
        ensures { self.new ≡ with_entry (code_of R.program) R.settings self.old (entry.Tick w g) }
    {
        let clock = self.history.machine().clock();
        offer_sample(&mut self.ring, program, self.bodies.body(g), clock);
        self.history.enter(Entry::Tick { w, g });
    }

    // g passes n local points on w.
    fn run(&mut self, program: &Program, w: u32, g: u32, n: u64)
        requires program { program.now ≡ R.program }
        requires may { May (code_of R.program) R.settings (state_of R.program R.settings self.old.journal) (entry.Run w g n) }
        ensures { self.new ≡ record self.old { journal = self.old.journal ++ entry.Run w g n ∷ [] } }
    {
        self.history.enter(Entry::Run { w, g, n });
        self.bodies.advance(program, g, n);
    }

    // An actor records g, whose copy is made first.
    fn record(&mut self, alloc: Global, program: &Program, actor: u32, g: u32) -> Result<(), Memory>
        requires program { program.now ≡ R.program }
        requires may { May (code_of R.program) R.settings (state_of R.program R.settings self.old.journal) (entry.Record actor g) }
        ensures ok { OnOk result (self.new ≡ record self.old { journal = self.old.journal ++ entry.Record actor g ∷ [] }) }
        ensures err { OnErr result (self.new ≡ self.old) }
    {
        let copy = self.bodies.record(alloc, program, g)?;
        self.history.record(actor, g, copy);
        Ok(())
    }

    // g comes to its next point, at which nobody can be born, on w.
    fn operate(
        &mut self,
        alloc: Global,
        program: &Program,
        w: u32,
        g: u32,
        point: SharedPoint,
    ) -> Result<(), Memory>
        requires program { program.now ≡ R.program }
        requires may { May (code_of R.program) R.settings (state_of R.program R.settings self.old.journal) (entry.Op w g) }
        requires point { IsPointOf (code_of R.program) (state_of R.program R.settings self.old.journal) g point }
        requires nobody { BearsNobody R.settings (state_of R.program R.settings self.old.journal) point }
        ensures ok { OnOk result (self.new ≡ record self.old { journal = self.old.journal ++ entry.Op w g ∷ [] }) }
        ensures err { OnErr result (self.new ≡ self.old) }
    {
        let at = come_to(&mut self.history, &self.bodies, alloc, program, w, g, point)?;
        self.bodies.follow(program, g, at);
        Ok(())
    }

    // g comes to its next point, a spawn of f, on w. The body of whoever may be born there is made first.
    fn spawn(
        &mut self,
        alloc: Global,
        program: &Program,
        w: u32,
        g: u32,
        point: SharedPoint,
        f: u32,
    ) -> Result<(), Memory>
        requires program { program.now ≡ R.program }
        requires may { May (code_of R.program) R.settings (state_of R.program R.settings self.old.journal) (entry.Op w g) }
        requires point { IsPointOf (code_of R.program) (state_of R.program R.settings self.old.journal) g point }
        requires spawn { point.operation ≡ operation.Spawn f }
        ensures ok { OnOk result (self.new ≡ record self.old { journal = self.old.journal ++ entry.Op w g ∷ [] }) }
        ensures err { OnErr result (self.new ≡ self.old) }
    {
        // (it has no effect, but tells that the program lies in its limits)
        let _ = program.parts();
        let born = newborn(alloc, program, f, point.labels)?;
        let at = come_to(&mut self.history, &self.bodies, alloc, program, w, g, point)?;
        self.bodies.follow(program, g, at);
        self.bodies.gain(at, born);
        Ok(())
    }

    // g comes to its next point, a shared one, on w.
    fn act(
        &mut self,
        alloc: Global,
        program: &Program,
        settings: &Settings,
        w: u32,
        g: u32,
        point: SharedPoint,
    ) -> Result<(), Memory>
        requires program { program.now ≡ R.program }
        requires settings { settings.now ≡ R.settings }
        requires may { May (code_of R.program) R.settings (state_of R.program R.settings self.old.journal) (entry.Op w g) }
        requires point { IsPointOf (code_of R.program) (state_of R.program R.settings self.old.journal) g point }
        ensures ok { OnOk result (self.new ≡ record self.old { journal = self.old.journal ++ entry.Op w g ∷ [] }) }
        ensures err { OnErr result (self.new ≡ self.old) }
    {
        if self.history.machine().births() < settings.cells {
            if let Operation::Spawn { f } = point.operation {
                return self.spawn(alloc, program, w, g, point, f);
            }
        }
        self.operate(alloc, program, w, g, point)
    }

    // Makes an entry that may come, with the next point of its goroutine where it is an Op. What takes memory is made
    // first.
    fn make(
        &mut self,
        alloc: Global,
        program: &Program,
        settings: &Settings,
        made: Entry,
        point: Option<SharedPoint>,
    ) -> Result<(), Memory>
        requires program { program.now ≡ R.program }
        requires settings { settings.now ≡ R.settings }
        requires may { May (code_of R.program) R.settings (state_of R.program R.settings self.old.journal) made }
        requires point { IsGiven (code_of R.program) (state_of R.program R.settings self.old.journal) made point }
        requires ring { KeepsItsRing R.program R.settings self.old }
        ensures ok { OnOk result (self.new ≡ with_entry (code_of R.program) R.settings self.old made) }
        ensures err { OnErr result (self.new ≡ self.old) }
    {
        match made {
            Entry::Op { w, g } => match point {
                Some(point) => return self.act(alloc, program, settings, w, g, point),
                None => unreachable!(),
            },
            Entry::Record { actor, g } => return self.record(alloc, program, actor, g),
            Entry::Run { w, g, n } => self.run(program, w, g, n),
            Entry::Open { epoch, room } => self.open(epoch, room),
            Entry::Close { epoch } => self.close(epoch),
            Entry::Tick { w, g } => self.tick(program, w, g),
            Entry::Start { .. } => self.enter(made),
            Entry::Park { .. } => self.enter(made),
            Entry::Refuse { .. } => self.enter(made),
        }
        Ok(())
    }

    // The reader reads once.
    fn read(&mut self, alloc: Global) -> Result<(), Memory>
        requires { KeepsItsRing R.program R.settings self.old }
        ensures ok { OnOk result (self.new ≡ with_read self.old) }
        ensures err { OnErr result (StaysButRing self.old self.new) }
    {
        let _ = read(alloc, &mut self.ring, &mut self.cpu)?;
        Ok(())
    }

    /// Does what an actor does in its turn. An entry comes with the next point of its goroutine where it is an Op.
    pub fn carry_out(
        &mut self,
        alloc: Global,
        program: &Program,
        settings: &Settings,
        act: Act,
        point: Option<SharedPoint>,
    ) -> Result<(), Memory>
        requires program { program.now ≡ R.program }
        requires settings { settings.now ≡ R.settings }
        requires may { MayAct (code_of R.program) R.settings (state_of R.program R.settings self.old.journal) act }
        requires point { IsGivenTo (code_of R.program) (state_of R.program R.settings self.old.journal) act point }
        requires ring { KeepsItsRing R.program R.settings self.old }
        ensures ok { OnOk result (self.new ≡ after_act (code_of R.program) R.settings self.old act) }
        ensures err { OnErr result (StaysButRing self.old self.new) }
    {
        match act {
            Act::Make { entry } => self.make(alloc, program, settings, entry, point),
            Act::Read => self.read(alloc),
        }
    }
}
