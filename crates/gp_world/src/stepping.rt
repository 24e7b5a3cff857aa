//! A worker makes the entry that is due of whom it runs.
ghost use Rattle.std.specs.Prelude.{◌≡◌, ◌<◌, ◌++◌, ◌∷◌, [], false, take, Some, IsSome, IfSome, IfOk, OnOk, OnErr, if◌then◌else◌};
ghost use Rattle.gp_stack.specs.Body.{progress_of, is_over_at, stack_at, HasRoom, StandsIn};
ghost use Rattle.gp_history.specs.Events.{event_of, frames_of, AddsEvent};
ghost use Rattle.gp_journal.specs.declared.entry.Entry.TheVariants as entry;
ghost use Rattle.gp_journal.specs.Answer.{applied};
ghost use Rattle.gp_journal.specs.Bodies.{standing};
ghost use Rattle.gp_journal.specs.Due.{due};
ghost use Rattle.gp_journal.specs.May.{May};
ghost use Rattle.gp_journal.specs.Run.{IsLegal, state_of};
ghost use Rattle.gp_journal.specs.Settings.{AreInRange};
ghost use Rattle.gp_journal.specs.Shown.{IsPeekAt, IsPointOf};
ghost use Rattle.gp_journal.specs.State.{code_of, goroutine, worker};
ghost use Rattle.gp_journal.specs.StepLaws.{joining};
ghost use Rattle.gp_cpu.specs.Samples.{sampled_at};
ghost use Rattle.gp_world.specs.declared.step.Step.TheVariants as step;
ghost use Rattle.gp_world.specs.Calls.{IsStep, WantsMemory, moved_by};
ghost use Rattle.gp_world.specs.kept.Workers.{IsStepIn, after_due, moved_with, BearsIn, place_of_newborn};
ghost use Rattle.gp_world.specs.RingEnds.{with_sampled};
ghost use Rattle.gp_world.specs.Rows.{worker_row, runs_one};

use crate::entries::Operated;
use crate::step::Step;
use crate::world::World;
use gp_history::OpEvent;
use gp_isa::{Memory, Program, limits};
use gp_machine::{Applied, Entry, Machine, Run, SharedPoint};
use gp_stack::{Body, Operation, Peek, Stack, Then};
use gp_tally::Share;
use std::alloc::Global;

// The next point of g, whose body stands at a shared one, as a look ahead at it found it.
fn shared_point<R: Run>(
    machine: &Machine<R>,
    body: &Body,
    w: u32,
    g: u32,
    peek: Peek,
) -> SharedPoint
    requires place { progress_of body.now ≡ standing (goroutine (state_of R.program R.settings machine.now) g) }
    requires stands { StandsIn R.program body.now }
    requires range { AreInRange R.settings }
    requires legal { IsLegal (code_of R.program) R.settings machine.now }
    requires may { May (code_of R.program) R.settings (state_of R.program R.settings machine.now) (entry.Op w g) }
    requires peek { IsPeekAt (code_of R.program) (state_of R.program R.settings machine.now) g peek }
    ensures { IsPointOf (code_of R.program) (state_of R.program R.settings machine.now) g result }
{
    match peek.then {
        Then::Shared(operation) => SharedPoint {
            operation,
            labels: body.labels(),
        },
        Then::Local => unreachable!(),
        Then::Over => unreachable!(),
    }
}

// The stack that goes with what an Op leaves: so many frames of the body's. It takes memory only where an event is added.
fn event_stack(
    alloc: Global,
    program: &Program,
    body: &Body,
    event: OpEvent,
) -> Result<Stack, Memory>
    requires stands { StandsIn program.now body.now }
    requires going { is_over_at program.now (progress_of body.now) ≡ false }
    ensures stack { IfOk result (λ stack. stack ≡ take (frames_of event) (stack_at program.now (progress_of body.now))) }
    ensures memory { OnErr result (AddsEvent event) }
{
    match event {
        OpEvent::Nothing => Ok(Stack::new(alloc)),
        OpEvent::Skipped => Ok(Stack::new(alloc)),
        OpEvent::Block { .. } => body.stack(alloc, program, event.frames()),
        OpEvent::Mutex { .. } => body.stack(alloc, program, event.frames()),
    }
}

// One passed its point, and its trace ended or didn't.
fn passed(died: bool) -> Step
    ensures { result ≡ (if died then step.Died else step.Passed) }
{
    if died {
        return Step::Died;
    }
    Step::Passed
}

// A body of one that is born where another came to such a point.
fn newborn(program: &Program, spare: Option<Body>, point: SharedPoint) -> Body
    requires spare { IsSome spare }
    requires room { IfSome spare (HasRoom program.now) }
    requires bears { BearsIn program.now point.operation }
    ensures stands { StandsIn program.now result }
    ensures place { progress_of result ≡ place_of_newborn point }
{
    match (spare, point.operation) {
        (Some(mut body), Operation::Spawn { f }) => {
            body.born(program, f, point.labels);
            body
        }
        _ => unreachable!(),
    }
}

impl<R: Run> World<R> {
    // Whom a worker runs.
    fn run_by(&mut self, who: &mut Share) -> u32
        requires book { who.old.book ≡ self.old.book }
        requires worker { who.old.number < R.settings.workers }
        requires runs { who.old.row.a ≡ runs_one }
        ensures scene { self.new ≡ self.old }
        ensures share { who.new ≡ who.old }
        ensures g { result ≡ who.old.row.b }
        ensures runs { (worker (state_of R.program R.settings self.old.journal) who.old.number).runs ≡ Some result }
    {
        self.book.check(who);
        match self.history.machine().runs(who.number()) {
            Some(g) => g,
            None => unreachable!(),
        }
    }

    // g, which a worker runs, runs so many points, as is due.
    fn run(&mut self, who: &mut Share, g: u32, n: u64) -> Step
        requires book { who.old.book ≡ self.old.book }
        requires worker { who.old.number < R.settings.workers }
        requires mine { who.old.row.a ≡ runs_one }
        requires may { May (code_of R.program) R.settings (state_of R.program R.settings self.old.journal) (entry.Run who.old.number g n) }
        ensures answer { IsStepIn R.program R.settings self.old self.new who.old.number g result }
        ensures scene { self.new ≡ after_due R.program R.settings self.old self.new (entry.Run who.old.number g n) }
        ensures share { who.new ≡ record who.old { row = worker_row R.program R.settings self.new.journal who.old.number } }
    {
        let made = Entry::Run {
            w: who.number(),
            g,
            n,
        };
        match self.enter(who, made) {
            Applied::Plain { died: true } => Step::Died,
            Applied::Plain { died: false } => Step::Advance { n },
            _ => unreachable!(),
        }
    }

    // g, which a worker runs, comes to its next point, as is due. Its body passes that where g does.
    fn operate(
        &mut self,
        alloc: Global,
        program: &Program,
        who: &mut Share,
        g: u32,
        body: &mut Body,
        point: SharedPoint,
    ) -> Result<Step, Memory>
        requires program { program.now ≡ R.program }
        requires book { who.old.book ≡ self.old.book }
        requires worker { who.old.number < R.settings.workers }
        requires may { May (code_of R.program) R.settings (state_of R.program R.settings self.old.journal) (entry.Op who.old.number g) }
        requires stands { StandsIn R.program body.old }
        requires place { progress_of body.old ≡ standing (goroutine (state_of R.program R.settings self.old.journal) g) }
        requires point { IsPointOf (code_of R.program) (state_of R.program R.settings self.old.journal) g point }
        ensures answer { IfOk result (IsStepIn R.program R.settings self.old self.new who.old.number g) }
        ensures scene { OnOk result (self.new ≡ after_due R.program R.settings self.old self.new (entry.Op who.old.number g)) }
        ensures share { OnOk result (who.new
            ≡ record who.old { row = worker_row R.program R.settings self.new.journal who.old.number }) }
        ensures moved { OnOk result (progress_of body.new
            ≡ moved_with R.program R.settings self.old (entry.Op who.old.number g) (progress_of body.old)) }
        ensures still_stands { StandsIn R.program body.new }
        ensures err { OnErr result ((self.new ≡ self.old) × ((who.new ≡ who.old) × (body.new ≡ body.old))) }
        ensures memory { OnErr result (AddsEvent (event_of R.program R.settings self.old.journal g)) }
    {
        // (it has no effect, but tells that the program lies in its limits)
        let _ = program.parts();
        let event = self.history.foresee(who.number(), point.operation);
        let stack = event_stack(alloc, program, body, event)?;
        let Operated { answer, spare } = self.enter_op(who, g, point, event, stack)?;
        match answer {
            Applied::Passed { died, .. } => {
                body.pass(program);
                Ok(passed(died))
            }
            Applied::Born { g, died } => {
                body.pass(program);
                let epoch = self.history.machine().epoch(g);
                let body = newborn(program, spare, point);
                Ok(Step::Born {
                    g,
                    epoch,
                    body,
                    died,
                })
            }
            Applied::Blocked => Ok(Step::Blocked),
            Applied::Fault { cause } => Ok(Step::Faulted { cause }),
            Applied::Plain { .. } => unreachable!(),
        }
    }

    // Makes the entry that is due of g, which a worker runs.
    fn make_due(
        &mut self,
        alloc: Global,
        program: &Program,
        who: &mut Share,
        g: u32,
        body: &mut Body,
    ) -> Result<Step, Memory>
        requires program { program.now ≡ R.program }
        requires book { who.old.book ≡ self.old.book }
        requires worker { who.old.number < R.settings.workers }
        requires mine { who.old.row.a ≡ runs_one }
        requires runs { (worker (state_of R.program R.settings self.old.journal) who.old.number).runs ≡ Some g }
        requires stands { StandsIn R.program body.old }
        requires place { progress_of body.old ≡ standing (goroutine (state_of R.program R.settings self.old.journal) g) }
        ensures answer { IfOk result (IsStepIn R.program R.settings self.old self.new who.old.number g) }
        ensures scene { OnOk result (self.new ≡ after_due R.program R.settings self.old self.new
            (due (code_of R.program) R.settings (state_of R.program R.settings self.old.journal) who.old.number g)) }
        ensures share { OnOk result (who.new
            ≡ record who.old { row = worker_row R.program R.settings self.new.journal who.old.number }) }
        ensures moved { OnOk result (progress_of body.new ≡ moved_with R.program R.settings self.old
            (due (code_of R.program) R.settings (state_of R.program R.settings self.old.journal) who.old.number g) (progress_of body.old)) }
        ensures still_stands { StandsIn R.program body.new }
        ensures err { OnErr result ((self.new ≡ self.old) × ((who.new ≡ who.old) × (body.new ≡ body.old))) }
        ensures memory { OnErr result (WantsMemory R.program R.settings self.old.journal who.old.number g) }
    {
        let peek = body.peek(program, limits::QUANTUM);
        let made = self.history.machine().due(who.number(), &peek);
        match made {
            Entry::Run { n, .. } => Ok(self.run(who, g, n)),
            Entry::Op { .. } => {
                let point = shared_point(self.history.machine(), body, who.number(), g, peek);
                self.operate(alloc, program, who, g, body, point)
            }
            Entry::Tick { .. } => Ok(Step::Ticked {
                wrote: self.enter_tick(program, who, g, body),
            }),
            Entry::Park { .. } => {
                self.enter(who, Entry::Park { w: who.number(), g });
                Ok(Step::Parked)
            }
            Entry::Start { .. } => unreachable!(),
            Entry::Open { .. } => unreachable!(),
            Entry::Refuse { .. } => unreachable!(),
            Entry::Record { .. } => unreachable!(),
            Entry::Close { .. } => unreachable!(),
        }
    }

    /// Makes the entry that is due of the goroutine that a worker runs, whose body is lent. Where that is an Op that passes its
    /// point, the body passes it too. Where there is no memory for an event that is added all is as before.
    pub fn step(
        &mut self,
        alloc: Global,
        program: &Program,
        who: &mut Share,
        body: &mut Body,
    ) -> Result<Step, Memory>
        requires program { program.now ≡ R.program }
        requires book { who.old.book ≡ self.old.book }
        requires worker { who.old.number < R.settings.workers }
        requires runs { who.old.row.a ≡ runs_one }
        requires stands { StandsIn R.program body.old }
        requires place { progress_of body.old
            ≡ standing (goroutine (state_of R.program R.settings self.old.journal) who.old.row.b) }
        ensures answer { IfOk result (IsStep R.program R.settings (state_of R.program R.settings self.old.journal) self.old.ring
            self.new.ring who.old.number who.old.row.b) }
        ensures scene { OnOk result (
            let state = state_of R.program R.settings self.old.journal in
            let made = due (code_of R.program) R.settings state who.old.number who.old.row.b in
            self.new ≡ record self.old {
              journal = self.old.journal ++ made ∷ [];
              waiting = self.old.waiting ++ joining made (applied (code_of R.program) R.settings state made);
              ring = with_sampled self.old.ring self.new.ring (sampled_at (code_of R.program) state made);
            }) }
        ensures share { OnOk result (who.new
            ≡ record who.old { row = worker_row R.program R.settings self.new.journal who.old.number }) }
        ensures moved { OnOk result (
            let state = state_of R.program R.settings self.old.journal in
            let made = due (code_of R.program) R.settings state who.old.number who.old.row.b in
            progress_of body.new ≡ moved_by (applied (code_of R.program) R.settings state made) (progress_of body.old)) }
        ensures still_stands { StandsIn R.program body.new }
        ensures err { OnErr result ((self.new ≡ self.old) × ((who.new ≡ who.old) × (body.new ≡ body.old))) }
        ensures memory { OnErr result (WantsMemory R.program R.settings self.old.journal who.old.number who.old.row.b) }
    {
        let g = self.run_by(who);
        self.make_due(alloc, program, who, g, body)
    }
}
