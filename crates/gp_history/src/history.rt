ghost use Rattle.std.specs.Prelude.{◌≡◌, ◌-◌, ◌≤◌, ◌++◌, ◌∷◌, [], get_or, take, IsSome, IfOk, OnOk, OnErr};
ghost use Rattle.gp_stack.specs.Goroutine.{stack_of};
ghost use Rattle.gp_journal.specs.Settings.{AreInRange};
ghost use Rattle.gp_journal.specs.State.{code_of, goroutine, worker};
ghost use Rattle.gp_journal.specs.May.{May};
ghost use Rattle.gp_journal.specs.Run.{state_of};
ghost use Rattle.gp_journal.specs.Frozen.{row};
ghost use Rattle.gp_journal.specs.Answer.{applied};
ghost use Rattle.gp_journal.specs.Shown.{IsPointOf};
ghost use Rattle.gp_journal.specs.Waits.{cut_stack};
ghost use Rattle.gp_journal.specs.declared.entry.Entry.TheVariants as entry;
ghost use Rattle.gp_journal.specs.Profiles.{records_of};
ghost use Rattle.gp_machine.specs.AtPoint.{at_point};
ghost use Rattle.gp_machine.specs.OnWorker.{OpIsDueOn, IsNextOn};
ghost use Rattle.gp_events.specs.Sums.{sums};
ghost use Rattle.gp_history.specs.History.{IsPlain, IsEventOn, most_rows};
ghost use Rattle.gp_history.specs.Events.{block_events, mutex_events, event_of, frames_of, AddsEvent};

use crate::op_event::OpEvent;
use crate::recorder::Recorder;
use crate::wait_sums::{BothSums, WaitSums};
use gp_events::Buckets;
use gp_isa::{Memory, Program};
use gp_machine::{Applied, AtPoint, Entry, Machine, Run, Settings, SharedPoint};
use gp_stack::{Operation, Profiles, Record, Stack};
use std::alloc::Global;
use std::marker::Model;

/// What a run has left so far: the machine, the records of its goroutine profiles, and the sums of its block and mutex
/// events.
///
/// Its value is the journal, which is legal; what is kept are functions of it. Beside `new` only `operate` and `enter_op`
/// take memory, where an event is added.
#[derive(Debug, Drop)]
pub struct History<R: Run> {
    machine: Machine<R>,
    recorder: Recorder,
    waits: WaitSums,
}

impl<R: Run> Model for History<R> {
    ghost use Rattle.std.specs.Prelude.{List};
    ghost use Rattle.gp_journal.specs.declared.entry.Entry.{Entry};
    ghost use Rattle.gp_history.specs.kept.History.{KeepsRun};

    ghost Value = { List Entry };

    ghost view = { λ h. h.machine };

    ghost invariant = { λ h. KeepsRun R.program R.settings h.machine h.recorder h.waits };
}

/// What a run has left, each part by itself.
#[derive(Debug, Drop)]
pub struct HistoryParts<R: Run> {
    pub machine: Machine<R>,
    /// The records of each profile, by epoch.
    pub records: Profiles,
    /// The sums of the block events.
    pub block: Buckets,
    /// The sums of the mutex events.
    pub mutex: Buckets,
}

// The most records of a profile.
fn most_rows(settings: &Settings) -> u32
    ensures { result ≡ most_rows settings.now }
{
    settings.cells.min(settings.room)
}

impl<R: Run> History<R> {
    /// The history of a run as it begins: no entry was made. It reserves what the machine needs, and for each request a
    /// list of as many records as a profile may have.
    pub fn new(alloc: Global, program: &Program, settings: &Settings) -> Result<History<R>, Memory>
        requires program { program.now ≡ R.program }
        requires settings { settings.now ≡ R.settings }
        requires range { AreInRange settings.now }
        ensures { IfOk result (λ history. history ≡ []) }
    {
        Ok(History {
            machine: Machine::new(alloc, program, settings)?,
            recorder: Recorder::new(alloc, settings.at.len(), most_rows(settings))?,
            waits: WaitSums::new(alloc, settings)?,
        })
    }

    /// Makes an entry by which nobody comes to a shared point, and no profile begins, grows or ends. The answer tells what
    /// it did.
    pub fn enter(&mut self, made: Entry) -> Applied
        requires may { May (code_of R.program) R.settings (state_of R.program R.settings self.old) made }
        requires plain { IsPlain made }
        ensures journal { self.new ≡ self.old ++ made ∷ [] }
        ensures answer { result ≡ applied (code_of R.program) R.settings (state_of R.program R.settings self.old) made }
    {
        self.machine.apply(made, None)
    }

    /// What the Op that is due on worker `w` leaves for the profiles of waits. `operation` is what its goroutine's next
    /// point does.
    pub fn foresee(&self, w: u32, operation: Operation) -> OpEvent
        requires runs { IsSome (worker (state_of R.program R.settings self.now) w).runs }
        requires due { OpIsDueOn R.program R.settings self.now w }
        requires operation { IsNextOn R.program R.settings self.now w operation }
        ensures { IsEventOn R.program R.settings self.now w result }
    {
        if self.waits.are_off() {
            return OpEvent::Nothing;
        }
        self.waits.event(self.machine.foresee(w, operation))
    }

    /// Makes the Op of g on worker `w`, where `point` is its next point and `event` what the Op leaves, as `foresee` tells,
    /// with as many frames of g's stack as go with that. The answer tells what became of g. Where there is no memory for the
    /// event all is as before.
    pub fn operate(
        &mut self,
        w: u32,
        g: u32,
        point: SharedPoint,
        event: OpEvent,
        stack: Stack,
    ) -> Result<AtPoint, Memory>
        requires may { May (code_of R.program) R.settings (state_of R.program R.settings self.old) (entry.Op w g) }
        requires point { IsPointOf (code_of R.program) (state_of R.program R.settings self.old) g point }
        requires event { event ≡ event_of R.program R.settings self.old g }
        requires stack { stack
            ≡ cut_stack (frames_of event) (code_of R.program) (goroutine (state_of R.program R.settings self.old) g) }
        ensures journal { OnOk result (self.new ≡ self.old ++ entry.Op w g ∷ []) }
        ensures at_point { IfOk result (λ at. at
            ≡ at_point (applied (code_of R.program) R.settings (state_of R.program R.settings self.old) (entry.Op w g))) }
        ensures err { OnErr result (self.new ≡ self.old) }
        ensures memory { OnErr result (AddsEvent event) }
    {
        self.waits.note(event, stack)?;
        Ok(self.machine.make(Entry::Op { w, g }, Some(point)))
    }

    /// Makes the Op of g as `operate` does, and tells all that it did.
    pub fn enter_op(
        &mut self,
        w: u32,
        g: u32,
        point: SharedPoint,
        event: OpEvent,
        stack: Stack,
    ) -> Result<Applied, Memory>
        requires may { May (code_of R.program) R.settings (state_of R.program R.settings self.old) (entry.Op w g) }
        requires point { IsPointOf (code_of R.program) (state_of R.program R.settings self.old) g point }
        requires event { event ≡ event_of R.program R.settings self.old g }
        requires stack { stack
            ≡ cut_stack (frames_of event) (code_of R.program) (goroutine (state_of R.program R.settings self.old) g) }
        ensures journal { OnOk result (self.new ≡ self.old ++ entry.Op w g ∷ []) }
        ensures answer { IfOk result (λ it. it
            ≡ applied (code_of R.program) R.settings (state_of R.program R.settings self.old) (entry.Op w g)) }
        ensures err { OnErr result (self.new ≡ self.old) }
        ensures memory { OnErr result (AddsEvent event) }
    {
        self.waits.note(event, stack)?;
        Ok(self.machine.apply(Entry::Op { w, g }, Some(point)))
    }

    /// A profile is opened.
    pub fn open(&mut self, epoch: u32, room: u32)
        requires { May (code_of R.program) R.settings (state_of R.program R.settings self.old) (entry.Open epoch room) }
        ensures { self.new ≡ self.old ++ entry.Open epoch room ∷ [] }
    {
        self.machine.make(Entry::Open { epoch, room }, None);
        self.recorder.begin();
    }

    /// An actor records g. `copy` is the row of g.
    pub fn record(&mut self, actor: u32, g: u32, copy: Record)
        requires may { May (code_of R.program) R.settings (state_of R.program R.settings self.old) (entry.Record actor g) }
        requires copy { copy ≡ row (code_of R.program) g (goroutine (state_of R.program R.settings self.old) g) }
        ensures { self.new ≡ self.old ++ entry.Record actor g ∷ [] }
    {
        self.machine.make(Entry::Record { actor, g }, None);
        self.recorder.push(copy);
    }

    /// The active profile is closed.
    pub fn close(&mut self, epoch: u32)
        requires { May (code_of R.program) R.settings (state_of R.program R.settings self.old) (entry.Close epoch) }
        ensures { self.new ≡ self.old ++ entry.Close epoch ∷ [] }
    {
        self.machine.make(Entry::Close { epoch }, None);
        self.recorder.end();
    }

    /// The machine, which tells the entries so far and what they did.
    pub fn machine(&self) -> &Machine<R>
        ensures { result.now ≡ self.now }
    {
        &self.machine
    }

    /// The records of the profile of an epoch, in the order in which they were made.
    pub fn records(&self, epoch: u32) -> &[Record]
        requires { 1 ≤ epoch }
        ensures { result.now ≡ get_or (records_of (code_of R.program) R.settings self.now) (epoch - 1) [] }
    {
        self.recorder.get(epoch as usize - 1)
    }

    /// The sums of the block events so far.
    pub fn block(&self) -> &Buckets
        ensures { result.now ≡ sums (block_events (code_of R.program) R.settings self.now) }
    {
        self.waits.block()
    }

    /// The sums of the mutex events so far.
    pub fn mutex(&self) -> &Buckets
        ensures { result.now ≡ sums (mutex_events (code_of R.program) R.settings self.now) }
    {
        self.waits.mutex()
    }

    /// The machine, the records and the sums. It takes no memory.
    pub fn into_parts(self) -> HistoryParts<R>
        ensures machine { result.machine ≡ self }
        ensures records { result.records ≡ records_of (code_of R.program) R.settings self }
        ensures block { result.block ≡ sums (block_events (code_of R.program) R.settings self) }
        ensures mutex { result.mutex ≡ sums (mutex_events (code_of R.program) R.settings self) }
    {
        let History {
            machine,
            recorder,
            waits,
        } = self;
        let BothSums { block, mutex } = waits.into_sums();
        HistoryParts {
            machine,
            records: recorder.into_profiles(),
            block,
            mutex,
        }
    }
}
