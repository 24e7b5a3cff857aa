//! The calls that make one entry. Each carries all that a world keeps, and all other calls stand on them.
ghost use Rattle.std.specs.Prelude.{◌≡◌, ◌<◌, ◌≤◌, ◌⊎◌, ◌+◌, ◌++◌, ◌∷◌, [], true, false, IfOk, OnOk, OnErr};
ghost use Rattle.gp_isa.specs.Trace.{trace};
ghost use Rattle.gp_stack.specs.Body.{progress_of, StandsIn};
ghost use Rattle.gp_history.specs.Events.{event_of, frames_of, AddsEvent};
ghost use Rattle.gp_journal.specs.declared.entry.Entry.TheVariants as entry;
ghost use Rattle.gp_journal.specs.Actors.{actor_of, made_by};
ghost use Rattle.gp_journal.specs.Answer.{applied};
ghost use Rattle.gp_journal.specs.Bodies.{standing};
ghost use Rattle.gp_journal.specs.Due.{asked, IsComplete};
ghost use Rattle.gp_journal.specs.Frozen.{row};
ghost use Rattle.gp_journal.specs.May.{May};
ghost use Rattle.gp_journal.specs.Run.{state_of};
ghost use Rattle.gp_journal.specs.Shown.{IsPointOf};
ghost use Rattle.gp_journal.specs.State.{code_of, goroutine, is_live, live, worker};
ghost use Rattle.gp_journal.specs.StepLaws.{joining};
ghost use Rattle.gp_journal.specs.Waits.{cut_stack};
ghost use Rattle.gp_ring.specs.PlainRing.{End};
ghost use Rattle.gp_ring.specs.Records.{Covers};
ghost use Rattle.gp_ring.specs.TwoEnds.{ReaderEnd};
ghost use Rattle.gp_cpu.specs.Samples.{sample_of, samples_of_journal};
ghost use Rattle.gp_samples.specs.RunRing.{BeginWithHead};
ghost use Rattle.gp_world.specs.declared.ring_end.RingEnd.TheVariants.{Settled};
ghost use Rattle.gp_world.specs.RingEnds.{IsOf, Tells, with_sample, shut_of};
ghost use Rattle.gp_world.specs.Rows.{row_of, worker_row, profiler_row, finished_row, settled_row, on_of, MayRecordAs};
ghost use Rattle.gp_world.specs.Rows.{has_picked, runs_one, has_finished};
ghost use Rattle.gp_world.specs.kept.Entering.{IsMine, IsQuiet, IsSpare, MayJoin, HandsOut};

use crate::actor_rows::{actor_with, finished_row, profiler_row, settled_row, worker_row};
use crate::ring_end::{RingEnd, closed_in, offer_at, shut};
use crate::world::World;
use gp_history::OpEvent;
use gp_isa::{Memory, Program};
use gp_machine::{Applied, Entry, Queue, Run, SharedPoint};
use gp_ring::{Reader, Wrote};
use gp_stack::{Body, Record, Stack};
use gp_tally::Share;
use std::mem;

// What an Op did, and a body for whoever was born, if somebody was.
#[derive(Drop)]
pub(crate) struct Operated {
    pub(crate) answer: Applied,
    pub(crate) spare: Option<Body>,
}

// Lets whom an entry woke, bore or put back wait.
fn join(waiting: &mut Queue, made: Entry, answer: Applied)
    requires { MayJoin waiting.old (joining made answer) }
    ensures { waiting.new ≡ record waiting.old { items = waiting.old.items ++ joining made answer } }
{
    match (made, answer) {
        (Entry::Park { g, .. }, _) => waiting.push_back(g),
        (
            _,
            Applied::Passed {
                woke: Some(woken),
                ..
            },
        ) => waiting.push_back(woken.g),
        (_, Applied::Born { g, .. }) => waiting.push_back(g),
        _ => {}
    }
}

// A body for whoever was born, of those that are left.
fn spare(unborn: &mut Vec<Body>, answer: Applied) -> Option<Body>
    ensures { HandsOut answer unborn.old.items unborn.new.items result }
{
    match answer {
        Applied::Born { .. } => unborn.pop(),
        _ => None,
    }
}

impl<R: Run> World<R> {
    /// Makes an entry of a worker that is a Start, a Run or a Park. It tells what it did.
    pub(crate) fn enter(&mut self, who: &mut Share, made: Entry) -> Applied
        requires book { who.old.book ≡ self.old.book }
        requires worker { who.old.number < R.settings.workers }
        requires actor { actor_of R.settings.workers made ≡ who.old.number }
        requires mine { IsMine made who.old.row }
        requires quiet { IsQuiet made }
        requires may { May (code_of R.program) R.settings (state_of R.program R.settings self.old.journal) made }
        ensures scene { self.new ≡ record self.old {
          journal = self.old.journal ++ made ∷ [];
          waiting = self.old.waiting ++ joining made result;
        } }
        ensures share { who.new ≡ record who.old { row = worker_row R.program R.settings self.new.journal who.old.number } }
        ensures answer { result ≡ applied (code_of R.program) R.settings (state_of R.program R.settings self.old.journal) made }
    {
        let answer = self.history.enter(made);
        join(&mut self.waiting, made, answer);
        let row = worker_row(self.history.machine(), who.number());
        self.book.set(who, row);
        answer
    }

    /// Makes the Tick of g, whose body stands where it stands, on a worker. It tells what became of the sample.
    pub(crate) fn enter_tick(
        &mut self,
        program: &Program,
        who: &mut Share,
        g: u32,
        body: &Body,
    ) -> Wrote
        requires program { program.now ≡ R.program }
        requires book { who.old.book ≡ self.old.book }
        requires worker { who.old.number < R.settings.workers }
        requires may { May (code_of R.program) R.settings (state_of R.program R.settings self.old.journal) (entry.Tick who.old.number g) }
        requires stands { StandsIn R.program body.now }
        requires place { progress_of body.now ≡ standing (goroutine (state_of R.program R.settings self.old.journal) g) }
        ensures scene { let state = state_of R.program R.settings self.old.journal in
            self.new ≡ record self.old {
              journal = self.old.journal ++ entry.Tick who.old.number g ∷ [];
              ring = with_sample self.old.ring self.new.ring (sample_of (code_of R.program) state (goroutine state g));
            } }
        ensures share { who.new ≡ record who.old { row = worker_row R.program R.settings self.new.journal who.old.number } }
        ensures wrote { let state = state_of R.program R.settings self.old.journal in
            Tells self.old.ring self.new.ring (sample_of (code_of R.program) state (goroutine state g)) result }
    {
        let w = who.number();
        let clock = self.history.machine().clock();
        let wrote = offer_at(&mut self.ring, program, body, clock);
        self.history.enter(Entry::Tick { w, g });
        let row = worker_row(self.history.machine(), w);
        self.book.set(who, row);
        wrote
    }

    /// Makes the Op of g on a worker, where `point` is its next point and `event` what the Op leaves, with as many frames of
    /// g's stack as go with that. It tells what it did. Where there is no memory for the event all is as before.
    pub(crate) fn enter_op(
        &mut self,
        who: &mut Share,
        g: u32,
        point: SharedPoint,
        event: OpEvent,
        stack: Stack,
    ) -> Result<Operated, Memory>
        requires book { who.old.book ≡ self.old.book }
        requires worker { who.old.number < R.settings.workers }
        requires may { May (code_of R.program) R.settings (state_of R.program R.settings self.old.journal) (entry.Op who.old.number g) }
        requires point { IsPointOf (code_of R.program) (state_of R.program R.settings self.old.journal) g point }
        requires event { event ≡ event_of R.program R.settings self.old.journal g }
        requires stack { stack
            ≡ cut_stack (frames_of event) (code_of R.program) (goroutine (state_of R.program R.settings self.old.journal) g) }
        ensures scene { IfOk result (λ it. self.new ≡ record self.old {
          journal = self.old.journal ++ entry.Op who.old.number g ∷ [];
          waiting = self.old.waiting ++ joining (entry.Op who.old.number g) it.answer;
        }) }
        ensures share { OnOk result (who.new
            ≡ record who.old { row = worker_row R.program R.settings self.new.journal who.old.number }) }
        ensures answer { IfOk result (λ it. it.answer ≡ applied (code_of R.program) R.settings
            (state_of R.program R.settings self.old.journal) (entry.Op who.old.number g)) }
        ensures spare { IfOk result (λ it. IsSpare R.program it.answer it.spare) }
        ensures err { OnErr result ((self.new ≡ self.old) × (who.new ≡ who.old)) }
        ensures memory { OnErr result (AddsEvent event) }
    {
        let w = who.number();
        let answer = self.history.enter_op(w, g, point, event, stack)?;
        join(&mut self.waiting, Entry::Op { w, g }, answer);
        let spare = spare(&mut self.unborn, answer);
        let row = worker_row(self.history.machine(), w);
        self.book.set(who, row);
        Ok(Operated { answer, spare })
    }

    /// Records a goroutine, whose body is lent and whose row `copy` is: an entry of the profiler, or of a worker that runs
    /// nobody. What the actor has stays.
    pub fn enter_record(&mut self, who: &mut Share, body: &mut Body, copy: Record)
        requires book { who.old.book ≡ self.old.book }
        requires recorder { MayRecordAs R.settings.workers who.old.number who.old.row }
        requires may { May (code_of R.program) R.settings (state_of R.program R.settings self.old.journal)
            (entry.Record who.old.number copy.g) }
        requires copy { copy ≡ row (code_of R.program) copy.g (goroutine (state_of R.program R.settings self.old.journal) copy.g) }
        ensures scene { self.new ≡ record self.old { journal = self.old.journal ++ entry.Record who.old.number copy.g ∷ [] } }
        ensures share { who.new ≡ record who.old {
          row = row_of R.program R.settings self.new.journal who.old.number
              who.old.row.a who.old.row.b;
        } }
        ensures body { body.new ≡ body.old }
    {
        let actor = who.number();
        let was = who.row();
        let g = copy.g;
        self.history.record(actor, g, copy);
        let row = actor_with(
            self.history.machine(),
            self.numbers.workers,
            actor,
            was.a,
            was.b,
        );
        self.book.set(who, row);
    }

    /// Opens the profile that is asked for, where nobody runs and no more are live than the room allows: an entry of the
    /// profiler.
    pub fn enter_open(&mut self, who: &mut Share)
        requires book { who.old.book ≡ self.old.book }
        requires profiler { who.old.number ≡ R.settings.workers }
        requires may { let state = state_of R.program R.settings self.old.journal in
            May (code_of R.program) R.settings state (entry.Open (state.last_epoch + 1) R.settings.room) }
        ensures scene { let state = state_of R.program R.settings self.old.journal in
            self.new ≡ record self.old { journal = self.old.journal ++ entry.Open (state.last_epoch + 1) R.settings.room ∷ [] } }
        ensures share { who.new ≡ record who.old { row = profiler_row R.program R.settings self.new.journal } }
    {
        let epoch = self.history.machine().last_epoch() + 1;
        let live = self.history.machine().live();
        self.history.open(epoch, self.numbers.room);
        self.numbers.expected = live;
        let row = profiler_row(self.history.machine(), self.numbers.workers);
        self.book.set(who, row);
    }

    /// Refuses the profile that is asked for, where nobody runs and more are live than the room allows: an entry of the
    /// profiler.
    pub fn enter_refuse(&mut self, who: &mut Share)
        requires book { who.old.book ≡ self.old.book }
        requires profiler { who.old.number ≡ R.settings.workers }
        requires may { let state = state_of R.program R.settings self.old.journal in
            May (code_of R.program) R.settings state (entry.Refuse R.settings.room (live state)) }
        ensures scene { let state = state_of R.program R.settings self.old.journal in
            self.new ≡ record self.old { journal = self.old.journal ++ entry.Refuse R.settings.room (live state) ∷ [] } }
        ensures share { who.new ≡ record who.old { row = profiler_row R.program R.settings self.new.journal } }
    {
        let made = Entry::Refuse {
            room: self.numbers.room,
            n: self.history.machine().live(),
        };
        self.history.enter(made);
        let row = profiler_row(self.history.machine(), self.numbers.workers);
        self.book.set(who, row);
    }

    /// Closes the active profile, in which all are recorded: an entry of the profiler.
    pub fn enter_close(&mut self, who: &mut Share)
        requires book { who.old.book ≡ self.old.book }
        requires profiler { who.old.number ≡ R.settings.workers }
        requires may { let state = state_of R.program R.settings self.old.journal in
            May (code_of R.program) R.settings state (entry.Close state.active) }
        ensures scene { let state = state_of R.program R.settings self.old.journal in
            self.new ≡ record self.old { journal = self.old.journal ++ entry.Close state.active ∷ [] } }
        ensures share { who.new ≡ record who.old { row = profiler_row R.program R.settings self.new.journal } }
    {
        let epoch = self.history.machine().active();
        self.history.close(epoch);
        let row = profiler_row(self.history.machine(), self.numbers.workers);
        self.book.set(who, row);
    }

    /// Closes the ring of samples, once the run is complete. The profiler does so once.
    pub fn shut(&mut self, who: &mut Share)
        requires book { who.old.book ≡ self.old.book }
        requires profiler { who.old.number ≡ R.settings.workers }
        requires complete { IsComplete R.settings (state_of R.program R.settings self.old.journal) }
        requires unfinished { who.old.row.a < has_finished }
        ensures scene { self.new ≡ record self.old { ring = shut_of self.old.ring } }
        ensures share { who.new ≡ record who.old { row = finished_row R.program R.settings self.old.journal } }
    {
        self.book.check(who);
        self.ring = shut(mem::replace(&mut self.ring, RingEnd::Settled));
        let row = finished_row(self.history.machine(), self.numbers.workers);
        self.book.set(who, row);
    }

    /// Lets the reader, which is of this ring and has found its end, take in the world's end of it, once the profiler has finished.
    /// Afterwards it is known that the records which the reader took cover the samples of the journal, and begin with their head. It
    /// comes once.
    pub fn settle(&mut self, who: &mut Share, reader: &mut Reader)
        requires book { who.old.book ≡ self.old.book }
        requires profiler { who.old.number ≡ R.settings.workers }
        requires finished { who.old.row.a ≡ has_finished }
        requires ring { IsOf self.old.ring reader.old.ring }
        requires end { reader.old.hand ≡ End }
        ensures scene { self.new ≡ record self.old { ring = Settled } }
        ensures share { who.new ≡ record who.old { row = settled_row R.program R.settings self.old.journal } }
        ensures reader { reader.new ≡ record reader.old { end_loads = reader.old.end_loads + 1; end = 1; looked = false } }
        ensures covered { Covers reader.new.taken (samples_of_journal (code_of R.program) R.settings self.new.journal) }
        ensures head { BeginWithHead R.program R.settings self.new.journal reader.new.taken }
    {
        self.book.check(who);
        reader.settle(closed_in(mem::replace(&mut self.ring, RingEnd::Settled)));
        let row = settled_row(self.history.machine(), self.numbers.workers);
        self.book.set(who, row);
    }

    /// The actor's row has the entries that it made by the journal, and the instructions that it ran; a profiler that has finished
    /// has left a complete run. Nothing changes.
    pub fn check_actor(&mut self, who: &mut Share)
        requires book { who.old.book ≡ self.old.book }
        ensures scene { self.new ≡ self.old }
        ensures share { who.new ≡ who.old }
        ensures actor { who.old.number < R.settings.workers + 1 }
        ensures row { who.old.row ≡ row_of R.program R.settings self.old.journal who.old.number who.old.row.a who.old.row.b }
        ensures made { who.old.row.c ≡ made_by R.settings who.old.number self.old.journal }
        ensures done { who.old.row.d ≡ (worker (state_of R.program R.settings self.old.journal) who.old.number).instructions }
        ensures runs { who.old.number < R.settings.workers
            → (worker (state_of R.program R.settings self.old.journal) who.old.number).runs ≡ on_of who.old.row }
        ensures complete { who.old.number ≡ R.settings.workers → has_finished ≤ who.old.row.a
            → IsComplete R.settings (state_of R.program R.settings self.old.journal) }
    {
        self.book.check(who);
    }

    /// The goroutine that a worker has picked or runs, which is live. Nothing changes.
    pub fn whom(&mut self, who: &mut Share) -> u32
        requires book { who.old.book ≡ self.old.book }
        requires worker { who.old.number < R.settings.workers }
        requires one { (who.old.row.a ≡ has_picked) ⊎ (who.old.row.a ≡ runs_one) }
        ensures scene { self.new ≡ self.old }
        ensures share { who.new ≡ who.old }
        ensures g { result ≡ who.old.row.b }
        ensures live { is_live (goroutine (state_of R.program R.settings self.old.journal) result) ≡ true }
    {
        self.book.check(who);
        who.row().b as u32
    }
}
