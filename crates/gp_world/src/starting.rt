//! A worker starts whom it has picked.
ghost use Rattle.std.specs.Prelude.{◌≡◌, ◌<◌, ◌++◌, ◌∷◌, [], true, false, Some, IfSome};
ghost use Rattle.gp_journal.specs.declared.entry.Entry.TheVariants as entry;
ghost use Rattle.gp_journal.specs.Frozen.{row};
ghost use Rattle.gp_journal.specs.May as condition;
ghost use Rattle.gp_journal.specs.Run.{state_of};
ghost use Rattle.gp_journal.specs.State.{code_of, goroutine, is_live};
ghost use Rattle.gp_world.specs.declared.begun.Begun.TheVariants as begun;
ghost use Rattle.gp_world.specs.kept.Workers.{HasPicked};
ghost use Rattle.gp_world.specs.Calls.{may_not_start, begun_of, begun_with, start_entries, entries_with, waiting_after_start, row_after_start};
ghost use Rattle.gp_world.specs.Rows.{row_of, has_picked, runs_one};

use crate::begun::Begun;
use crate::world::World;
use gp_machine::{Entry, Machine, Run};
use gp_stack::{Body, Record};
use gp_tally::Share;

// Whether a goroutine has the active profile's epoch, where there is one.
fn is_recorded<R: Run>(machine: &Machine<R>, g: u32) -> bool
    requires { is_live (goroutine (state_of R.program R.settings machine.now) g) ≡ true }
    ensures { result ≡ condition.is_recorded (state_of R.program R.settings machine.now) g }
{
    let active = machine.active();
    active == 0 || machine.epoch(g) == active
}

impl<R: Run> World<R> {
    // Whom a worker has picked.
    fn picked_by(&mut self, who: &mut Share) -> u32
        requires book { who.old.book ≡ self.old.book }
        requires worker { who.old.number < R.settings.workers }
        requires picked { who.old.row.a ≡ has_picked }
        ensures scene { self.new ≡ self.old }
        ensures share { who.new ≡ who.old }
        ensures g { result ≡ who.old.row.b }
        ensures picked { HasPicked R.program R.settings self.old.journal who.old.number who.old.row result }
    {
        self.book.check(who);
        who.row().b as u32
    }

    // Starts g, which a worker has picked and which may be started.
    fn begin(&mut self, who: &mut Share, g: u32) -> Begun
        requires book { who.old.book ≡ self.old.book }
        requires worker { who.old.number < R.settings.workers }
        requires picked { HasPicked R.program R.settings self.old.journal who.old.number who.old.row g }
        requires may { may_not_start R.settings (state_of R.program R.settings self.old.journal) ≡ false }
        requires recorded { condition.is_recorded (state_of R.program R.settings self.old.journal) g ≡ true }
        ensures answer { result ≡ begun.Started (goroutine (state_of R.program R.settings self.old.journal) g).epoch }
        ensures scene { self.new ≡ record self.old { journal = self.old.journal ++ entry.Start who.old.number g ∷ [] } }
        ensures share { who.new ≡ record who.old { row = row_of R.program R.settings self.new.journal who.old.number runs_one g } }
    {
        let epoch = self.history.machine().epoch(g);
        let made = Entry::Start { w: who.number(), g };
        self.enter(who, made);
        Begun::Started { epoch }
    }

    // Records g, which a worker has picked and which has still to be recorded, and starts it where the run isn't over then.
    fn record_and_begin(&mut self, who: &mut Share, g: u32, body: &mut Body, copy: Record) -> Begun
        requires book { who.old.book ≡ self.old.book }
        requires worker { who.old.number < R.settings.workers }
        requires picked { HasPicked R.program R.settings self.old.journal who.old.number who.old.row g }
        requires may { may_not_start R.settings (state_of R.program R.settings self.old.journal) ≡ false }
        requires unrecorded { condition.is_recorded (state_of R.program R.settings self.old.journal) g ≡ false }
        requires copy { copy ≡ row (code_of R.program) g (goroutine (state_of R.program R.settings self.old.journal) g) }
        ensures answer { result ≡ begun_with (code_of R.program) R.settings (state_of R.program R.settings self.old.journal)
            who.old.number g (Some copy) }
        ensures scene { self.new ≡ record self.old {
          journal = self.old.journal ++ entries_with (code_of R.program) R.settings
              (state_of R.program R.settings self.old.journal) who.old.number g (Some copy);
          waiting = waiting_after_start result g self.old.waiting;
        } }
        ensures share { who.new ≡ record who.old { row = row_after_start R.program R.settings self.new.journal who.old.number g result } }
        ensures body { body.new ≡ body.old }
    {
        let epoch = self.history.machine().active();
        self.enter_record(who, body, copy);
        if self.over() {
            self.put_back(who, g);
            return Begun::NotNow { copy: None, epoch };
        }
        self.begin(who, g)
    }

    // Starts g, which a worker has picked.
    fn start_picked(
        &mut self,
        who: &mut Share,
        g: u32,
        body: &mut Body,
        copy: Option<Record>,
    ) -> Begun
        requires book { who.old.book ≡ self.old.book }
        requires worker { who.old.number < R.settings.workers }
        requires picked { HasPicked R.program R.settings self.old.journal who.old.number who.old.row g }
        requires copy { IfSome copy (λ it. it
            ≡ row (code_of R.program) g (goroutine (state_of R.program R.settings self.old.journal) g)) }
        ensures answer { result ≡ begun_of (code_of R.program) R.settings (state_of R.program R.settings self.old.journal)
            who.old.number g copy }
        ensures scene { self.new ≡ record self.old {
          journal = self.old.journal ++ start_entries (code_of R.program) R.settings
              (state_of R.program R.settings self.old.journal) who.old.number g copy;
          waiting = waiting_after_start result g self.old.waiting;
        } }
        ensures share { who.new ≡ record who.old { row = row_after_start R.program R.settings self.new.journal who.old.number g result } }
        ensures body { body.new ≡ body.old }
    {
        if self.asked() || self.over() {
            let epoch = self.history.machine().epoch(g);
            self.put_back(who, g);
            return Begun::NotNow { copy, epoch };
        }
        if is_recorded(self.history.machine(), g) {
            return self.begin(who, g);
        }
        match copy {
            Some(copy) => self.record_and_begin(who, g, body, copy),
            None => Begun::NeedCopy {
                epoch: self.history.machine().active(),
            },
        }
    }

    /// Starts the goroutine that a worker has picked, whose body is lent, and records it first where it has still to be recorded in
    /// the active profile: for that `copy` is its row. The tests come in this order.
    ///
    /// 1. A profile is asked for, or the run is over: nothing is entered, and the copy comes back.
    /// 2. It has still to be recorded, and no copy came: nothing is entered.
    /// 3. It has still to be recorded: the copy is entered. Where that makes the journal full, so that the run is over, it isn't
    ///    started.
    /// 4. It is started. A copy that wasn't needed is dropped.
    pub fn start(&mut self, who: &mut Share, body: &mut Body, copy: Option<Record>) -> Begun
        requires book { who.old.book ≡ self.old.book }
        requires worker { who.old.number < R.settings.workers }
        requires picked { who.old.row.a ≡ has_picked }
        requires copy { IfSome copy (λ it. it
            ≡ row (code_of R.program) who.old.row.b (goroutine (state_of R.program R.settings self.old.journal) who.old.row.b)) }
        ensures answer { result ≡ begun_of (code_of R.program) R.settings (state_of R.program R.settings self.old.journal)
            who.old.number who.old.row.b copy }
        ensures scene { self.new ≡ record self.old {
          journal = self.old.journal ++ start_entries (code_of R.program) R.settings
              (state_of R.program R.settings self.old.journal) who.old.number who.old.row.b copy;
          waiting = waiting_after_start result who.old.row.b self.old.waiting;
        } }
        ensures share { who.new ≡ record who.old {
          row = row_after_start R.program R.settings self.new.journal who.old.number who.old.row.b result;
        } }
        ensures body { body.new ≡ body.old }
    {
        let g = self.picked_by(who);
        self.start_picked(who, g, body, copy)
    }
}
