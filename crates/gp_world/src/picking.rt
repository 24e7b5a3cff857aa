//! A worker is given whom it may start next, and gives back whom it can't.
ghost use Rattle.std.specs.Prelude.{◌≡◌, ◌<◌, ◌∷◌, drop, Some};
ghost use Rattle.gp_journal.specs.Run.{state_of};
ghost use Rattle.gp_journal.specs.Standing.{head_of};
ghost use Rattle.gp_world.specs.declared.pick.Pick.TheVariants as pick;
ghost use Rattle.gp_world.specs.Calls.{pick_of, waiting_after_pick, row_after_pick};
ghost use Rattle.gp_world.specs.Rows.{row_of, has_nothing, has_picked};

use crate::actor_rows::{DONE, NOTHING, PICKED, worker_with};
use crate::pick::Pick;
use crate::world::World;
use gp_machine::Run;
use gp_tally::Share;

impl<R: Run> World<R> {
    /// Gives a worker that has nothing the goroutine that has waited longest. `Over`: exactly where the run is over, and then
    /// the worker is done. `Idle`: exactly where it isn't, and a profile is asked for or nobody waits; nothing changes.
    pub fn pick(&mut self, who: &mut Share) -> Pick
        requires book { who.old.book ≡ self.old.book }
        requires worker { who.old.number < R.settings.workers }
        requires nothing { who.old.row.a ≡ has_nothing }
        ensures answer { result ≡ pick_of R.settings (state_of R.program R.settings self.old.journal) self.old.waiting }
        ensures scene { self.new ≡ record self.old { waiting = waiting_after_pick result self.old.waiting } }
        ensures share { who.new ≡ record who.old {
          row = row_after_pick R.program R.settings self.old.journal who.old.number who.old.row result;
        } }
    {
        if self.over() {
            let row = worker_with(self.history.machine(), who.number(), DONE, 0);
            self.book.set(who, row);
            return Pick::Over;
        }
        if self.asked() {
            return Pick::Idle;
        }
        match self.waiting.head() {
            Some(g) => self.take(who, g),
            None => Pick::Idle,
        }
    }

    // The first of those that wait is a worker's.
    fn take(&mut self, who: &mut Share, g: u32) -> Pick
        requires book { who.old.book ≡ self.old.book }
        requires worker { who.old.number < R.settings.workers }
        requires nothing { who.old.row.a ≡ has_nothing }
        requires head { head_of self.old.waiting ≡ Some g }
        ensures answer { result ≡ pick.Go g (state_of R.program R.settings self.old.journal).active }
        ensures scene { self.new ≡ record self.old { waiting = drop 1 self.old.waiting } }
        ensures share { who.new ≡ record who.old { row = row_of R.program R.settings self.old.journal who.old.number has_picked g } }
    {
        let row = worker_with(self.history.machine(), who.number(), PICKED, u64::from(g));
        self.waiting.remove(g);
        self.book.set(who, row);
        Pick::Go {
            g,
            epoch: self.history.machine().active(),
        }
    }

    // Lets whom a worker has picked wait again, before all others.
    pub(crate) fn put_back(&mut self, who: &mut Share, g: u32)
        requires book { who.old.book ≡ self.old.book }
        requires worker { who.old.number < R.settings.workers }
        requires picked { who.old.row.a ≡ has_picked }
        requires g { who.old.row.b ≡ g }
        ensures scene { self.new ≡ record self.old { waiting = g ∷ self.old.waiting } }
        ensures share { who.new ≡ record who.old { row = row_of R.program R.settings self.old.journal who.old.number has_nothing 0 } }
    {
        let row = worker_with(self.history.machine(), who.number(), NOTHING, 0);
        self.book.set(who, row);
        self.waiting.push_front(g);
    }
}
