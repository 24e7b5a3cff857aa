//! The active profile is closed, and the profiler finishes.
ghost use Rattle.std.specs.Prelude.{◌≡◌, ◌<◌};
ghost use Rattle.gp_journal.specs.Due.{IsComplete};
ghost use Rattle.gp_journal.specs.Run.{state_of};
ghost use Rattle.gp_journal.specs.State.{code_of};
ghost use Rattle.gp_world.specs.RingEnds.{shut_of};
ghost use Rattle.gp_world.specs.Rows.{profiler_row, finished_row, has_finished};
ghost use Rattle.gp_profiler.specs.Calls.{with_entry, share_with, closing_of, closing_entry};

use crate::answers::Closing;
use gp_machine::Run;
use gp_tally::Share;
use gp_world::World;

/// Closes the active profile. `Missing`: exactly where fewer records were made since its Open than goroutines were live there;
/// nothing changes.
pub fn close_profile<R: Run>(world: &mut World<R>, who: &mut Share) -> Closing
    requires book { who.old.book ≡ world.old.book }
    requires profiler { who.old.number ≡ R.settings.workers }
    requires active { 0 < (state_of R.program R.settings world.old.journal).active }
    ensures answer { result ≡ closing_of (code_of R.program) R.settings world.old.journal }
    ensures scene { world.new ≡ with_entry world.old (closing_entry result) }
    ensures share { who.new ≡ share_with who.old (closing_entry result) (profiler_row R.program R.settings world.new.journal) }
{
    let epoch = world.machine().active();
    let n = world.expected();
    let have = world.records(epoch).len() as u32;
    if have < n {
        return Closing::Missing { have, n };
    }
    world.enter_close(who);
    Closing::Closed { epoch }
}

/// Closes the ring of samples of a complete run. The profiler does so once.
pub fn finish<R: Run>(world: &mut World<R>, who: &mut Share)
    requires book { who.old.book ≡ world.old.book }
    requires profiler { who.old.number ≡ R.settings.workers }
    requires complete { IsComplete R.settings (state_of R.program R.settings world.old.journal) }
    requires unfinished { who.old.row.a < has_finished }
    ensures scene { world.new ≡ record world.old { ring = shut_of world.old.ring } }
    ensures share { who.new ≡ record who.old { row = finished_row R.program R.settings world.old.journal } }
{
    world.shut(who);
}
