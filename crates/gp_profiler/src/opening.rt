//! A profile that is asked for is opened or refused.
ghost use Rattle.std.specs.Prelude.{◌≡◌, true};
ghost use Rattle.gp_journal.specs.Due.{asked};
ghost use Rattle.gp_journal.specs.Run.{state_of};
ghost use Rattle.gp_world.specs.Rows.{profiler_row};
ghost use Rattle.gp_profiler.specs.Calls.{with_entry, share_with, opening_of, opening_entry};

use crate::answers::Opening;
use gp_machine::Run;
use gp_tally::Share;
use gp_world::World;

/// Opens the profile that is asked for, or refuses it. `NotStopped`: exactly where somebody runs; nothing changes. `TooSmall`:
/// exactly where nobody runs and more are live than the room allows, which is that of the options.
pub fn open_profile<R: Run>(world: &mut World<R>, who: &mut Share, room: u32) -> Opening
    requires book { who.old.book ≡ world.old.book }
    requires profiler { who.old.number ≡ R.settings.workers }
    requires asked { asked R.settings (state_of R.program R.settings world.old.journal) ≡ true }
    requires room { room ≡ R.settings.room }
    ensures answer { result ≡ opening_of R.settings (state_of R.program R.settings world.old.journal) }
    ensures scene { world.new ≡ with_entry world.old (opening_entry R.settings result) }
    ensures share { who.new
        ≡ share_with who.old (opening_entry R.settings result) (profiler_row R.program R.settings world.new.journal) }
{
    let running = world.running();
    if running > 0 {
        return Opening::NotStopped { running };
    }
    let n = world.live();
    if n > room {
        world.enter_refuse(who);
        return Opening::TooSmall { n, room };
    }
    world.enter_open(who);
    Opening::Opened {
        epoch: world.machine().last_epoch(),
        n,
    }
}
