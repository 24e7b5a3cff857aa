//! One goroutine is recorded.
ghost use Rattle.std.specs.Prelude.{◌≡◌, true};
ghost use Rattle.gp_journal.specs.Frozen.{row};
ghost use Rattle.gp_journal.specs.Run.{state_of};
ghost use Rattle.gp_journal.specs.State.{code_of, goroutine, is_live};
ghost use Rattle.gp_world.specs.Rows.{row_of, MayRecordAs};
ghost use Rattle.gp_profiler.specs.Calls.{with_entry, share_with, recording_of, recording_entry};

use crate::answers::Recording;
use gp_machine::Run;
use gp_stack::{Body, Record};
use gp_tally::Share;
use gp_world::World;

/// Records a live goroutine in the active profile, whose body is lent and whose row `copy` is, as the profiler or a worker that
/// runs nobody. `Already`: exactly where no profile is active or the goroutine's epoch is the active one; nothing changes.
pub fn record_one<R: Run>(
    world: &mut World<R>,
    who: &mut Share,
    body: &mut Body,
    copy: Record,
) -> Recording
    requires book { who.old.book ≡ world.old.book }
    requires recorder { MayRecordAs R.settings.workers who.old.number who.old.row }
    requires live { is_live (goroutine (state_of R.program R.settings world.old.journal) copy.g) ≡ true }
    requires copy { copy
        ≡ row (code_of R.program) copy.g (goroutine (state_of R.program R.settings world.old.journal) copy.g) }
    ensures answer { result ≡ recording_of (state_of R.program R.settings world.old.journal) copy.g }
    ensures scene { world.new ≡ with_entry world.old (recording_entry who.old.number copy.g result) }
    ensures share { who.new
        ≡ share_with who.old (recording_entry who.old.number copy.g result)
        (row_of R.program R.settings world.new.journal who.old.number who.old.row.a who.old.row.b) }
    ensures body { body.new ≡ body.old }
{
    let active = world.machine().active();
    let epoch = world.machine().epoch(copy.g);
    if active == 0 || epoch == active {
        return Recording::Already { epoch };
    }
    world.check_actor(who);
    world.enter_record(who, body, copy);
    Recording::Recorded
}
