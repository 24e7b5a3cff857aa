//! The reader reads while somebody else has the lock.
ghost use Rattle.std.specs.Prelude.{◌≡◌};
ghost use Rattle.gp_journal.specs.Settings.{AreInRange};
ghost use Rattle.gp_samples.specs.RunEnds.{IsBegunReader};
ghost use Rattle.gp_world.specs.Rows.{shares_of};
ghost use Rattle.gp_workers.specs.Beginning.{IsBegun};

use crate::runs::{program_in, settings_of};
use gp_cases::{Page, Unanswered};
use gp_isa::Program;
use gp_machine::{Run, Settings};
use gp_workers::{Actor, Gate, Naming, Place, Shared, Turn};
use gp_world::{Made, World};
use std::alloc::Global;
use std::marker::Brand;
use std::sync::Wait;
use std::sync::atomic::{AtomicU64, Ordering};

// With one worker and a tick after each round: these are Start, Run, Tick, Park, Start, Run and Tick.
const TURNS: u32 = 7;

// Tells how many records the reader had taken as it read last.
#[derive(Drop)]
struct Seen {
    records: AtomicU64,
}

impl Gate for Seen {
    fn pass(&self, place: Place) {
        if let Place::ReadOnce { records } = place {
            self.records.store(records, Ordering::SeqCst);
        }
    }
}

fn turns<K: Naming, R: Run, T: Wait>(
    rt: &T,
    alloc: Global,
    shared: &Shared<K, R>,
    program: &Program,
    seen: &Seen,
    actor: &mut Actor<K, R>,
)
    requires { program.now ≡ R.program }
{
    for _ in 0..TURNS {
        let _ = actor.turn(rt, alloc, shared, program, seen);
    }
}

fn tell(page: &mut Page, turn: Turn, seen: &Seen) -> Result<(), Unanswered> {
    page.debug(" ", &turn)?;
    page.number(" ", seen.records.load(Ordering::SeqCst))?;
    Ok(())
}

// A worker has some turns; then, while the lock is held, the reader has two. A reader that takes the lock never comes back.
fn read_named<K: Naming, R: Run, T: Wait>(
    rt: &T,
    alloc: Global,
    program: &Program,
    settings: &Settings,
    made: Made<R>,
) -> Result<Page, Unanswered>
    requires program { program.now ≡ R.program }
    requires settings { settings.now ≡ R.settings }
    requires range { AreInRange settings.now }
    requires made { IsBegun K.book K.ring made.world }
    requires shares { made.shares.items ≡ shares_of K.book R.settings.workers }
    requires reader { IsBegunReader R.program R.settings made.reader }
    requires ring { made.reader.ring ≡ K.ring }
{
    let mut page = Page::new(alloc);
    let seen = Seen {
        records: AtomicU64::new(0),
    };
    let (shared, actors) = Shared::<K, R>::new(alloc, program, settings, made)?;
    let mut actors = actors;
    let last = actors.len() - 1;
    turns(rt, alloc, &shared, program, &seen, &mut actors[0]);
    let held = shared.world.lock(rt);
    let first = actors[last].turn(rt, alloc, &shared, program, &seen);
    tell(&mut page, first, &seen)?;
    let second = actors[last].turn(rt, alloc, &shared, program, &seen);
    tell(&mut page, second, &seen)?;
    drop(held);
    Ok(page)
}

fn read_beside<R: Run, T: Wait>(
    rt: &T,
    alloc: Global,
    program: &Program,
    settings: &Settings,
) -> Result<Page, Unanswered>
    requires program { program.now ≡ R.program }
    requires settings { settings.now ≡ R.settings }
    requires range { AreInRange settings.now }
{
    let made = World::<R>::new(alloc, program, settings)?;
    read_named::<Brand, R, T>(rt, alloc, program, settings, made)
}

/// What two turns of the reader come to, of which the first finds the rate record and two samples, while the lock is held.
pub fn beside<T: Wait>(rt: &T, alloc: Global, line: &str, file: &str) -> Result<Page, Unanswered> {
    let program = program_in(alloc, file)?;
    let settings = settings_of(alloc, line)?;
    read_beside::<Brand, T>(rt, alloc, &program, &settings)
}
