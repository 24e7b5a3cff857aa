ghost use Rattle.std.specs.Prelude.{◌≡◌, ◌<◌, ◌≤◌, ◌++◌, ◌∷◌, [], true, IfOk, IsSome};
ghost use Rattle.std.specs.Bool.{OnTrue, OnFalse};
ghost use Rattle.gp_journal.specs.Settings.{AreInRange};
ghost use Rattle.gp_journal.specs.State.{code_of, goroutine, worker, is_live, live, running, births};
ghost use Rattle.gp_journal.specs.Due as definition;
ghost use Rattle.gp_journal.specs.Due.{IsComplete};
ghost use Rattle.gp_journal.specs.May.{May};
ghost use Rattle.gp_journal.specs.Run.{IsLegal, state_of};
ghost use Rattle.gp_journal.specs.Answer.{applied};
ghost use Rattle.gp_journal.specs.Standing.{head_of, first_behind};
ghost use Rattle.gp_machine.specs.AtPoint.{at_point};
ghost use Rattle.gp_machine.specs.OnWorker.{busy, IsBusyAt, IsPeekOn, IsDueOn, OpIsDueOn, IsNextOn, IsForeseenOn};
ghost use Rattle.gp_journal.specs.Shown.{IsGiven};
ghost use Rattle.gp_journal.specs.Actors.{actor_of, made_by};
ghost use Rattle.gp_journal.specs.NumberLaws.{most_entries};

use crate::at_point::AtPoint;
use crate::present::Present;
use gp_isa::limits::REQUESTS;
use gp_isa::{Memory, Program, Sequence};
use gp_journal::{Applied, Ended, Entry, Foreseen, Goroutine, Journal, Run, Settings, SharedPoint};
use gp_stack::{Operation, Peek};
use std::alloc::Global;
use std::marker::Model;

/// A machine that runs the program of a run with its options.
///
/// Its value is the journal, which is legal, and what it tells is of the state after all entries. It keeps that state
/// in place: to make an entry, and each question, takes constant time, however many goroutines there are. All memory
/// is taken by `new`.
#[derive(Debug, Drop)]
pub struct Machine<R: Run> {
    journal: Vec<Entry>,
    // by actor: how many entries it made
    made: Vec<u64>,
    present: Present<R>,
}

impl<R: Run> Model for Machine<R> {
    ghost use Rattle.std.specs.Prelude.{List};
    ghost use Rattle.std.specs.Vec.{vec_capacity};
    ghost use Rattle.gp_journal.specs.declared.entry.Entry.{Entry};
    ghost use Rattle.gp_journal.specs.State.{code_of};
    ghost use Rattle.gp_machine.specs.kept.Made.{Keeps};

    ghost Value = { List Entry };

    ghost view = { λ m. m.journal.items };

    ghost invariant = { λ m. Keeps (code_of R.program) R.settings (vec_capacity m.journal) m.journal.items m.made.items m.present };
}

/// The most entries of a journal: those up to which it isn't full, and what may come after, so that every profile
/// asked for is taken.
fn most_entries(settings: &Settings) -> usize
    requires { AreInRange settings.now }
    ensures { result ≡ most_entries settings.now }
{
    let full = settings.entries as usize;
    let cells = settings.cells as usize;
    full + REQUESTS * (cells + 2) + 2 * settings.workers as usize + 2
}

// The number of the actor that makes an entry, the profiler's being the number of workers.
fn actor_of(profiler: u32, made: Entry) -> u32
    ensures { result ≡ actor_of profiler made }
{
    match made {
        Entry::Start { w, .. } => w,
        Entry::Run { w, .. } => w,
        Entry::Op { w, .. } => w,
        Entry::Tick { w, .. } => w,
        Entry::Park { w, .. } => w,
        Entry::Open { .. } => profiler,
        Entry::Refuse { .. } => profiler,
        Entry::Record { actor, .. } => actor,
        Entry::Close { .. } => profiler,
    }
}

impl<R: Run> Machine<R> {
    /// A machine as its run begins: `main` is born, and no entry was made. It reserves all memory that its run needs.
    pub fn new(alloc: Global, program: &Program, settings: &Settings) -> Result<Machine<R>, Memory>
        requires program { program.now ≡ R.program }
        requires settings { settings.now ≡ R.settings }
        requires range { AreInRange settings.now }
        ensures { IfOk result (λ machine. machine ≡ []) }
    {
        let actors = settings.workers as usize + 1;
        Ok(Machine {
            journal: Vec::with_capacity(alloc, most_entries(settings))?,
            made: vec![in alloc; 0; actors]?,
            present: Present::new(alloc, program, settings)?,
        })
    }

    /// Makes an entry, which has to be legal. With an `Op` comes its goroutine's next point. The answer tells what the
    /// entry did.
    pub fn apply(&mut self, made: Entry, point: Option<SharedPoint>) -> Applied
        requires legal { May (code_of R.program) R.settings (state_of R.program R.settings self.old) made }
        requires point { IsGiven (code_of R.program) (state_of R.program R.settings self.old) made point }
        ensures journal { self.new ≡ self.old ++ made ∷ [] }
        ensures answer { result ≡ applied (code_of R.program) R.settings (state_of R.program R.settings self.old) made }
    {
        let profiler = self.made.len() as u32 - 1;
        let answer = self.present.apply(made, point);
        self.made[actor_of(profiler, made) as usize] += 1;
        match self.journal.push(made) {
            Ok(()) => {}
            Err(_) => unreachable!(),
        }
        answer
    }

    /// Makes an entry as `apply` does, and tells of what it did only what became of a goroutine that came to a shared
    /// point.
    pub fn make(&mut self, made: Entry, point: Option<SharedPoint>) -> AtPoint
        requires legal { May (code_of R.program) R.settings (state_of R.program R.settings self.old) made }
        requires point { IsGiven (code_of R.program) (state_of R.program R.settings self.old) made point }
        ensures journal { self.new ≡ self.old ++ made ∷ [] }
        ensures at_point { result ≡ at_point (applied (code_of R.program) R.settings (state_of R.program R.settings self.old) made) }
    {
        AtPoint::of(self.apply(made, point))
    }

    /// The entry that is due on worker `w`, which runs a goroutine. `peek` is the look ahead of its body, up to 1,000
    /// points.
    pub fn due(&self, w: u32, peek: &Peek) -> Entry
        requires runs { IsSome (worker (state_of R.program R.settings self.now) w).runs }
        requires peek { IsPeekOn R.program R.settings self.now w peek.now }
        ensures { IsDueOn R.program R.settings self.now w result }
    {
        match self.present.worker(w).runs {
            Some(g) => self.present.due(w, g, peek),
            None => unreachable!(),
        }
    }

    /// What the Op that is due on worker `w` will tell, before it is made. `operation` is what its goroutine's next
    /// point does.
    pub fn foresee(&self, w: u32, operation: Operation) -> Foreseen
        requires runs { IsSome (worker (state_of R.program R.settings self.now) w).runs }
        requires due { OpIsDueOn R.program R.settings self.now w }
        requires operation { IsNextOn R.program R.settings self.now w operation }
        ensures { IsForeseenOn R.program R.settings self.now w result }
    {
        match self.present.worker(w).runs {
            Some(g) => self.present.foresees(g, operation),
            None => unreachable!(),
        }
    }

    /// The runnable goroutine that has waited longest, if there is one.
    pub fn head(&self) -> Option<u32>
        ensures { result ≡ head_of (state_of R.program R.settings self.now).queue }
    {
        self.present.head()
    }

    /// Whether a profile is asked for.
    pub fn asked(&self) -> bool
        ensures { result ≡ definition.asked R.settings (state_of R.program R.settings self.now) }
    {
        self.present.asked()
    }

    /// Whether the run is over.
    pub fn over(&self) -> bool
        ensures { result ≡ definition.over R.settings (state_of R.program R.settings self.now) }
    {
        self.present.over()
    }

    /// Whether the run is complete.
    pub fn complete(&self) -> bool
        ensures complete { OnTrue result (IsComplete R.settings (state_of R.program R.settings self.now)) }
        ensures more { OnFalse result (IsComplete R.settings (state_of R.program R.settings self.now) → ⊥) }
    {
        self.present.complete()
    }

    /// How many goroutines run.
    pub fn running(&self) -> u32
        ensures { result ≡ running (state_of R.program R.settings self.now) }
    {
        self.present.running()
    }

    /// How many goroutines are live.
    pub fn live(&self) -> u32
        ensures { result ≡ live (state_of R.program R.settings self.now) }
    {
        self.present.live()
    }

    /// How the run ended, which is complete.
    pub fn ended(&self) -> Ended
        requires { IsComplete R.settings (state_of R.program R.settings self.now) }
        ensures { result ≡ definition.ended (state_of R.program R.settings self.now) }
    {
        self.present.ended()
    }

    /// The entries so far, in their order.
    pub fn journal(&self) -> &[Entry]
        ensures journal { result.now ≡ self.now }
        ensures legal { IsLegal (code_of R.program) R.settings self.now }
    {
        self.journal.as_slice()
    }

    /// The entries, in their order. It takes no memory.
    pub fn into_journal(self) -> Journal
        ensures journal { result ≡ self }
        ensures legal { IsLegal (code_of R.program) R.settings self }
    {
        let Machine { journal, .. } = self;
        Sequence::from_vec(journal)
    }

    /// The clock, in instructions.
    pub fn clock(&self) -> u64
        ensures { result ≡ (state_of R.program R.settings self.now).clock }
    {
        self.present.clock()
    }

    /// How many goroutines were born.
    pub fn births(&self) -> u32
        ensures { result ≡ births (state_of R.program R.settings self.now) }
    {
        self.present.births()
    }

    /// The epoch of the active profile, or 0.
    pub fn active(&self) -> u32
        ensures { result ≡ (state_of R.program R.settings self.now).active }
    {
        self.present.active()
    }

    /// The last epoch given.
    pub fn last_epoch(&self) -> u32
        ensures { result ≡ (state_of R.program R.settings self.now).last_epoch }
    {
        self.present.last_epoch()
    }

    /// The epoch of a live goroutine: the last profile in which it was recorded or born.
    pub fn epoch(&self, g: u32) -> u32
        requires { is_live (goroutine (state_of R.program R.settings self.now) g) ≡ true }
        ensures { result ≡ (goroutine (state_of R.program R.settings self.now) g).epoch }
    {
        self.present.goroutine(g).epoch
    }

    /// Goroutine `g`, as it stands.
    pub fn goroutine(&self, g: u32) -> Goroutine
        ensures { result ≡ goroutine (state_of R.program R.settings self.now) g }
    {
        self.present.goroutine(g)
    }

    /// The goroutine that worker `w` runs, if any.
    pub fn runs(&self, w: u32) -> Option<u32>
        requires { w < R.settings.workers }
        ensures { result ≡ (worker (state_of R.program R.settings self.now) w).runs }
    {
        self.present.worker(w).runs
    }

    /// How many workers run a goroutine.
    pub fn busy(&self) -> u32
        ensures { result ≡ busy (state_of R.program R.settings self.now) }
    {
        self.present.busy()
    }

    /// The worker at a place, counted from 0, among those that run a goroutine.
    pub fn busy_at(&self, place: u32) -> u32
        requires { place < busy (state_of R.program R.settings self.now) }
        ensures { IsBusyAt (state_of R.program R.settings self.now) place result }
    {
        self.present.busy_at(place)
    }

    /// The first goroutine that has still to be recorded in the active profile.
    pub fn unrecorded(&self) -> Option<u32>
        ensures { let now = state_of R.program R.settings self.now in result ≡ first_behind now.active now.goroutines }
    {
        self.present.unrecorded()
    }

    /// How many instructions worker `w` has run.
    pub fn done(&self, w: u32) -> u64
        requires { w < R.settings.workers }
        ensures { result ≡ (worker (state_of R.program R.settings self.now) w).instructions }
    {
        self.present.worker(w).instructions
    }

    /// How many entries an actor made: a worker, or the profiler, whose number is that of the workers.
    pub fn made(&self, actor: u32) -> u64
        requires { actor ≤ R.settings.workers }
        ensures { result ≡ made_by R.settings actor self.now }
    {
        self.made[actor as usize]
    }
}
