ghost use Rattle.std.specs.Prelude.{◌≡◌, ◌<◌, ◌^◌, Some, None};
ghost use Rattle.gp_sync.specs.Places.{places_of};
ghost use Rattle.gp_stack.specs.Peek.{operation_of};
ghost use Rattle.gp_journal.specs.Standing.{times};
ghost use Rattle.gp_journal.specs.State.{code_of, goroutine, births};
ghost use Rattle.gp_journal.specs.Due.{next_instruction};
ghost use Rattle.gp_journal.specs.Effect.{is_last_point, Meets, unlocks, spawned, outcome_at, meets, spawns, resumes, acts, labels_at};
ghost use Rattle.gp_journal.specs.May.{IsDue};
ghost use Rattle.gp_journal.specs.Answer.{answer_to, spawn_answer, resume_answer, op_answer, block_delay};
ghost use Rattle.gp_journal.specs.Reached.{Runs, IsReached};
ghost use Rattle.gp_machine.specs.kept.Present.{CanCount, CanMeet};
ghost use Rattle.gp_journal.specs.Shown.{IsPointOf};
ghost use Rattle.gp_journal.specs.declared.entry.Entry.TheVariants.{Op};

use crate::present::Present;
use gp_isa::limits::INSTRUCTION_TIME;
use gp_journal::{Applied, Goroutine, NO_CELL, Run, SharedPoint, UNLOCK_OF_FREE, Wait, Woken};
use gp_stack::Operation;
use gp_sync::Effect;

// The delay of a block event, in nanoseconds.
pub(crate) fn block_delay(g: Goroutine) -> u64
    requires { g.woken < 2 ^ 40 }
    ensures { result ≡ block_delay g }
{
    (INSTRUCTION_TIME * g.woken.saturating_sub(g.blocked)).max(1)
}

// Whether an operation unlocks a mutex.
fn unlocks(operation: Operation) -> bool
    ensures { result ≡ unlocks operation }
{
    matches!(operation, Operation::Unlock { .. })
}

// The function that a goroutine is to run which an operation bears, if it bears one.
fn spawned(operation: Operation) -> Option<u32>
    ensures { result ≡ spawned operation }
{
    match operation {
        Operation::Spawn { f } => Some(f),
        _ => None,
    }
}

impl<R: Run> Present<R> {
    // What the effect of an operation does. `contended` tells that it was an unlock.
    #[tactic(auto, unfolding(gp_journal::specs::Effect::meets))]
    fn meets(&mut self, w: u32, g: u32, effect: Effect, contended: bool) -> Applied
        requires runs { Runs R.settings self.old w g }
        requires room { CanCount self.old w g 1 }
        requires wakes { CanMeet R.settings self.old effect }
        ensures state { self.new ≡ meets (code_of R.program) R.settings w g effect self.old }
        ensures answer { result ≡ answer_to contended (is_last_point (code_of R.program) self.old g) effect }
    {
        match effect {
            Effect::Done => Applied::Passed {
                woke: None,
                event: None,
                died: self.passes(w, g, 1),
            },
            Effect::Blocks => {
                self.blocks(w, g);
                Applied::Blocked
            }
            Effect::Wakes { g: head, since } => {
                self.wakes(head);
                let woken = Woken {
                    g: head,
                    since,
                    contended,
                };
                Applied::Passed {
                    woke: Some(woken),
                    event: None,
                    died: self.passes(w, g, 1),
                }
            }
            Effect::Fault => {
                self.faults(UNLOCK_OF_FREE, w, g);
                Applied::Fault {
                    cause: UNLOCK_OF_FREE,
                }
            }
        }
    }

    // Makes an operation of g on its channel or mutex, but for what its effect does to goroutines.
    fn waits_at(&mut self, g: u32, operation: Operation) -> Effect
        requires reached { IsReached (code_of R.program) R.settings self.old }
        requires cell { g < R.settings.cells }
        requires waits_nowhere { places_of self.old.channels self.old.mutexes g ≡ 0 }
        requires point { operation_of (next_instruction (code_of R.program) self.old g) ≡ Some operation }
        requires on_wait_lists { spawned operation ≡ None }
        ensures { Meets (unlocks operation) result self.new ≡ outcome_at (code_of R.program) g operation self.old }
    {
        match operation {
            Operation::Send { c } => self.waits.send(c, g, self.clock),
            Operation::Recv { c } => self.waits.recv(c, g, self.clock),
            Operation::Lock { m } => self.waits.lock(m, g, self.clock),
            Operation::Unlock { m } => self.waits.unlock(m, g, self.clock),
            Operation::Spawn { .. } => unreachable!(),
        }
    }

    // A goroutine is born of g, where a cell is left.
    fn spawns(&mut self, w: u32, g: u32, function: u32, labels: u8) -> Applied
        requires runs { Runs R.settings self.old w g }
        requires room { CanCount self.old w g 1 }
        requires absent { times (births self.old) self.old.queue ≡ 0 }
        requires labels { labels ≡ labels_at (code_of R.program) (goroutine self.old g) }
        ensures state { self.new ≡ spawns (code_of R.program) R.settings w g function self.old }
        ensures answer { result ≡ spawn_answer R.settings (is_last_point (code_of R.program) self.old g) self.old }
    {
        if !self.has_cell() {
            self.faults(NO_CELL, w, g);
            return Applied::Fault { cause: NO_CELL };
        }
        let born = self.bears(function, labels);
        let died = self.passes(w, g, 1);
        Applied::Born { g: born, died }
    }

    // g passes the point at which it has waited.
    fn resumes(&mut self, w: u32, g: u32) -> Applied
        requires runs { Runs R.settings self.old w g }
        requires room { CanCount self.old w g 1 }
        requires woken { (goroutine self.old g).woken < 2 ^ 40 }
        ensures state { self.new ≡ resumes (code_of R.program) R.settings w g self.old }
        ensures answer { result ≡ resume_answer (is_last_point (code_of R.program) self.old g) (goroutine self.old g) }
    {
        let delay = block_delay(self.goroutine(g));
        self.unmarks(g);
        Applied::Passed {
            woke: None,
            event: Some(Wait { delay }),
            died: self.passes(w, g, 1),
        }
    }

    /// g comes to its next point, a shared one, on w.
    pub fn acts(&mut self, w: u32, g: u32, point: SharedPoint) -> Applied
        requires reached { IsReached (code_of R.program) R.settings self.old }
        requires due { IsDue (code_of R.program) R.settings self.old w g (Op w g) }
        requires point { IsPointOf (code_of R.program) self.old g point }
        ensures state { self.new ≡ acts (code_of R.program) R.settings w g self.old }
        ensures answer { result ≡ op_answer (code_of R.program) R.settings g self.old }
    {
        if self.is_granted(g) {
            return self.resumes(w, g);
        }
        match spawned(point.operation) {
            Some(function) => self.spawns(w, g, function, point.labels),
            None => {
                let effect = self.waits_at(g, point.operation);
                self.meets(w, g, effect, unlocks(point.operation))
            }
        }
    }
}
