ghost use Rattle.std.specs.Prelude.{◌≡◌, ◌≤◌, ◌<◌, ◌+◌, ◌*◌, ◌++◌, ◌^◌, length, map, IfOk, OnErr};
ghost use Rattle.gp_journal.specs.Settings.{AreInRange};
ghost use Rattle.gp_journal.specs.NumberLaws.{most_entries};
ghost use Rattle.gp_journal.specs.State.{code_of};
ghost use Rattle.gp_journal.specs.Run.{IsFinished};
ghost use Rattle.gp_journal.specs.Profiles.{records_of, AreFrozen};
ghost use Rattle.gp_events.specs.Sums.{sums};
ghost use Rattle.gp_history.specs.Events.{block_events, mutex_events};
ghost use Rattle.gp_ring.specs.Records.{Covers};
ghost use Rattle.gp_ring.specs.PlainRing.{closed};
ghost use Rattle.gp_cpu.specs.Records.{ring_record_of};
ghost use Rattle.gp_cpu.specs.Samples.{samples_of_journal};
ghost use Rattle.gp_samples.specs.RunRing.{taken_to_end, BeginWithHead};
ghost use Rattle.gp_sim.specs.Choice.{begun, sim_journal, sim_records};
ghost use Rattle.gp_sim.specs.kept.Simulation.{TakesTurn, KeepsItsRing, StaysButRing};

use crate::actions::{Step, next_step};
use crate::bodies::{Bodies, newborn};
use crate::numbers::Numbers;
use crate::simulation::Simulation;
use gp_cpu::Collector;
use gp_events::Buckets;
use gp_history::{History, HistoryParts};
use gp_isa::{Memory, Program};
use gp_machine::{Machine, Run, Settings};
use gp_samples::{begun_ring, read_to_end};
use gp_stack::Profiles;
use std::alloc::Global;

/// A run that is complete.
#[derive(Drop)]
pub struct Simulated<R: Run> {
    pub machine: Machine<R>,
    /// The records of each profile, by epoch.
    pub records: Profiles,
    /// The sums of the block events.
    pub block: Buckets,
    /// The sums of the mutex events.
    pub mutex: Buckets,
    /// What the reader took from the ring of samples.
    pub cpu: Collector,
    /// How many turns it took. Each made an entry or was a read, and the last one found the end of the ring.
    pub turns: u64,
}

impl<R: Run> Simulation<R> {
    /// A run as it begins.
    pub fn new(
        alloc: Global,
        program: &Program,
        settings: &Settings,
    ) -> Result<Simulation<R>, Memory>
        requires program { program.now ≡ R.program }
        requires settings { settings.now ≡ R.settings }
        requires range { AreInRange settings.now }
        ensures { IfOk result (λ s. s ≡ begun R.program R.settings) }
    {
        let mut bodies = Bodies::new(alloc, settings)?;
        bodies.push(newborn(alloc, program, program.main(), 0)?);
        Ok(Simulation {
            history: History::new(alloc, program, settings)?,
            bodies,
            numbers: Numbers::new(settings),
            ring: begun_ring(alloc, program, settings)?,
            cpu: Collector::new(alloc)?,
        })
    }

    // One turn: where a worker or the profiler can act, one of the actors does. It tells whether there was a turn.
    fn turn(
        &mut self,
        alloc: Global,
        program: &Program,
        settings: &Settings,
    ) -> Result<bool, Memory>
        requires program { program.now ≡ R.program }
        requires settings { settings.now ≡ R.settings }
        requires ring { KeepsItsRing R.program R.settings self.old }
        requires room { self.old.taken + 1 < 2 ^ 64 }
        ensures turn { IfOk result (λ made. TakesTurn (code_of R.program) R.settings made self.old self.new) }
        ensures err { OnErr result (StaysButRing self.old self.new) }
    {
        let machine = self.history.machine();
        match next_step(
            machine,
            &self.bodies,
            &self.ring,
            &self.numbers,
            program,
            settings,
        ) {
            Some(Step { turn, point }) => {
                self.carry_out(alloc, program, settings, turn.act, point)?;
                self.numbers.take(settings, turn.taken);
                Ok(true)
            }
            None => Ok(false),
        }
    }

    // What is left of a run at its end, after so many turns. Its ring is closed and read to its end.
    fn end(self, alloc: Global, turns: u64) -> Result<Simulated<R>, Memory>
        requires ring { KeepsItsRing R.program R.settings self }
        requires few { turns < 2 ^ 63 }
        ensures machine { IfOk result (λ s. s.machine ≡ self.journal) }
        ensures records { IfOk result (λ s. s.records ≡ records_of (code_of R.program) R.settings self.journal) }
        ensures block { IfOk result (λ s. s.block ≡ sums (block_events (code_of R.program) R.settings self.journal)) }
        ensures mutex { IfOk result (λ s. s.mutex ≡ sums (mutex_events (code_of R.program) R.settings self.journal)) }
        ensures cpu { IfOk result (λ s. map ring_record_of s.cpu ≡ self.records ++ taken_to_end 3 (closed self.ring)) }
        ensures turns { IfOk result (λ s. s.turns ≤ turns + length (taken_to_end 3 (closed self.ring)) + 1) }
        ensures least { IfOk result (λ s. turns + 1 ≤ s.turns) }
    {
        let Simulation {
            history,
            ring,
            cpu,
            ..
        } = self;
        let mut ring = ring;
        let mut cpu = cpu;
        let reads = read_to_end(alloc, &mut ring, &mut cpu)?;
        let HistoryParts {
            machine,
            records,
            block,
            mutex,
        } = history.into_parts();
        Ok(Simulated {
            machine,
            records,
            block,
            mutex,
            cpu,
            turns: turns + reads,
        })
    }
}

/// Runs a program in the order that its options' numbers choose, to the end. Each turn but the last makes an entry or takes
/// records from the ring.
pub fn simulate<R: Run>(
    alloc: Global,
    program: &Program,
    settings: &Settings,
) -> Result<Simulated<R>, Memory>
    requires program { program.now ≡ R.program }
    requires settings { settings.now ≡ R.settings }
    requires range { AreInRange settings.now }
    ensures journal { IfOk result (λ s. s.machine ≡ sim_journal R.program R.settings) }
    ensures finished { IfOk result (λ s. IsFinished (code_of R.program) R.settings s.machine) }
    ensures records { IfOk result (λ s. s.records ≡ records_of (code_of R.program) R.settings s.machine) }
    ensures frozen { IfOk result (λ s. AreFrozen (code_of R.program) R.settings s.machine s.records) }
    ensures block { IfOk result (λ s. s.block ≡ sums (block_events (code_of R.program) R.settings s.machine)) }
    ensures mutex { IfOk result (λ s. s.mutex ≡ sums (mutex_events (code_of R.program) R.settings s.machine)) }
    ensures cpu { IfOk result (λ s. map ring_record_of s.cpu ≡ sim_records R.program R.settings) }
    ensures covered { IfOk result (λ s.
        Covers (map ring_record_of s.cpu) (samples_of_journal (code_of R.program) R.settings s.machine)) }
    ensures head { IfOk result (λ s. BeginWithHead R.program R.settings s.machine (map ring_record_of s.cpu)) }
    ensures entries { IfOk result (λ s. length s.machine ≤ most_entries R.settings) }
    ensures turns { IfOk result (λ s. s.turns ≤ 2 * most_entries R.settings + 2) }
    ensures least { IfOk result (λ s. length s.machine + 1 ≤ s.turns) }
{
    let mut simulation = Simulation::<R>::new(alloc, program, settings)?;
    let mut turns = 0;
    while simulation.turn(alloc, program, settings)? {
        turns += 1;
    }
    simulation.end(alloc, turns)
}
