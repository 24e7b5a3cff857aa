use crate::bodies::Bodies;
use crate::numbers::Numbers;
use gp_cpu::Collector;
use gp_history::History;
use gp_machine::Run;
use gp_ring::Ring;
use std::marker::Model;

/// A run, made one turn after another.
#[derive(Drop)]
pub(crate) struct Simulation<R: Run> {
    pub(crate) history: History<R>,
    pub(crate) bodies: Bodies<R>,
    pub(crate) numbers: Numbers<R>,
    // the samples that weren't read yet
    pub(crate) ring: Ring,
    // what the reader took
    pub(crate) cpu: Collector,
}

impl<R: Run> Model for Simulation<R> {
    ghost use Rattle.std.specs.Prelude.{map};
    ghost use Rattle.gp_journal.specs.State.{code_of};
    ghost use Rattle.gp_cpu.specs.Records.{ring_record_of};
    ghost use Rattle.gp_sim.specs.Choice.{SoFar};
    ghost use Rattle.gp_sim.specs.kept.Simulation.{IsSimulation};

    ghost Value = { SoFar };

    ghost view = { λ s. record { journal = s.history; taken = s.numbers; ring = s.ring; records = map ring_record_of s.cpu } };

    ghost invariant = { λ s. IsSimulation (code_of R.program) R.settings s.history s.bodies };
}
