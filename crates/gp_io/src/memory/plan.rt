ghost use Rattle.std.specs.Prelude.{◌≡◌, ◌↔◌, IsErr, OnOk, OnErr};
ghost use Rattle.gp_io.specs.Outside.{Rose};
ghost use Rattle.gp_io.specs.InMemory.{raised, unused, IsNextToFail, after_success, after_fault};

use crate::source::Failed;
use gp_isa::Sequence;
use std::marker::Model;

/// Numbers of calls, counted from 1.
pub type Calls = Sequence<u64>;

/// Which calls are to fail, how many were made, and how many of these failed. Both counts stand still at
/// `u64::MAX`.
#[derive(Drop)]
pub struct FaultPlan {
    fails: Calls,
    calls: u64,
    faults: u64,
}

impl Model for FaultPlan {
    ghost use Rattle.gp_io.specs.InMemory.{Plan};

    ghost Value = { Plan };

    ghost view = { λ p. record { fails = p.fails; calls = p.calls; faults = p.faults } };
}

impl FaultPlan {
    /// A plan before the first call.
    pub fn new(fails: Calls) -> FaultPlan
        ensures { result ≡ unused fails }
    {
        FaultPlan {
            fails,
            calls: 0,
            faults: 0,
        }
    }

    /// Counts a call, and a fault where it is one that is to fail.
    pub fn call(&mut self) -> Result<(), Failed>
        ensures fails { IsErr result ↔ IsNextToFail self.old }
        ensures ok { OnOk result (self.new ≡ after_success self.old) }
        ensures err { OnErr result (self.new ≡ after_fault self.old) }
        ensures rose { OnErr result (Rose self.old.faults self.new.faults) }
    {
        self.calls = self.calls.saturating_add(1);
        if self.fails.as_slice().contains(&self.calls) {
            return Err(self.fault());
        }
        Ok(())
    }

    /// Counts a fault.
    pub fn fault(&mut self) -> Failed
        ensures counted { self.new ≡ record self.old { faults = raised self.old.faults } }
        ensures rose { Rose self.old.faults self.new.faults }
    {
        self.faults = self.faults.saturating_add(1);
        Failed
    }
}
