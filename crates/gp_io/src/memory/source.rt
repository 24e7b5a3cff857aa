ghost use Rattle.std.specs.Prelude.{◌≡◌, ℕ, ◌+◌, ◌<◌, ◌≤◌, ◌↔◌, ◌++◌, List, [], length, take, drop, min};
ghost use Rattle.std.specs.Prelude.{Option, Some, IsErr, IfOk, IfSome, OnOk, OnErr};
ghost use Rattle.gp_io.specs.Outside.{Rose, Takes};
ghost use Rattle.gp_io.specs.InMemory.{unused, IsNextToFail, after_success, after_fault};

use crate::memory::plan::{Calls, FaultPlan};
use crate::source::{Failed, Source};
use gp_isa::Content;
use std::io::Read;
use std::marker::Model;

/// A source in memory, whose calls fail by a list of their numbers.
#[derive(Drop)]
pub struct MemSource {
    bytes: Content,
    // where the bytes begin that are left
    at: usize,
    plan: FaultPlan,
}

impl Model for MemSource {
    ghost use Rattle.std.specs.Prelude.{◌≤◌, drop, length};
    ghost use Rattle.gp_io.specs.InMemory.{SourceInMemory};

    ghost Value = { SourceInMemory };

    ghost view = { λ s. record { left = drop s.at s.bytes; plan = s.plan } };

    ghost invariant = { λ s. s.at ≤ length s.bytes };
}

impl MemSource {
    /// A source that has these bytes left. `fails` are the numbers, counted from 1, of the calls that are to fail.
    pub fn new(bytes: Content, fails: Calls) -> MemSource
        ensures { result ≡ record { left = bytes; plan = unused fails } }
    {
        MemSource {
            bytes,
            at: 0,
            plan: FaultPlan::new(fails),
        }
    }
}

impl Source for MemSource {
    ghost faults = { λ s. s.plan.faults };

    ghost left = { λ s. Some s.left };

    /// Reads as many bytes as are left and fit. A call that fails takes nothing.
    fn read(&mut self, to: &mut [u8]) -> Result<usize, Failed>
        ensures fails { IsErr result ↔ IsNextToFail self.old.plan }
        ensures count { IfOk result (λ n. n ≡ min (length to.old) (length self.old.left)) }
        ensures copied { IfOk result (λ n. to.new ≡ take n self.old.left ++ drop n to.old) }
        ensures rest { IfOk result (λ n. self.new
            ≡ record { left = drop n self.old.left; plan = after_success self.old.plan }) }
        ensures kept { OnErr result (self.new ≡ record self.old { plan = after_fault self.old.plan }) }

        ensures within { IfOk result (λ n. n ≤ length to.old) }
        ensures taken { IfOk result (λ n. Takes (Some self.old.left) (take n to.new) (Some self.new.left)) }
        ensures end { IfOk result (λ n. n ≡ 0 → 0 < length to.old → self.old.left ≡ []) }
        ensures well { OnOk result (self.new.plan.faults ≡ self.old.plan.faults) }
        ensures failed { OnErr result (Rose self.old.plan.faults self.new.plan.faults) }
    {
        self.plan.call()?;
        let mut left = &self.bytes.as_slice()[self.at..];
        let n = left.read(to).unwrap_or(0);
        self.at += n;
        Ok(n)
    }
}
