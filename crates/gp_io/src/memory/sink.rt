ghost use Rattle.std.specs.Prelude.{◌≡◌, ℕ, ◌<◌, ◌≤◌, ◌++◌, [], List, length, take, Option, Some, IsErr, IfOk, OnOk, OnErr};
ghost use Rattle.gp_io.specs.Outside.{Rose, Appends, AppendsSome};
ghost use Rattle.gp_io.specs.InMemory.{unused, IsNextToFail, after_success, after_fault};

use crate::memory::plan::{Calls, FaultPlan};
use crate::sink::Sink;
use crate::source::Failed;
use gp_isa::{Content, Memory};
use std::alloc::Global;
use std::marker::Model;
use std::mem;

/// A sink in memory, whose calls fail by a list of their numbers.
#[derive(Drop)]
pub struct MemSink {
    alloc: Global,
    written: Content,
    plan: FaultPlan,
}

impl Model for MemSink {
    ghost use Rattle.gp_io.specs.InMemory.{SinkInMemory};

    ghost Value = { SinkInMemory };

    ghost view = { λ s. record { written = s.written; plan = s.plan } };
}

impl MemSink {
    /// A sink that was given nothing. `fails` are the numbers, counted from 1, of the calls that are to fail.
    pub fn new(alloc: Global, fails: Calls) -> MemSink
        ensures { result ≡ record { written = []; plan = unused fails } }
    {
        MemSink {
            alloc,
            written: Content::new(alloc),
            plan: FaultPlan::new(fails),
        }
    }

    /// The bytes that were taken.
    pub fn written(&self) -> &Content
        ensures { result.now ≡ self.now.written }
    {
        &self.written
    }
}

fn append(alloc: Global, written: &mut Content, piece: &[u8]) -> Result<(), Memory>
    ensures ok { OnOk result (written.new ≡ written.old ++ piece.now) }
    ensures err { OnErr result (written.new ≡ written.old) }
{
    let mut bytes = mem::replace(written, Content::new(alloc)).into_vec();
    let outcome = bytes.extend_from_slice(piece);
    *written = Content::from_vec(bytes);
    match outcome {
        Ok(()) => Ok(()),
        Err(_) => Err(Memory),
    }
}

impl Sink for MemSink {
    ghost faults = { λ s. s.plan.faults };

    ghost written = { λ s. Some s.written };

    /// Appends the whole piece. A call that fails appends nothing.
    fn write(&mut self, piece: &[u8]) -> Result<usize, Failed>
        ensures fails { IsNextToFail self.old.plan → IsErr result }
        ensures whole { IfOk result (λ n. n ≡ length piece.now) }
        ensures ok { OnOk result (self.new
            ≡ record { written = self.old.written ++ piece.now; plan = after_success self.old.plan }) }
        ensures kept { OnErr result (self.new ≡ record self.old { plan = after_fault self.old.plan }) }

        ensures within { IfOk result (λ n. n ≤ length piece.now) }
        ensures some { IfOk result (λ n. 0 < length piece.now → 0 < n) }
        ensures appended { IfOk result (λ n. Appends (Some self.old.written) (take n piece.now) (Some self.new.written)) }
        ensures prefix { OnErr result (AppendsSome (Some self.old.written) piece.now (Some self.new.written)) }
        ensures well { OnOk result (self.new.plan.faults ≡ self.old.plan.faults) }
        ensures failed { OnErr result (Rose self.old.plan.faults self.new.plan.faults) }
    {
        self.plan.call()?;
        match append(self.alloc, &mut self.written, piece) {
            Ok(()) => Ok(piece.len()),
            Err(Memory) => Err(self.plan.fault()),
        }
    }
}
