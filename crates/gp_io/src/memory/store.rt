ghost use Rattle.std.specs.Prelude.{◌≡◌, [], List, ℕ, Option, Some, IsErr, OnOk, OnErr, not};
ghost use Rattle.std.specs.Str.{bytes_eq};
ghost use Rattle.gp_io.specs.Outside.{Rose, RoseBy, File, Puts, KeepsOthers, with_file};
ghost use Rattle.gp_io.specs.InMemory.{unused, IsNextToFail, after_success, after_fault};

use crate::memory::plan::{Calls, FaultPlan};
use crate::source::Failed;
use crate::store::Store;
use gp_isa::{Content, Memory, Sequence, Text};
use std::alloc::Global;
use std::marker::Model;
use std::mem;

/// Files with their names, in the order of the puts.
pub type Files = Sequence<(Text, Content)>;

/// A store in memory, whose calls fail by a list of their numbers.
#[derive(Drop)]
pub struct MemStore {
    alloc: Global,
    files: Files,
    plan: FaultPlan,
}

impl Model for MemStore {
    ghost use Rattle.gp_io.specs.InMemory.{StoreInMemory};

    ghost Value = { StoreInMemory };

    ghost view = { λ s. record { files = s.files; plan = s.plan } };
}

impl MemStore {
    /// A store without files. `fails` are the numbers, counted from 1, of the calls that are to fail.
    pub fn new(alloc: Global, fails: Calls) -> MemStore
        ensures { result ≡ record { files = []; plan = unused fails } }
    {
        MemStore {
            alloc,
            files: Sequence::new(alloc),
            plan: FaultPlan::new(fails),
        }
    }

    /// The files in the order of the puts. A name that was put again stands where it was put last.
    pub fn files(&self) -> &Files
        ensures { result.now ≡ self.now.files }
    {
        &self.files
    }
}

// Puts a file at the end, in place of one of its name.
fn put_last(alloc: Global, files: &mut Files, name: &str, bytes: &[u8]) -> Result<(), Memory>
    ensures ok { OnOk result (files.new ≡ with_file files.old name.now bytes.now) }
    ensures err { OnErr result (files.new ≡ files.old) }
{
    let file = (
        Text::from_str(alloc, name)?,
        Content::from_slice(alloc, bytes)?,
    );
    let mut items = mem::replace(files, Sequence::new(alloc)).into_vec();
    let outcome = push_last(&mut items, name, file);
    *files = Sequence::from_vec(items);
    outcome
}

// Whether a file has another name.
fn is_other(file: &(Text, Content), name: &str) -> bool
    ensures { result ≡ not (bytes_eq file.now.0 name.now) }
{
    file.0.as_str() != name
}

// Takes the room first, so that a failure leaves the files as they were.
fn push_last(
    items: &mut Vec<(Text, Content)>,
    name: &str,
    file: (Text, Content),
) -> Result<(), Memory>
    requires { file.0 ≡ name.now }
    ensures ok { OnOk result (items.new.items ≡ with_file items.old.items name.now file.1) }
    ensures err { OnErr result (items.new.items ≡ items.old.items) }
{
    items.reserve(1)?;
    items.retain(|file| is_other(file, name));
    items.push(file).unwrap();
    Ok(())
}

impl Store for MemStore {
    ghost faults = { λ s. s.plan.faults };

    ghost files = { λ s. Some s.files };

    ghost asked = { λ s. Some s.plan.calls };

    /// Puts a file at the end, in place of one of its name. A call that fails leaves the files as they were.
    fn put(&mut self, name: &str, bytes: &[u8]) -> Result<(), Failed>
        ensures fails { IsNextToFail self.old.plan → IsErr result }
        ensures ok { OnOk result (self.new
            ≡ record { files = with_file self.old.files name.now bytes.now; plan = after_success self.old.plan }) }
        ensures kept { OnErr result (self.new ≡ record self.old { plan = after_fault self.old.plan }) }

        ensures put { OnOk result (Puts (Some self.old.files) name.now bytes.now (Some self.new.files)) }
        ensures others { OnErr result (KeepsOthers (Some self.old.files) name.now (Some self.new.files)) }
        ensures counted { RoseBy 1 (Some self.old.plan.calls) (Some self.new.plan.calls) }
        ensures well { OnOk result (self.new.plan.faults ≡ self.old.plan.faults) }
        ensures failed { OnErr result (Rose self.old.plan.faults self.new.plan.faults) }
    {
        self.plan.call()?;
        match put_last(self.alloc, &mut self.files, name, bytes) {
            Ok(()) => Ok(()),
            Err(Memory) => Err(self.plan.fault()),
        }
    }
}
