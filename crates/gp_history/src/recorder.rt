ghost use Rattle.std.specs.Prelude.{◌≡◌, ◌-◌, ◌<◌, [], ◌∷◌, ◌++◌, true, false, length, get_or, replicate, IfOk};
ghost use Rattle.gp_history.specs.kept.Recorder.{vacant};
ghost use Rattle.gp_journal.specs.Profiles.{last_rows, with_row};

use crate::rows::Rows;
use gp_isa::{Memory, Sequence};
use gp_stack::{Profiles, Record, Records};
use std::alloc::Global;
use std::marker::Model;

/// The records of a run's profiles, in room that `new` reserves.
#[derive(Debug, Drop)]
pub(crate) struct Recorder {
    // of the profiles that were closed, by epoch
    closed: Vec<Records>,
    // of the one that is recorded
    current: Option<Rows>,
    // room for those to come
    spare: Vec<Rows>,
    each: u32,
}

impl Model for Recorder {
    ghost use Rattle.std.specs.Prelude.{◌++◌, length, is_some};
    ghost use Rattle.std.specs.Vec.{vec_capacity};
    ghost use Rattle.gp_history.specs.Recorder.{Recording};
    ghost use Rattle.gp_history.specs.kept.Recorder.{current_rows, FitsRecorder};

    ghost Value = { Recording };

    ghost view = { λ r. record {
      profiles = r.closed.items ++ current_rows r.current;
      is_open = is_some r.current;
      left = length r.spare.items;
      each = r.each;
    } };

    ghost invariant = { λ r. FitsRecorder (vec_capacity r.closed) r.closed.items r.current r.spare.items r.each };
}

// Room for so many profiles, and for so many records of each.
fn reserved(alloc: Global, count: usize, each: u32) -> Result<Vec<Rows>, Memory>
    ensures { IfOk result (λ spare. spare.items ≡ replicate count (vacant each)) }
{
    let mut spare = Vec::new(alloc);
    for _ in 0..count {
        spare.push(Rows::new(alloc, each)?)?;
    }
    Ok(spare)
}

impl Recorder {
    /// No profile yet, and room for so many of so many records each.
    pub fn new(alloc: Global, count: usize, each: u32) -> Result<Recorder, Memory>
        ensures { IfOk result (λ r. r ≡ record { profiles = []; is_open = false; left = count; each = each }) }
    {
        Ok(Recorder {
            closed: Vec::with_capacity(alloc, count)?,
            current: None,
            spare: reserved(alloc, count, each)?,
            each,
        })
    }

    /// A profile begins, which has no record yet.
    pub fn begin(&mut self)
        requires none_open { self.old.is_open ≡ false }
        requires left { 0 < self.old.left }
        ensures { self.new ≡ record self.old { profiles = self.old.profiles ++ [] ∷ []; is_open = true; left = self.old.left - 1 } }
    {
        self.current = self.spare.pop();
    }

    /// The profile that is recorded gets a record.
    pub fn push(&mut self, row: Record)
        requires is_open { self.old.is_open ≡ true }
        requires room { length (last_rows self.old.profiles) < self.old.each }
        ensures { self.new ≡ record self.old { profiles = with_row self.old.profiles row } }
    {
        match &mut self.current {
            Some(rows) => rows.push(row),
            None => unreachable!(),
        }
    }

    /// The profile that is recorded ends, if there is one.
    pub fn end(&mut self)
        ensures { self.new ≡ record self.old { is_open = false } }
    {
        if let Some(rows) = self.current.take() {
            match self.closed.push(rows.into_records()) {
                Ok(()) => {}
                Err(_) => unreachable!(),
            }
        }
    }

    /// The records of a profile, counted from 0; none where it wasn't begun.
    pub fn get(&self, at: usize) -> &[Record]
        ensures { result.now ≡ get_or self.now.profiles at [] }
    {
        if let Some(records) = self.closed.get(at) {
            return records.as_slice();
        }
        match &self.current {
            Some(rows) if at == self.closed.len() => rows.as_slice(),
            _ => &[],
        }
    }

    /// The records of each profile. It takes no memory.
    pub fn into_profiles(self) -> Profiles
        ensures { result ≡ self.profiles }
    {
        let mut it = self;
        it.end();
        let Recorder { closed, .. } = it;
        Sequence::from_vec(closed)
    }
}
