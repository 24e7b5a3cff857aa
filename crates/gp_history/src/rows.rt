ghost use Rattle.std.specs.Prelude.{◌≡◌, ◌<◌, [], ◌∷◌, ◌++◌, length, IfOk};

use gp_isa::{Memory, Sequence};
use gp_stack::{Record, Records};
use std::alloc::Global;
use std::marker::Model;

/// The records of one profile so far, with room for so many.
#[derive(Debug, Drop)]
pub(crate) struct Rows {
    rows: Vec<Record>,
    room: u32,
}

impl Model for Rows {
    ghost use Rattle.std.specs.Prelude.{◌≤◌};
    ghost use Rattle.std.specs.Vec.{vec_capacity};
    ghost use Rattle.gp_history.specs.Recorder.{Reserved};

    ghost Value = { Reserved };

    ghost view = { λ r. record { rows = r.rows.items; room = r.room } };

    ghost invariant = { λ r. r.room ≤ vec_capacity r.rows };
}

impl Rows {
    /// None yet, and room for so many.
    pub fn new(alloc: Global, room: u32) -> Result<Rows, Memory>
        ensures { IfOk result (λ rows. rows ≡ record { rows = []; room = room }) }
    {
        Ok(Rows {
            rows: Vec::with_capacity(alloc, room as usize)?,
            room,
        })
    }

    /// Puts a record behind the others.
    pub fn push(&mut self, row: Record)
        requires { length self.old.rows < self.old.room }
        ensures { self.new ≡ record self.old { rows = self.old.rows ++ row ∷ [] } }
    {
        match self.rows.push(row) {
            Ok(()) => {}
            Err(_) => unreachable!(),
        }
    }

    pub fn as_slice(&self) -> &[Record]
        ensures { result.now ≡ self.now.rows }
    {
        self.rows.as_slice()
    }

    pub fn into_records(self) -> Records
        ensures { result ≡ self.rows }
    {
        let Rows { rows, .. } = self;
        Sequence::from_vec(rows)
    }
}
