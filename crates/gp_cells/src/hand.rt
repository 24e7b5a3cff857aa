ghost use Rattle.std.specs.Prelude.{◌≡◌};

use crate::steps::CellSeat;
use std::marker::Model;

/// The slot of a cell, with what the cell's word says: it came by a claim or else by a take, the epoch, and the actor. The body
/// was taken out.
#[derive(Drop)]
pub(crate) struct Hand {
    pub(crate) seat: CellSeat,
    pub(crate) cell: u32,
    pub(crate) claims: bool,
    pub(crate) epoch: u32,
    pub(crate) actor: u32,
}

impl Model for Hand {
    ghost use Rattle.gp_cells.specs.Hold.{Hold};
    ghost use Rattle.gp_cells.specs.kept.Hands.{IsHand};

    ghost Value = { Hold };

    ghost view = { λ h. record {
      cells = h.seat.table_id;
      pass = h.seat.me.0.name;
      cell = h.cell;
      claims = h.claims;
      epoch = h.epoch;
      actor = h.actor;
    } };

    ghost invariant = { λ h. IsHand h.seat.table_id h.seat.me h.cell h.claims h.epoch h.actor };
}

impl Hand {
    pub(crate) fn cell(&self) -> u32
        ensures { result ≡ self.now.cell }
    {
        self.cell
    }

    pub(crate) fn epoch(&self) -> u32
        ensures { result ≡ self.now.epoch }
    {
        self.epoch
    }

    pub(crate) fn actor(&self) -> u32
        ensures { result ≡ self.now.actor }
    {
        self.actor
    }
}
