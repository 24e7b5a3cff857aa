ghost use Rattle.std.specs.Prelude.{◌≡◌};
ghost use Rattle.gp_cells.specs.Pass.{forked, fork_of};

use crate::cells::Cells;
use crate::roster::Roster;
use crate::steps::{CellSeat, Fork, Merge};
use gp_journal::Run;
use std::marker::Model;

/// A caller's token. It holds what its claims and takes gave, as long as that wasn't given back or put away.
#[derive(Drop)]
pub struct Pass {
    pub(crate) seat: CellSeat,
}

impl Model for Pass {
    ghost use Rattle.std.specs.Prelude.{◌≡◌, false, []};
    ghost use Rattle.gp_cells.specs.Pass.{Token};
    ghost use Rattle.gp_cells.specs.kept.Views.{token_of};

    ghost Value = { Token };

    ghost view = { λ p. token_of p.seat.table_id p.seat.me.0 };

    ghost invariant = { λ p. (p.seat.me.0.holds ≡ false) × (p.seat.me.1 ≡ []) };
}

impl Pass {
    /// A pass of the same cells, which holds nothing. A pass has no bytes and doesn't keep its cells, so they are named.
    pub fn split<K: Roster, R: Run>(&mut self, cells: &Cells<K, R>) -> Pass
        requires { self.old.cells ≡ cells.now.table }
        ensures this { self.new ≡ forked self.old }
        ensures other { result ≡ fork_of self.old }
    {
        Pass {
            seat: cells.table.shared.split_seat::<Fork>(&mut self.seat),
        }
    }

    /// Takes in a pass that holds nothing.
    pub fn join<K: Roster, R: Run>(&mut self, cells: &Cells<K, R>, other: Pass)
        requires this { self.old.cells ≡ cells.now.table }
        requires other { other.cells ≡ cells.now.table }
        requires nothing { other.held ≡ 0 }
        ensures { self.new ≡ self.old }
    {
        let Pass { seat } = other;
        cells.table.shared.join_seat::<Merge>(&mut self.seat, seat);
    }
}
