use crate::between::steps::RingSeat;
use crate::between::writer::RingTable;
use std::marker::Model;
use std::sync::Arc;

/// The end of a ring that offered samples, once the end is marked.
#[derive(Drop)]
pub struct Closed {
    pub(crate) table: Arc<RingTable>,
    pub(crate) seat: RingSeat,
}

impl Model for Closed {
    ghost use Rattle.std.specs.Arc.{arc_value};
    ghost use Rattle.gp_ring.specs.TwoEnds.{ClosedEnd};

    ghost Value = { ClosedEnd };

    ghost use Rattle.gp_ring.specs.kept.Halves.{closed_end, IsDone};

    ghost view = { λ x. closed_end (arc_value x.table).shared.table_id x.seat.me.0 };

    ghost invariant = { λ x. IsDone (arc_value x.table).shared.table_id x.seat.table_id x.seat.me };
}
