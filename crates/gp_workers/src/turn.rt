ghost use Rattle.std.specs.Prelude.{◌≡◌};

use crate::gate::{Gate, Place};

/// What a turn of an actor came to.
#[derive(Clone, Copy, Debug, PartialEq, Eq)]
pub enum Turn {
    /// It did something.
    Went,
    /// It had nothing to do.
    Idle,
    /// It has nothing to do any more.
    Done,
    /// It met want of memory, or saw that somebody had.
    Memory,
}

/// What a turn of the lock did: what it came to, and the places that it came by, which are passed in this order once the lock is
/// free.
#[derive(Clone, Copy)]
pub(crate) struct Did {
    pub(crate) turn: Turn,
    picked: Option<Place>,
    recorded: Option<Place>,
    last: Option<Place>,
}

impl Did {
    /// It came by no place.
    pub fn came_to(turn: Turn) -> Did
        ensures { result.turn ≡ turn }
    {
        Did {
            turn,
            picked: None,
            recorded: None,
            last: None,
        }
    }

    /// It came by one place.
    pub fn came_by(turn: Turn, place: Place) -> Did
        ensures { result.turn ≡ turn }
    {
        Did {
            turn,
            picked: None,
            recorded: None,
            last: Some(place),
        }
    }

    /// Before that worker w picked a goroutine.
    pub fn with_pick(self, w: u32) -> Did
        ensures { result.turn ≡ self.turn }
    {
        Did {
            picked: Some(Place::Picked { w }),
            ..self
        }
    }

    /// Before its last place it recorded goroutine g.
    pub fn with_record(self, actor: u32, g: u32) -> Did
        ensures { result.turn ≡ self.turn }
    {
        Did {
            recorded: Some(Place::Recorded { actor, g }),
            ..self
        }
    }

    /// Passes the places that it came by. No lock is held.
    pub fn pass<G: Gate>(&self, gate: &G) {
        pass(gate, self.picked);
        pass(gate, self.recorded);
        pass(gate, self.last);
    }
}

fn pass<G: Gate>(gate: &G, place: Option<Place>) {
    if let Some(place) = place {
        gate.pass(place);
    }
}
