ghost use Rattle.std.specs.Prelude.{◌≡◌};
ghost use Rattle.gp_cells.specs.Held.{hold_of};

use crate::carried::Carried;
use crate::hand::Hand;

/// A body that a claim or a take handed out, and what gives it back. Only these two make one.
#[derive(Drop)]
pub struct Held {
    pub body: Carried,
    pub(crate) hand: Hand,
}

impl Held {
    /// The cell on which the exchange was made.
    pub fn cell(&self) -> u32
        ensures { result ≡ (hold_of self.now).cell }
    {
        self.hand.cell()
    }

    /// The epoch of the word that the exchange made.
    pub fn epoch(&self) -> u32
        ensures { result ≡ (hold_of self.now).epoch }
    {
        self.hand.epoch()
    }

    /// The actor of the word that the exchange made.
    pub fn actor(&self) -> u32
        ensures { result ≡ (hold_of self.now).actor }
    {
        self.hand.actor()
    }
}
