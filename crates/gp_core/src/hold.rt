ghost use Rattle.std.specs.Prelude.{◌≡◌, is_some};
ghost use Rattle.gp_core.specs.CoreState.{copy_in, with_copy};
ghost use Rattle.gp_core.specs.kept.Tests.{is_same, holds, holds_by};

use gp_stack::Record;
use std::mem;

/// By which event an actor came to hold a goroutine.
#[derive(Clone, Copy, Debug, PartialEq, Eq)]
pub enum How {
    /// By a claim, to record it.
    Claim,
    /// By a take, to run it.
    Take,
}

/// What an actor holds.
#[derive(Debug, Drop)]
pub struct Hold {
    /// The goroutine.
    pub g: u32,
    pub how: How,
    /// What a profile is to have of it.
    pub copy: Option<Record>,
}

impl How {
    // Whether it is this one.
    fn is(self, how: How) -> bool
        ensures { result ≡ is_same self how }
    {
        match (self, how) {
            (How::Claim, How::Claim) => true,
            (How::Take, How::Take) => true,
            (How::Claim, How::Take) => false,
            (How::Take, How::Claim) => false,
        }
    }
}

// Whether a hand holds a goroutine.
pub(crate) fn holds(hand: &Option<Hold>, g: u32) -> bool
    ensures { result ≡ holds g hand.now }
{
    match hand {
        Some(hold) => hold.g == g,
        None => false,
    }
}

// Whether it came to hold it so.
pub(crate) fn holds_by(hand: &Option<Hold>, how: How, g: u32) -> bool
    ensures { result ≡ holds_by how g hand.now }
{
    match hand {
        Some(hold) => hold.g == g && hold.how.is(how),
        None => false,
    }
}

// Whether a copy is in it.
pub(crate) fn has_copy(hand: &Option<Hold>) -> bool
    ensures { result ≡ is_some (copy_in hand.now) }
{
    match hand {
        Some(hold) => hold.copy.is_some(),
        None => false,
    }
}

// Puts a copy into a hand that holds something, or none, and hands out what was there.
pub(crate) fn exchange_copy(hand: &mut Option<Hold>, copy: Option<Record>) -> Option<Record>
    ensures copy { result ≡ copy_in hand.old }
    ensures hand { hand.new ≡ with_copy copy hand.old }
{
    match hand {
        Some(hold) => mem::replace(&mut hold.copy, copy),
        None => None,
    }
}
