use gp_isa::Sequence;
use gp_stack::Stack;

/// Sums of events, one for each stack.
pub type Sums = Sequence<Sum>;

/// What the events of one stack add up to.
#[derive(Debug, Drop)]
pub struct Sum {
    /// The leaf first.
    pub stack: Stack,
    /// How often they count.
    pub count: u128,
    /// Nanoseconds.
    pub delay: u128,
}
