use crate::held::Held;

/// What a claim comes to. All but `Held` have the word that its exchange found.
#[derive(Drop)]
pub enum Claim {
    /// The body, which is to be recorded and given back by `satisfy`.
    Held(Held),
    /// The body is at home with another epoch than the one before.
    Satisfied(u64),
    /// An actor has the body.
    Busy(u64),
    /// The cell is empty.
    Dead(u64),
}
