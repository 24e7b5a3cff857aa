use crate::held::Held;

/// What a take comes to.
#[derive(Drop)]
pub enum Take {
    /// The body, which is to be run and given back by `give`, or put away by `bury`.
    Held(Held),
    /// The exchange found this word, another one than was expected.
    Changed(u64),
}
