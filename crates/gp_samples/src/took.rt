/// What a read of the ring between two threads took.
#[derive(Clone, Copy, Debug, PartialEq, Eq)]
pub enum Took {
    /// A batch, or a loss.
    Records,
    /// None: there was nothing, or in place of a loss that was seen there was another word by then.
    Nothing,
    /// None: the writer is at its end, and all that it wrote was taken.
    End,
}
