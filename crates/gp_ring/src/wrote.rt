/// What became of an offer.
#[derive(Clone, Copy, Debug, PartialEq, Eq)]
pub enum Wrote {
    /// Its record was written; `flushed` is the count of the loss that was written before it, or 0.
    Kept { flushed: u64 },
    /// It is counted in the pending loss: by the words `r` and `overflow` that were loaded there was no room for it, or
    /// one was pending and there was no room for both.
    Lost { r: u64, overflow: u64 },
}
