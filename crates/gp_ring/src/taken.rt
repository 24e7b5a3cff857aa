/// What an act finds.
#[derive(Clone, Copy, Debug, PartialEq, Eq)]
pub enum Taken<'a> {
    /// All records between the reader's place and the `w` that was seen: their words in order, without marks, and the tag of
    /// each.
    Batch { words: &'a [u64], tags: &'a [u64] },
    /// No record was ahead, and the pending loss was taken: how many offers it counts, and the time of the first.
    Lost { count: u64, time: u64 },
    /// No record was ahead, but in place of the overflow word `was`, with a loss, that was seen there is `found`.
    Raced { was: u64, found: u64 },
    /// Neither a record nor a loss was seen.
    Nothing,
    /// Neither was seen, and before them the end mark: nothing comes any more.
    End,
}
