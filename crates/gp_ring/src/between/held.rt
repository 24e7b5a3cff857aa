// What a look saw: the end mark, overflow and `w`.
#[derive(Clone, Copy, Debug)]
pub(crate) struct Sight {
    pub(crate) end: u64,
    pub(crate) overflow: u64,
    pub(crate) w: u64,
}

// What an act found, until the next one. The words and tags of a batch lie in the reader's copy.
#[derive(Clone, Copy, Debug)]
pub(crate) enum Held {
    Batch,
    Lost { count: u64, time: u64 },
    Raced { was: u64, found: u64 },
    Nothing,
    End,
}
