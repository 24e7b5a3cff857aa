/// The sums of a run's block events, and those of its mutex events, over all stacks: what they count, and their delay in
/// nanoseconds. A mutex event counts the option's fraction. Each is the lesser of the sum and 2^63 - 1.
#[derive(Clone, Copy, Debug, PartialEq, Eq)]
pub struct Totals {
    pub block_count: u64,
    pub block_delay: u64,
    pub mutex_count: u64,
    pub mutex_delay: u64,
}
