use gp_isa::Sequence;
use gp_stack::Stack;

/// Sums of records, one for each key.
pub type CpuSums = Sequence<CpuSum>;

/// What records are counted by.
#[derive(Debug, Drop)]
pub enum CpuKey {
    /// Samples of one stack, the leaf first, with one tag.
    At { stack: Stack, tag: u64 },
    /// Samples that were lost.
    Lost,
}

/// How many samples there were of one key.
#[derive(Debug, Drop)]
pub struct CpuSum {
    pub key: CpuKey,
    pub count: u128,
}
