use gp_isa::Sequence;
use gp_stack::Stack;

/// What a reader took from the ring of samples, in its order.
pub type CpuRecords = Sequence<CpuRecord>;

/// What one record of the ring of samples says.
#[derive(Debug, Drop)]
pub enum CpuRecord {
    /// A sample that was delivered: its time in nanoseconds, its tag, its one header word, and its stack, the leaf first.
    /// A tick's sample has header 1 and the number of a label set as tag. The rate record has the ticks of a second as
    /// header and an empty stack.
    Sample {
        time: u64,
        tag: u64,
        header: u64,
        stack: Stack,
    },
    /// How many samples were lost, one behind the other, and the time of the first, in nanoseconds.
    Lost {
        count: u64,
        time: u64,
    },
}
