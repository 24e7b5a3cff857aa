use gp_cpu::CpuRecords;
use gp_journal::{Counts, Ended, Journal, Refusals};
use gp_stack::Profiles;

/// What a run tells that is complete.
#[derive(Debug, Drop)]
pub struct Report {
    /// The entries, in their order.
    pub journal: Journal,
    /// What the reader took from the ring of CPU samples, in its order.
    pub cpu_records: CpuRecords,
    /// The records of each goroutine profile that was opened, by epoch, in the order in which they were made.
    pub goroutine_records: Profiles,
    /// The room and the number of live goroutines of each profile that was refused.
    pub refused: Refusals,
    /// How many instructions each worker has run.
    pub done: Counts,
    /// How many entries each actor made: the workers, and the profiler last.
    pub made: Counts,
    /// How the run ended.
    pub ended: Ended,
    /// How many goroutines were born.
    pub born: u32,
    /// How many of them are live at the end.
    pub live: u32,
}
