//! Records of the CPU profile: what a reader takes from the ring of samples, and what they add up to. After Go's
//! `runtime/cpuprof.go`.
//!
//! **Offered** to the ring (`specs/Samples.antt`) are the rate record, at time 0 with the ticks of a second as header and no
//! stack, and then one sample for each Tick of the journal: its time in nanoseconds, header 1, the stack of the goroutine that
//! runs, cut, each frame one word, and the number of its label set as tag.
//!
//! **Taken** from it are batches and losses. A batch is the words of records one behind the other, with a tag for each
//! (`specs/Batch.antt`). A record with header 0 tells of a loss: its time is that of the first offer lost, and its one word of
//! stack says how many there were. A [`Collector`] keeps what was taken, in order: `add` takes a batch, `add_lost` a loss that
//! was found by itself. Each adds all of it, or, where there is no memory, nothing.
//!
//! ```text
//! words                                         tags    record
//! 3  0     100                                  0       Sample   time 0     header 100  no stack        the rate record
//! 5  1000  1    1<<32 | 8   0<<32 | 2           4       Sample   time 1000  header 1    f:8 < main:2    label set 4
//! 4  2000  0    3                               0       Lost     3 samples from time 2000 on
//! ```
//!
//! **Summed up** (`specs/Sums.antt`) they have one count for each stack with each tag, and one for all that was lost, in the
//! order in which they are first met. Equal labels under two numbers stay apart. The rate record isn't counted. Each record's
//! key is hashed once, so the time grows with the records and their frames. A count of 128 bits can't overflow.
//!
//! `law_batches` ties this crate to the ring: what an act on a ring shows may be added, and adds the records that the ring has
//! taken; so whoever carries those records, for which the ring keeps that they cover the offers, carries the collector's.
//! `law_samples` says how samples grow with a journal, `law_sums` how sums grow with records.
#![tactic(auto)]

mod collector;
mod frames;
mod key;
mod laws;
mod record;
mod sum;

pub use collector::{Collector, sums};
pub use laws::{law_batches, law_samples, law_sums};
pub use record::{CpuRecord, CpuRecords};
pub use sum::{CpuKey, CpuSum, CpuSums};
