//! What tests tell of runs, as lines of cases: journals, records and samples, reports, and the files that were put.
#![tactic(auto)]

mod files;
mod journal;
mod meaning;
mod program;
mod report;
mod samples;

pub use files::{file_of, tell_bytes, tell_names};
pub use journal::{tell_frames, tell_journal};
pub use meaning::tell_meaning;
pub use program::{is_printed_again, program_in};
pub use report::{tell_end, tell_report};
pub use samples::tell_cpu;
