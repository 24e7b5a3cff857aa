//! What a command tells: the report of a run that is complete, and the texts that are written.
//!
//! [`Report`] is what a run leaves to be told: its journal, the records of its goroutine profiles, and the numbers that are
//! read off them. [`fault`] makes the one line that tells why a command did nothing:
//!
//! ```text
//! Usage { place: 4, cause: 5 }      usage 4 5                     the fifth word, counted from 0, repeats an option
//! Line { line: 2, cause: 4 }        refused line 2 cause 4        a number out of range in line 2 of a program file
//! At { at: 74, cause: 1 }           refused at 74 cause 1         a profile that ends inside the field at byte 74
//! Long                              refused long                  more bytes than are read
//! Read                              read fault                    a file that can't be opened or read
//! ```
//!
//! Each line ends with a line feed. Numbers are decimal, as the standard library writes them. The definition of the lines is
//! `specs/Fault.antt`, with the causes' numbers as they come.
//!
//! [`summary`] makes the text of a run that is complete, from its report and the sums of its block and of its mutex events
//! ([`Totals`]):
//!
//! ```text
//! end deadlock                      or main, full, fault 1, fault 2
//! entries 19                        entries of the journal
//! instructions 5                    the clock at the end: the instructions of all workers
//! born 4 live 4                     goroutines
//! ticks 0 samples 0 lost 0          Tick entries; CPU samples that were delivered, and those that were lost
//! profiles 1 refused 0              goroutine profiles that were opened, and those that were refused
//! block 0 0                         block events: what they count, and their delay in nanoseconds
//! mutex 0 0                         mutex events, and the same of them
//! ```
//!
//! The first record of the ring of samples, the rate record, is no sample. The definition is `specs/Summary.antt`.
//!
//! [`dump`] makes the text of what a profile means (`gp_build`'s `Meaning`):
//!
//! ```text
//! type samples count
//! type cpu nanoseconds
//! period cpu nanoseconds 10000000
//! duration 20000000
//! sample 1 10000000 | main@a.gp:2 | team=red bytes=#512:kb
//! ```
//!
//! There is a line for each sample type, one for the period and one for the duration, and one for each sample: its values, its
//! frames from the leaf on, and its labels, with a blank before each of them and before each bar. A frame is a name, a file
//! and a line; a label is a key with a text, or with a number and, where it isn't empty, its unit. A type or a unit that is
//! empty stands as `-`, and so do both where there is no period type.
//!
//! So that each line is read in one way, bytes of names, files, types, units, keys and values that would be taken for marks or
//! that can't be seen are escaped (`escape`): those up to 0x20, 0x7f, and each of `\ # = : | @` stand as `\x` and two hexadecimal
//! digits in lower case. What makes up a line is in `pieces`, and the lines in `meaning`; the definition is `specs/Dump.antt`.
#![tactic(auto)]

mod escape;
mod line;
mod meaning;
mod pieces;
mod refusal;
mod report;
mod run_summary;
mod totals;

pub use line::fault;
pub use meaning::dump;
pub use refusal::Fault;
pub use report::Report;
pub use run_summary::summary;
pub use totals::Totals;
