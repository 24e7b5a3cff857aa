//! Command words: the job that they ask for, or the first fault in them.
//!
//! The words are the arguments after the program's name:
//!
//! ```text
//! run FILE [options]      sim FILE [options]      gen N Q [options]      dump PROFILE
//!
//! sim a.gp --room 1 --room 1
//!  0    1      2  3      4  5      the places of the words; the first fault is at place 4, cause 5
//! ```
//!
//! FILE and PROFILE are words that aren't empty and don't begin with `-`; N is a number below 2^64, and Q one from 1 to 63.
//! An option is two words, its name and its value, in any order of options. `run` has no `--picks`.
//!
//! | option | value | where it isn't given |
//! |---|---|---|
//! | `--workers` | 1 to 16 | 2 |
//! | `--at` | a clock, 0 to 2^40 instructions, or `end`; up to 8 times, kept in order | none |
//! | `--room` | 0 to 16,384 records | the number of cells |
//! | `--hz` | CPU samples a second: a divisor of 1,000,000, from 1 on | 100 |
//! | `--block` | 0 or 1: whether block events are recorded | 0 |
//! | `--mutex` | 0 to 1,000,000,000: one in so many mutex events is kept, at 0 none | 0 |
//! | `--cells` | 1 to 16,384 goroutines | 1,024 |
//! | `--entries` | 16 to 4,194,304 journal entries | 262,144 |
//! | `--ring` | 16 to 1,048,576 words of the ring of CPU samples | 131,072 |
//! | `--tags` | 1 to 1,048,576 tags of the ring | 16,384 |
//! | `--seed` | 0 to 2^64 - 1 | 42 |
//! | `--picks` | 1 to 100,000 numbers below 2^32, joined by single commas | none |
//!
//! A number is one to twenty digits, without a sign; leading zeros are allowed. `--room=1` is no option.
//!
//! The words are read from left to right, and the first fault is answered: the place of a word, counted from 0, and a
//! cause (`cause`). At an option an unknown name comes before one that was given before, that before a value that isn't
//! there, and that before a value outside the table.
//!
//! What an option sets (`setting`) has its values, how often it may be given, and its usual value; the table (`table`) has a
//! row for each option, its word and the commands that take it.
//!
//! The definitions are in `specs/`, to be read in the order of `specs/Lib.antt`: what words write (`Numbers`), the table
//! of options (`Table`), the numbers of causes (`Causes`), what words say or the first fault in them (`Read`), the options
//! (`Options`), their settings (`Settings`) and the whole command (`Job`). They go over the list of words, two at a time,
//! with the options taken so far: how often one was given is counted in that list, and the settings are looked up in it.
//! `job` answers just `job_of` of its words, or want of memory. So a place is at most 41, and each byte of the words is
//! read once.
#![tactic(auto)]

/// The causes of faults in command words, by number.
pub mod cause;
mod choice;
mod command;
mod error;
mod jobs;
mod number;
mod options;
mod picks;
mod setting;
mod settings;
mod table;
mod words;

pub use error::WordError;
pub use jobs::Job;
pub use words::job;
