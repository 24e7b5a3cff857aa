//! Files of cases, which programs of tests walk: what is done, and what has to come of it; and what many cases are given.
//!
//! A case is a few lines, and an empty line ends it. Its first line is its kind with what that takes; the lines behind are its
//! rows. What has to come is told in lines too, each behind a `=`: in a line of its own, or behind a row and a blank. A line
//! with a `+` goes on with the line before. What stands behind a `#` is for the reader.
//!
//! ```text
//! # how often a word stands in a text
//! times ab
//! abab = 2
//! a long text that has it once
//! = 1
//! ```
//!
//! `<3 work @;>` stands for three copies, `work 1;work 2;work 3;`.
//!
//! [`walk`] goes over a file. It prints what comes in place of what has to, and how many cases and lines there were.
//!
//! Cases are given programs, in lines of words ([`program_of`]) or as files of functions that call one another ([`graph`]); command
//! lines ([`command_words`]); and sources, stores and sinks in memory, with calls that fail ([`Devices`]).
#![tactic(auto)]

mod case;
mod cases;
mod copies;
mod devices;
mod error;
mod graphs;
mod one_byte;
mod page;
mod parts;
mod reading;

pub use cases::{Teller, walk};
pub use devices::{Devices, Failing};
pub use error::Unanswered;
pub use graphs::{chain, graph};
pub use one_byte::OneByte;
pub use page::Page;
pub use parts::{parts_of, program_of};
pub use reading::{
    bytes, command_words, halves, integer, integers, lines, number_8, number_32, number_64, word,
    words,
};
