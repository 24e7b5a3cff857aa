//! The generator: a program of any size, made by stated rules.
//!
//! For a number `n` and a number `q` of rounds, 1 to 63, `main` gives birth to `q` times 16 goroutines, one of each kind in
//! turn, and receives from a channel as often. A goroutine of kind j sets its labels, and four times works and calls the
//! callee of its kind, which works under one of four mutexes; then it sends. The channel has room for all of them, so no send
//! waits, and all are dead once `main` has received the last. How much they work depends on `n` and on the kind: 1,000 to
//! 1,096 instructions in the caller, and 10 to 22 in the callee.
//!
//! `specs/Generated.antt` has the program line by line, as its file reads once it is printed, and [`program`] gives exactly
//! that. Its parts always lie in the limits of programs and pass the check ([`law_generated`]), so that only memory can be
//! wanting.
#![tactic(auto)]

mod declared;
mod functions;
mod generator;
mod work;

pub use generator::{law_generated, program};
