//! Channels and mutexes, on which goroutines wait in line.
//!
//! A channel has values in its buffer and two lines, of goroutines that wait to send and to receive; a mutex is held
//! or free and has one line. An operation is passed at once, or blocks its goroutine at the tail of a line, or wakes
//! the head of a line and is passed, or is a fault (`specs/Operations.antt`). A mutex whose holder unlocks it while one
//! waits is handed over: it stays held.
//!
//! `WaitLists` keeps the channels and mutexes of a program in place. Its value is a list of channels and one of mutexes,
//! each with who waits on it and since when, and a call does to them what the definition of its operation says: that
//! is its whole contract. A call takes constant time however many wait, and no memory.
//!
//! A goroutine waits in one line at most, so one link a goroutine serves all lines (`Lines`): each goroutine's entry
//! names who stands behind it, and a line is its head, its tail and its length. To join a line writes the link of its
//! tail; to leave one at its head writes no link. So the links in use are those of goroutines that stand in different
//! places, and a write for one line changes no other.
#![tactic(auto)]

mod effect;
mod lines;
mod wait_list;
mod wait_lists;

pub use effect::{Effect, Waiter};
pub use wait_lists::WaitLists;
