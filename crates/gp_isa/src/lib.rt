//! Programs of the goroutine machine: what a program file declares, and the check that makes a program of it.
//!
//! A file declares functions, channels, mutexes and label sets (`Parts`), each named in statements by its place in its
//! list, label sets counted from 1. Statements are a tree: a loop holds statements, at most eight loops deep.
//! `Parts::in_limits` tells whether parts lie in their limits (`specs/InLimits.antt`). `check` takes such parts and gives
//! a `Program` (`specs/Calls.antt`): the function `main` is there, no function and no loop is empty, no function can
//! call itself, and no trace has more than 2^40 points.
//!
//! What a program does is its trace (`specs/Trace.antt`): the list of points that whoever runs a function passes.
//! No code builds that list. `check` finds how long the traces are, how deep their stacks, whether all their points are
//! local or work, and their first shared point (`specs/Size.antt`). It takes callees first: the sizes of the functions
//! called are there when a function's statements are walked over, so that one walk gives its size, and with it all that is
//! kept of its statements (`specs/kept/Walks.antt`). The order is told by ranks. A table with a mark for each two
//! functions, which for one function after the other takes up the ways through it, says who leads to whom: so it tells
//! who can call itself, and where none can, calls lead to fewer functions from a function called than from its caller.
//! The time grows with the statements and not with the ways of calls. `Program` keeps the sizes, and `depth`, `length`
//! and `size` read them off.
//!
//! It also keeps an entry of 24 bytes for each statement (`specs/kept/Blocks.antt`): how many points there are from it to
//! its body's end, so that those between two statements are a difference, and how many statements from it on have local
//! points alone, and work alone. A loop's entry says where those of its body begin. A `Block` is a body with its entries,
//! and tells such runs of statements (`specs/Block.antt`) without a walk over them. `loops` is how many loops stand inside
//! each other in any function (`specs/Nesting.antt`), so that a goroutine needs no room for more.
//!
//! The crate also has what all crates above share: `Memory` for want of memory, `Text`, and `Sequence`, a `Vec`
//! that contracts see as a list, with `Content` for bytes.
#![tactic(auto)]

mod bad;
mod block;
mod calls;
mod empty;
mod frame;
mod in_limits;
mod laws;
pub mod limits;
mod memory;
mod parts;
mod program;
mod sequence;
mod size;
mod statement;
mod suffix;
mod text;
mod walk;

pub use bad::Bad;
pub use block::{Block, Run};
pub use frame::Frame;
pub use laws::law_trace;
pub use memory::Memory;
pub use parts::{
    ChannelDecl, Channels, Function, Functions, LabelSet, LabelSets, MutexDecl, Mutexes, Pair,
    Pairs, Parts,
};
pub use program::{Program, check};
pub use sequence::{Content, Sequence};
pub use size::{Shared, Size};
pub use statement::{Stmt, Stmts, What};
pub use text::Text;
