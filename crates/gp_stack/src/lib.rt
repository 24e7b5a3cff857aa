//! Goroutines' bodies, and what a profile shows of a goroutine: its stack and its labels.
//!
//! A goroutine runs one function. What it passes is that function's trace, and where it stands is told by the
//! number of points that it has passed: its stack is that of its next point, and its labels are those of the last
//! `labels` point behind it, else the set that it was born with (`specs/Goroutine.antt`). A goroutine profile has one
//! `Record` a goroutine.
//!
//! A trace may have 2^40 points, and no code builds it. A `Body` walks it: it keeps a stack of levels, one for each
//! body of a function or loop that the goroutine is in, with the place of the next statement and the turns that
//! still come, and how many points of that statement were passed (`specs/kept/Level.antt`). The points that the levels
//! leave are the trace without the points passed (`StandsIn` of `specs/kept/Standing.antt`). Each call that takes a
//! program asks for a body that stands in that program, and leaves one. Between calls the next statement has a point of
//! its own, or the trace is ended: moves into calls and loops, back from them and into a loop's next turn are made at
//! once.
//!
//! An example, in which `main` has passed 5 of the 8 points of its trace: a whole turn of the loop with its call of
//! `f`, and in the second turn one of the three points of `work`.
//!
//! ```text
//! 1  func main {      levels, the innermost first        next statement     turns that  calls, loops that
//! 2  loop 2 {                                                               still come  may be entered
//! 3  call f           the body of f                      0: work, line 7    0           0, 8
//! 4  }                the loop's body, called on line 3  1: at its end      0           1, 7
//! 5  }                the body of main                   1: at its end      0           1, 8
//! 6  func f {
//! 7  work 3           count 5, and of the next statement 1 point was passed
//! 8  send c
//! 9  }
//! ```
//!
//! The level of `f` leaves three points of `work`, one of which was passed, and the send, each with the frame of line
//! 3 behind it; the others leave nothing. Together that is the last 3 points of the 8. The stack is `f` at line 7 and
//! `main` at line 3: the level around the body of a function called gives its caller's frame, at the statement before
//! its next one, and a level around a loop gives none.
//!
//! Levels find their statements by indices: a loop's body is looked up in the body around it, at most eight times, up
//! to the function's. Moves look a level up once, and keep what they found while they stay in it. `peek` goes over the
//! program's statements without moving the body. A look and a move take many statements at once by what the program
//! keeps of them (`gp_isa::Block`), without going into their calls and loops: a look those whose points are all local,
//! and `advance` those whose points are all work, so that they change no labels. A look takes a call by the first
//! shared point of its function, and the turns of a loop by the points of one turn. `advance` takes as many statements
//! as fit, found by steps that double and then by halves, and as many turns of a loop of work alone
//! (`specs/kept/Passing.antt`). So neither takes time by the points, or by the statements of a row. Only `vacant`,
//! `stack` and `record` take memory.
#![tactic(auto)]

mod body;
mod climb;
mod level;
mod peek;
mod place;
mod record;
mod statement;

pub use body::Body;
pub use gp_isa::Frame;
pub use peek::{Peek, Then};
pub use record::{Profiles, Record, Records, Stack};
pub use statement::Operation;
