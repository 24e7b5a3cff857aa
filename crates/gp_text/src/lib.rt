//! The reader of program files: bytes to a checked program, or the line and the cause of the first fault.
//!
//! A file is its lines (`lines`), the pieces between LF bytes; the last LF may be missing. A line is its words (`words`), the
//! pieces between blanks; its first word tells what it says (`said`): it declares a name, begins a loop, is a statement or a
//! closing brace, or says nothing. What is allowed hangs on whether a function is open there, so lines are told what they say
//! one after another, with how many bodies are open.
//!
//! ```text
//!    line                 says                    open before it
//!    chan jobs 8          declares a channel      0
//!    func main {          declares a function     0
//!    loop 2 {             a loop, 2 turns         1
//!      send jobs          sends into `jobs`       2
//!    }                    closes the loop         2
//!    }                    closes the function     1
//! ```
//!
//! Three passes go over what the lines say, and the first one that finds a fault gives the refusal. The first goes from
//! line to line (`faults`): a line that isn't UTF-8, that has no form allowed at its place, a number or a count out of range, a
//! name declared twice; and after the last line a function that isn't closed. The second (`unknown`) looks for names that
//! nobody declares, which may be declared behind their use. Then the parts are built (`build`, `declare`), and the third pass
//! is `check` of `gp_isa`, whose causes stand at the line of a function's header, or at line 0 where there is no `main`.
//!
//! Blocks nest, and the builder goes into a loop by calling itself, at most nine deep. Their definition goes the other way:
//! from the last line back, each line is put in front of the blocks that the lines behind it end.
//!
//! [`print`] puts each part of a program on its line of a page (`page`), and so finds back the lines of the file that it was
//! read from, without comments, blanks and zeros that lead.
//!
//! `specs/Line.antt` has what a line says, `specs/Fault.antt` the faults of the first two passes as functions of what
//! the lines before a line said, `specs/Reading.antt` the parts and `program_of`, which [`read`] gives exactly, and
//! `specs/Text.antt` the text of a program.
//! Names are looked up in sets of borrowed bytes with hashes, so the time of reading grows with the length of the file.
#![tactic(auto)]

mod build;
mod cause;
mod declare;
mod error;
mod faults;
mod lines;
mod marks;
mod names;
mod page;
mod printing;
mod reading;
mod said;
mod space;
mod spaces;
mod unknown;
mod verb;
mod words;

pub use cause::Cause;
pub use error::TextError;
pub use printing::print;
pub use reading::read;
