//! The top calls: command words and a program file in, profiles out.
//!
//! [`top`] serves all commands. It does a `run` itself (`threads`), and hands other words to [`plain_top`] (`plain`), which has no
//! threads and always returns; words that begin with `run` are at fault there.
//!
//! A program goes one way, whoever makes its run. The words name a file, or two numbers, and options (`gp_words`). The source
//! is read to its end, and its bytes give a program (`gp_text`) or are refused (`load`); or the program is made of the numbers
//! (`gp_gen`) and its text is put as `gen.gp` (`generate`). The program is run, for `sim` and `gen` in the order that the options'
//! numbers choose (`gp_sim`, `by_numbers`), for `run` on threads (`gp_workers`, `by_threads`). From there on nobody asks which it
//! was: what a complete run tells is its report (`report`). Each goroutine profile that was opened, and then the CPU
//! profile, the block profile and the mutex profile (`gp_build`), becomes bytes (`gp_wire`) and is put into the store (`save`);
//! then the summary (`gp_report`) is written to the sink. How all that went is the exit status (`finish`).
//!
//! ```text
//! words --- run --> load -----> by_threads --\
//!       --- sim --> load -----> by_numbers ---+--> report --> save --> finish: the summary, the status
//!       --- gen --> generate -> by_numbers --/
//!       --- dump -> dumping: the text, the status
//! ```
//!
//! `dump` goes another way (`dumping`): the source is read to its end, its bytes give a profile (`gp_wire`) or are refused, and
//! the text of what it means (`gp_build`, `gp_report`) is written to the sink.
//!
//! What stops a job before its run, or before its text (`stop`), ends it, and where that isn't want of memory its line is
//! written to the sink (`gp_report`, `refusal`):
//!
//! ```text
//! words          sim a.gp --room 1 --room 1        sim a.gp                  sim b.gp
//! source         (not read)                        "func main {\nwork 0\n}"  (a read fails)
//! stop           Usage { place: 4, cause: 5 }      Line { line: 2, cause: 4 } Read
//! sink gains     "usage 4 5\n"                     "refused line 2 cause 4\n" "read fault\n"
//! status         1                                 2                         3
//! ```
//!
//! What the calls promise is in `specs/Top.antt`, to be read last: `Report` says what a report tells of its journal, `Exit`
//! what each exit status means and `Status` which one a run comes to, `Files` which files it puts and what its summary is,
//! `Putting` what a store and a sink tell of that, `Task` what is run, and `Asked` what the words ask for. No clause names an
//! order of threads. So all hold for every interleaving, and none tells that threads made the run.
#![tactic(auto)]

mod by_numbers;
mod by_threads;
mod dumping;
mod finish;
mod generate;
mod load;
mod outcome;
mod plain;
mod refusal;
mod report;
mod running;
mod save;
pub mod status;
mod stop;
mod threads;
mod totals;

pub use gp_report::Report;
pub use outcome::Outcome;
pub use plain::plain_top;
pub use threads::top;
