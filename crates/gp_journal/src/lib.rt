//! The journal: what happens in a run, as a list of entries, and what holds of every legal one.
//!
//! Workers run goroutines, one each, and every step is one entry of the journal. A worker that runs one has exactly
//! one entry that is due: a Tick where a CPU sample is due, a Park where its goroutine has to make way (to a profile, at
//! the run's end, or after 1,000 instructions), an Op where the next point is shared, else a Run of local points. A
//! worker that runs nothing may Start any runnable goroutine. One more actor, the profiler, opens a goroutine profile
//! while nobody runs, or refuses it where more goroutines are live than the room allows; then goroutines run again,
//! each recorded before it does, by the profiler or by an idle worker, and the profile is closed once all are. Epochs
//! number the profiles, and a goroutine whose epoch is below the active one has still to be recorded.
//!
//! A run of `func main { spawn f, work 5 }` and `func f { work 2 }` by one worker, with a profile asked for at clock 1.
//! Main is goroutine 0; the worker is actor 0, and the profiler actor 1:
//!
//! ```text
//! entry           clock  runs  queue  to record
//! Start{0, 0}         0     0      -          -
//! Op{0, 0}            1     0      1          -  main spawns goroutine 1
//! Park{0, 0}          1     -    1 0          -  a profile is asked for, so main makes way
//! Open{1, 2}          1     -    1 0        0 1  what is live now has to be recorded before it runs again
//! Record{1, 0}        1     -    1 0          1  the profiler takes main's row
//! Record{1, 1}        1     -    1 0          -
//! Close{1}            1     -    1 0          -
//! Start{0, 1}         1     1      0          -
//! Run{0, 1, 2}        3     -      0          -  the trace of goroutine 1 is at its end
//! Start{0, 0}         3     0      -          -
//! Run{0, 0, 5}        8     -      -          -  and so is main's: the run is over
//! ```
//!
//! This crate has the data (entries, goroutines, workers, options, answers) and the definitions, and runs nothing:
//! `gp_machine` runs by them. They are in `specs/`, to be read in this order: `Settings`, `State` (what a machine
//! keeps), `Due` (when a profile is asked for, when a run is over, what is due), `May` (the condition of each entry),
//! `Effect` (what each entry does), `Answer` (what it tells), `Run` (legal journals), `Frozen` (the rows of a profile),
//! `Waiting` (places in wait lists), `Standing` (who stands first), `Actors` (who makes each entry), `Reached` (states
//! of legal journals). `JournalLaw`, `RunLaws`, `NumberLaws` and `StepLaws` say the laws, `Worked` has journals worked out by
//! hand, with what is told after each entry (`Told`).
//!
//! Promised, of every legal journal of every program (`law_journal`): while a profile is active a running goroutine has
//! its epoch, and one that has still to be recorded stands where it stood at the Open, even where it was woken since;
//! so the rows taken at the Record entries are, sorted, the rows of all goroutines live at the Open, each once.
//! `law_runs` and `law_numbers` have the other laws: prefixes, births, who runs on which worker, who stands in the queue,
//! waits, refusals, ends, bounds on entries, clock, slices, births and epochs, and the order of clocks and of epochs.
//! `law_entries` says what single entries leave, and what they do to the queue. `law_records`: the records of each
//! profile (`Profiles`), the rows of its Record entries in their order, which sorted are the frozen rows at its Open.
//! `law_waits`: the waits that Ops end and those at contended unlocks (`Waits`), of which block and mutex profiles are made.
//! `Bodies` says where bodies stand that stand where their goroutines do, and `Shown` what they show of them.
//! Crates above take their lemmas from `proofs/Lemmas.antt` alone.
#![tactic(auto)]

mod answer;
mod entry;
mod goroutine;
mod laws;
mod run;
mod settings;

pub use answer::{Applied, Foreseen, NO_CELL, SharedPoint, UNLOCK_OF_FREE, Wait, Woken};
pub use entry::{Counts, Ended, Entry, Journal, Refusals};
pub use goroutine::{Goroutine, Status, Worker};
pub use laws::{
    law_entries, law_journal, law_numbers, law_records, law_runs, law_waits, law_worked,
};
pub use run::Run;
pub use settings::{Picks, Request, Requests, Settings};
