//! What a run leaves behind, entry by entry: the machine with its journal, the records of its goroutine profiles, and the
//! sums of its block and mutex events.
//!
//! A `History` is what whoever drives a run keeps of it. Its value is the journal, and all that it keeps beside are
//! functions of the journal: the machine's state; for each profile that was opened the list of its records, which
//! are the rows of its Record entries in their order (`records_of` of `gp_journal`), so that sorted they are the rows of
//! all goroutines that were live at its Open; and the sums of its block and mutex events (`specs/Events.antt`). There is
//! one call for each kind of entry, in place, which takes what the entry leaves and carries all of that on: `enter` for
//! entries of workers that are no Op and for a Refuse, `operate` for an Op, or `enter_op` where all that it did is to be
//! told, `open`, `record` with the copy of the goroutine's row, and `close`. Who acts, and where bodies stand, is the
//! driver's.
//!
//! Beside `new` only the two calls for an Op take memory, where an event is added whose stack wasn't met before, and they
//! do so before anything changes. `new` reserves a list for each request, with room for as many records as a profile can
//! have: no more than there are cells, and no more than the room that the options give, above which a profile is refused.
//! That it is enough follows from a law of journals: the records made and the goroutines that have still to be recorded
//! are together those that were live at the Open.
//!
//! What one Record leaves: `main` has spawned goroutine 1, and one profile is asked for, with room for three records.
//! `·` is a place that is reserved. `record(1, 0, copy)` is the profiler's entry for goroutine 0, which stands at line 3
//! of `main`, and `copy` is its row.
//!
//! ```text
//!          machine                                                    records of profile 1        to be recorded
//!          Start{0, 0} Op{0, 0} Park{0, 0}                            ·  ·  ·     not begun
//! open     Start{0, 0} Op{0, 0} Park{0, 0} Open{1, 3}                 ·  ·  ·     begun           0 and 1
//! record   Start{0, 0} Op{0, 0} Park{0, 0} Open{1, 3} Record{1, 0}    (0, main:3, no labels)  ·  ·    1
//! ```
//!
//! What an Op leaves is told beforehand by `foresee`, so that the driver copies a stack only where an event is kept: the
//! wait that it ends (at block rate 1), or the wait of the first waiter for a mutex that it unlocks, where the choice keeps
//! that one. At block rate 1 and mutex fraction 1, with a goroutine 0 at line 8 that unlocks a mutex for which goroutine 1
//! has waited since clock 1000, at line 13:
//!
//! ```text
//! clock 1005   Op{0, 0}   goroutine 0 unlocks, 1 is woken   mutex: at line 8, 1 more, and 5000 ns
//! clock 1012   Op{0, 1}   goroutine 1 passes its lock       block: at line 13, 1 more, and 5000 ns
//! ```
//!
//! `specs/Events.antt` has the events of a journal, `specs/History.antt` what the calls ask for; `specs/Recorder.antt` what the lists
//! are to the history, and `specs/kept/` what is kept in place.
#![tactic(auto)]

mod history;
mod op_event;
mod recorder;
mod rows;
mod wait_sums;

pub use history::{History, HistoryParts};
pub use op_event::OpEvent;
