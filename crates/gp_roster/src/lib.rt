//! The book of a run's goroutines: a row for each, by which whoever has a body outside of a lock knows where its goroutine stands.
//!
//! Bodies stand in cells outside of the lock (`gp_cells`), and the state of the run stands behind it. What ties the two is a book
//! of `gp_tally` that is kept beside the state: it has a row for each goroutine that was born, and the row's share travels with
//! the body. **The rows are a function of the state** (`rows_of`), so that nothing of them is counted up:
//!
//! | number | what it says of the goroutine |
//! |---|---|
//! | a | the function that it runs |
//! | b | the label set that it was born with |
//! | c | how many points it has passed |
//! | d | one above its number where it is live, else 0 |
//!
//! Where share and book come together, in a turn of the lock, the share's row is the book's (`Book::check`), and so a body that is
//! in step with its share (`IsInStep` of `gp_cells`) stands where its goroutine stands in the state.
//!
//! **Which row an entry changes** (`RowsFollow`): a Run and an Op may change that of the goroutine that makes it, and a spawn puts
//! the newborn's row behind the others. All other rows stay, a wake included, since a woken goroutine passes its point at its own
//! next Op. So after an entry one call is made, `follow`, with the share of the goroutine that made it, and after a birth one
//! more, `bear`, which gives the newborn's share.
//!
//! Goroutine 0 spawns goroutine 1 with its third point, at line 5 of function 0, and dies with its fifth:
//!
//! ```text
//!                       row 0           row 1           the call
//! before                (0, 0, 2, 1)
//! Op{0, 0}, the spawn   (0, 0, 3, 1)    (1, 0, 0, 2)    follow with the share of 0, and bear
//! Park{0, 0}            (0, 0, 3, 1)    (1, 0, 0, 2)    none
//! Run{0, 0, 2}          (0, 0, 5, 0)    (1, 0, 0, 2)    follow with the share of 0
//! ```
//!
//! **A live goroutine's trace isn't ended** (`LiveRowsAreLive`), in any legal journal of a checked program: whoever passes its last
//! point dies with it, and whoever is born has a point, since a function has a statement, a loop has turns, and no function can
//! call itself. So each live row is live in the sense of `gp_cells`, and a body may go home to its cell.
//!
//! `specs/Rows.antt` has the rows, `specs/RowLaws.antt` the laws, `specs/Lent.antt` says what a body on loan is to a call behind the
//! lock, and what one is whose goroutine is ahead of it. Crates above take their lemmas from `proofs/Lent.antt` (what a body on loan
//! tells), `proofs/Leaving.antt` (what an entry leaves of it), and the last part of `proofs/RowsFollow.antt` (rows kept beside a journal).
#![tactic(auto)]

mod laws;
mod roster;

pub use laws::law_rows;
pub use roster::{bear, begun, follow, row_of};
