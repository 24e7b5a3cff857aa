//! Rows behind a lock, and for each row one share outside: only who has both can change the row, and the two always agree.
//!
//! **What it is for.** Nothing is known of a value behind a lock, when the lock is taken, but what its type says. With a
//! share in its hands an actor knows a row of that value all the same: as long as it keeps the share, nobody else can
//! change the row, and what the share says is what the book says.
//!
//! **The calls.** `Book::new` takes all memory that a book ever needs, `issue` adds a row under the next number and gives
//! its share, `check` tells that a share's row is the book's, `set` changes both. Each takes constant time. A share has its
//! number and its row as data of its own, so what is said of a share, wherever it lies, names neither the book nor its
//! table; only that a share is of this book compares the two.
//!
//! **One word, and what is known beside it.** A book owns one word of an `atomic_table`, which is 0 and stays so. What
//! counts are the seats at that word: a seat has no bytes, can't be copied, and has a view, which exists in proofs alone
//! and changes only at a step on the word. The book's seat *keeps* all rows. A share's seat *claims* one number with a row.
//! The rule of the table (`specs/kept/Agreement.antt`) is a fact about all views there are: one seat alone keeps rows; each
//! number has one owner at most, the seat that claims it; and what is claimed is the row of that number. There are three
//! kinds of step, and each has to keep the rule:
//!
//! | step | what it does | in |
//! |---|---|---|
//! | join | the book's seat takes in a share's view, and so keeps the rows and claims the number | `check`, `set` |
//! | load | adds a row and claims it; or changes the row that is claimed; or changes nothing. It tells that the two agree | all |
//! | split | what is claimed goes to a new seat, the share's | all |
//!
//! **A worked picture**: a book of two rows, `x` and `y`, and `set` of share 1 to `z`.
//!
//! ```text
//!                the book's seat                 share 0's seat    share 1's seat
//!    before      keeps [x, y]                    claims 0: x       claims 1: y
//!    join        keeps [x, y], claims 1: y       claims 0: x       nobody
//!    load        keeps [x, z], claims 1: z       claims 0: x       nobody       by the rule, it was y
//!    split       keeps [x, z]                    claims 0: x       nobody       and a new seat claims 1: z
//! ```
//!
//! **Why nobody can forge a share.** A seat comes from `new`, as the book's, or by a split from another seat. A split gives
//! away what its seat claims, and no longer claims it; a seat claims a number by adding the row of that number, of which
//! the rule says that nobody claims it yet, or by taking in the seat that claimed it. So a number is claimed once, whatever
//! the threads do, and a share of another book has a seat of another table, which the book can't take in.
//!
//! **Why the two agree.** The row of a number changes only by a load of the seat that keeps the rows and claims that
//! number, which changes both at once. All other seats' claims are of other numbers.
#![tactic(auto)]

mod book;
mod row;
mod share;
mod steps;
mod view;

pub use book::Book;
pub use row::Row;
pub use share::Share;
