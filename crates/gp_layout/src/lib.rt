//! The layout of the ring of samples: what the bits of its words say, and where records come. After Go's
//! `runtime/profbuf.go`.
//!
//! **The ring.** One writer offers records and one reader takes them. Between them lie `len` data words and `tags` tag
//! words, used round and round, and five words more, all 0 at first:
//!
//! | word | bits | who writes it |
//! |---|---|---|
//! | `r` | 0 to 31 data count, 34 to 63 tag count, of what was taken | the reader |
//! | `w` | 0 to 31 data count, 34 to 63 tag count, of what was written; 32 and 33 are flags, 0 so far | the writer |
//! | overflow | 0 to 31 count of the pending loss, 32 to 63 change number | both, by exchange; a first loss by the writer alone |
//! | overflow time | the time of the first offer that the pending loss counts | the writer, while no loss is pending |
//! | end mark | 1 once no further record comes | the writer |
//!
//! Counts only grow. The word of data count c lies at place c modulo `len`, the tag of tag count t at t modulo `tags`.
//! Words between the counts of `r` and of `w` belong to the reader, all others to the writer; a count is raised only after
//! the words before it were written or read.
//!
//! **A record** is its number of words, its time, `hdrsize` header words and its stack. It lies in one piece. Where it
//! would reach over the end of the ring, the word at its place becomes 0, the mark, the words up to the end are passed
//! over, and it starts at place 0. A record has at least three words, so the mark is none. Its tag lies at its own place.
//!
//! ```text
//!    place 0         4              8              12        15
//!    | 8 t h s s s s s | .. free .. | 7 t h s s s s | .. | 0 |     a record of 8 words didn't fit behind the one of 7:
//!                      w            r                      mark    word 15 is the mark, and it starts at 0
//! ```
//!
//! **A loss.** Where there is no room for an offer it is counted: a first loss stores its time and then the overflow word,
//! with the next change number and count 1; a further one raises the count alone. While a loss is pending no record is
//! written before it: the writer writes the loss as a record of its own (header zeros, one stack word with the count, tag
//! 0) in front of the next one, once there is room for both; or the reader, having found the ring empty, takes it. Who
//! takes it does so by an exchange of the very word that it loaded, for one with the next change number and count 0, so
//! a loss is taken once, and by whom the other can tell.
//!
//! **Order of loads.** The reader loads the end mark, then overflow, then `w`. Records before a loss were published before
//! the loss was counted, so a loss that was seen stands behind all that `w` shows; and an end mark that was seen says that
//! the overflow word and `w` loaded after it are the last ones.
//!
//! Nothing here is kept and nothing waits: these functions compute places and words from words.
#![tactic(auto)]

mod overflow;
mod placed;
mod record;
mod room;
mod words;

pub use overflow::{bump, change_of, count_of, taken};
pub use placed::{Placed, place};
pub use record::{Laid, decode_at};
pub use room::{room_one, room_two};
pub use words::{raised, tags_of, words_of};
