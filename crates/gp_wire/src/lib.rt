//! Profiles as bytes: the messages of `profile.proto`, as `google/pprof` and Go's `runtime/pprof` write them,
//! uncompressed.
//!
//! A `Profile` holds the message `Profile` and the messages within it. Texts stand in its string table, and
//! locations and functions have ids; all other messages name them by those numbers.
//!
//! On the wire a message is a list of fields, one after another. A field is a key (the field's number times 8,
//! and its wire type), and a varint (wire type 0), or a part of bytes with its length in front (wire type 2): a
//! text, repeated numbers, or a message within the message.
//!
//! `write` gives the canonical bytes. The fields of each message stand in the order of their numbers, repeated
//! ones in the order of their list, and repeated numbers in one part. A number that is 0 and an empty repeated
//! field aren't written. A text of the string table is written even where it is empty, and so is a message
//! without content. Every profile has canonical bytes, also one whose ids and places lead nowhere.
//!
//! The definition of the bytes has two steps, which stand apart: the list of fields of each message
//! (`specs/Canonical`), and the spelling of a list of fields (`specs/Field`, `specs/Varint`).
//!
//! `decode` reads any bytes, whoever wrote them, field by field and once. Here a sample names location 1 by a number that
//! stands alone, has an unknown field 9 and a value in a part, and a later field cuts its part:
//!
//! ```text
//! 12 07 | 08 01 | 48 05 | 12 01 07      sample: location_id 1, field 9, value [7]
//! 32 00                                 string_table: the empty text
//! 12 03 | 12 02 80                      sample: the part of its values ends behind the 3 bytes of the sample
//!                                       refused at 11, where this field's key begins, cause 1
//! ```
//!
//! What bytes mean is defined in layers as well, from the front: a number and a field (`specs/Front`), packed numbers
//! (`specs/Packed`), the list of a message's fields and its first fault (`specs/Fields`, the faults inside a field in
//! `specs/Checks`), what fields give as filters over that list (`specs/Messages`), and the faults of a profile as a whole
//! (`specs/Valid`). `value_of` (`specs/Reading`) is the profile or the refusal, and `decode` answers just that. The code has
//! one loop for all messages (`merge`), which keeps what the fields so far give, and a table for each message (`layout`).
//!
//! `law_round_trip` says that what is written is read again, over these definitions alone (`specs/RoundTrip`).
#![tactic(auto)]

mod cause;
mod decoding;
mod encoding;
mod error;
mod field;
mod front;
mod laws;
mod layout;
mod merge;
mod message;
mod packed;
mod profile;
mod taking;
mod whole;
mod writing;

pub use cause::Cause;
pub use decoding::decode;
pub use error::WireError;
pub use laws::law_round_trip;
pub use profile::{
    Function, Functions, Label, Labels, Line, Lines, Location, Locations, Profile, Sample, Samples,
    Strings, ValueType, ValueTypes, Values, Words,
};
pub use writing::write;
