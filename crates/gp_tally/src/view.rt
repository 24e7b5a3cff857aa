//! What the book and the shares know of each other. None of it exists when the program runs.
use crate::row::Row;
use std::collections::LinkedList;

/// What a seat knows: the book's all rows, and a share's its number and its row. A book with a share in hand knows both. No
/// value of it is made.
pub(crate) struct View {
    pub(crate) keeps: bool,
    pub(crate) rows: LinkedList<Row>,
    pub(crate) claims: bool,
    pub(crate) number: u32,
    pub(crate) claim: Row,
}
