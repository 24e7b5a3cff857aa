use crate::error::Unanswered;
use std::alloc::Global;
use std::fmt::Write;

// Writes copies of a piece, given as how many and the piece.
fn copy(to: &mut String, copies: &str) -> Result<(), Unanswered> {
    let (count, piece) = copies.split_once(' ').ok_or(Unanswered::Form)?;
    let count: u32 = count.parse()?;
    for number in 1..=count {
        for (at, part) in piece.split('@').enumerate() {
            if at > 0 {
                write!(to, "{number}")?;
            }
            to.push_str(part)?;
        }
    }
    Ok(())
}

/// A file's text with the copies that it asks for.
pub(crate) fn expanded(alloc: Global, text: &str) -> Result<String, Unanswered> {
    let mut to = String::new(alloc);
    for (at, piece) in text.split(['<', '>']).enumerate() {
        if at % 2 == 1 {
            copy(&mut to, piece)?;
        } else {
            to.push_str(piece)?;
        }
    }
    Ok(to)
}
