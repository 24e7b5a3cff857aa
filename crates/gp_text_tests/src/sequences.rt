//! The lists and texts that all crates share.
use gp_cases::{Page, Unanswered};
use gp_isa::{Content, Text};
use std::alloc::Global;

/// What a list of one byte and a text of four give back.
pub fn shown(alloc: Global, page: &mut Page) -> Result<(), Unanswered> {
    let mut bytes = Content::new(alloc);
    page.debug("\n", &bytes.is_empty())?;
    bytes.push(7)?;
    let copy = Content::from_slice(alloc, bytes.as_slice())?;
    page.number(" ", copy.len() as u64)?;
    page.debug(" ", &copy.get(0).copied())?;
    page.number(" ", copy.iter().count() as u64)?;
    let again = Content::from_vec(copy.into_vec());
    page.debug(" ", &again.as_slice())?;
    let text = Text::from_string(Text::from_str(alloc, "main")?.into_string());
    page.text(" ")?;
    page.text(text.as_str())?;
    page.debug(" ", &text.as_bytes())?;
    page.number(" ", text.len() as u64)?;
    Ok(())
}
