//! Entries and copies, in a line each.
use gp_cases::Page;
use gp_isa::Frame;
use gp_machine::Entry;
use gp_stack::Record;
use std::alloc::AllocError;

// An entry's name and its first two numbers.
fn parts_of(entry: &Entry) -> (&str, u64, u64) {
    match *entry {
        Entry::Start { w, g } => ("Start ", u64::from(w), u64::from(g)),
        Entry::Run { w, g, .. } => ("Run ", u64::from(w), u64::from(g)),
        Entry::Op { w, g } => ("Op ", u64::from(w), u64::from(g)),
        Entry::Tick { w, g } => ("Tick ", u64::from(w), u64::from(g)),
        Entry::Park { w, g } => ("Park ", u64::from(w), u64::from(g)),
        Entry::Open { epoch, room } => ("Open ", u64::from(epoch), u64::from(room)),
        Entry::Refuse { room, n } => ("Refuse ", u64::from(room), u64::from(n)),
        Entry::Record { actor, g } => ("Record ", u64::from(actor), u64::from(g)),
        Entry::Close { epoch } => ("Close ", u64::from(epoch), 0),
    }
}

fn tell_entry(page: &mut Page, entry: &Entry) -> Result<(), AllocError> {
    let (name, first, second) = parts_of(entry);
    page.number(name, first)?;
    match *entry {
        Entry::Close { .. } => Ok(()),
        Entry::Run { n, .. } => {
            page.number(" ", second)?;
            page.number(" ", n)
        }
        _ => page.number(" ", second),
    }
}

/// Tells entries, from one on.
pub fn tell_entries(page: &mut Page, entries: &[Entry], from: usize) -> Result<(), AllocError> {
    for (at, entry) in entries.iter().skip(from).enumerate() {
        page.text(if at == 0 { "\n" } else { ", " })?;
        tell_entry(page, entry)?;
    }
    Ok(())
}

fn tell_frames(page: &mut Page, frames: &[Frame]) -> Result<(), AllocError> {
    for frame in frames {
        page.number(" ", u64::from(frame.function))?;
        page.number(":", u64::from(frame.line))?;
    }
    Ok(())
}

/// Tells copies.
pub fn tell_copies(page: &mut Page, copies: &[(u32, Record)]) -> Result<(), AllocError> {
    page.line("copies")?;
    for (at, (epoch, record)) in copies.iter().enumerate() {
        page.number(if at == 0 { " " } else { ", " }, u64::from(*epoch))?;
        page.number(" ", u64::from(record.g))?;
        page.text(" at")?;
        tell_frames(page, record.stack.as_slice())?;
        page.number(" with ", u64::from(record.set))?;
    }
    Ok(())
}
