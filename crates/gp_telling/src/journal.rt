use gp_cases::Page;
use gp_isa::Frame;
use gp_journal::Entry;
use std::alloc::AllocError;

// An entry's name and its numbers.
fn parts_of(entry: &Entry) -> (&str, u64, u64) {
    match *entry {
        Entry::Start { w, g } => ("Start ", u64::from(w), u64::from(g)),
        Entry::Run { w, g, .. } => ("Run ", u64::from(w), u64::from(g)),
        Entry::Op { w, g } => ("Op ", u64::from(w), u64::from(g)),
        Entry::Tick { w, g } => ("Tick ", u64::from(w), u64::from(g)),
        Entry::Park { w, g } => ("Park ", u64::from(w), u64::from(g)),
        Entry::Open { epoch, room } => ("Open ", u64::from(epoch), u64::from(room)),
        Entry::Refuse { room, n } => ("Refuse ", u64::from(room), u64::from(n)),
        Entry::Record { actor, g } => ("Record ", u64::from(actor), u64::from(g)),
        Entry::Close { epoch } => ("Close ", u64::from(epoch), 0),
    }
}

fn tell_entry(page: &mut Page, entry: &Entry) -> Result<(), AllocError> {
    let (name, first, second) = parts_of(entry);
    page.number(name, first)?;
    match *entry {
        Entry::Close { .. } => Ok(()),
        Entry::Run { n, .. } => {
            page.number(" ", second)?;
            page.number(" ", u64::from(n))
        }
        _ => page.number(" ", second),
    }
}

/// Tells a journal in a line.
pub fn tell_journal(page: &mut Page, journal: &[Entry]) -> Result<(), AllocError> {
    for (at, entry) in journal.iter().enumerate() {
        page.text(if at == 0 { "\n" } else { ", " })?;
        tell_entry(page, entry)?;
    }
    Ok(())
}

/// Tells frames, the leaf first, as function and line, each behind a mark.
pub fn tell_frames(page: &mut Page, mark: &str, frames: &[Frame]) -> Result<(), AllocError> {
    for frame in frames {
        page.number(mark, u64::from(frame.function))?;
        page.number(":", u64::from(frame.line))?;
    }
    Ok(())
}
