//! What profiles mean, as text.
use crate::readings::bytes_of;
use gp_build::meaning;
use gp_cases::{Page, Unanswered};
use gp_report::dump;
use gp_wire::decode;
use std::alloc::Global;

// Tells a text's lines. A number sign would begin a comment in the file of cases.
fn tell_lines(alloc: Global, page: &mut Page, text: &str) -> Result<(), Unanswered> {
    let text = text.replace(alloc, '#', "%")?;
    for line in text.lines() {
        page.line(line)?;
    }
    Ok(())
}

/// The text of what each row's profile means.
pub fn dumps(alloc: Global, page: &mut Page, rows: &[&str]) -> Result<(), Unanswered> {
    for row in rows {
        let bytes = bytes_of(alloc, row)?;
        let profile = decode(alloc, bytes.as_slice())
            .ok()
            .ok_or(Unanswered::Form)?;
        let meaning = meaning(alloc, &profile)?;
        let text = dump(alloc, &meaning)?;
        tell_lines(alloc, page, text.as_str())?;
    }
    Ok(())
}
