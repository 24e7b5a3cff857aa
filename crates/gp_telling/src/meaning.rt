use gp_build::meaning;
use gp_cases::{Page, Unanswered};
use gp_isa::Content;
use gp_wire::decode;
use std::alloc::Global;

/// Tells what the profile in a file means, a line for each of its lines, or for each of its samples.
pub fn tell_meaning(
    alloc: Global,
    page: &mut Page,
    file: &Content,
    samples_alone: bool,
) -> Result<(), Unanswered> {
    let profile = decode(alloc, file.as_slice()).ok().ok_or(Unanswered::Form)?;
    let text = gp_report::dump(alloc, &meaning(alloc, &profile)?)?;
    for line in text.as_str().lines() {
        if !samples_alone || line.starts_with("sample") {
            page.line(line)?;
        }
    }
    Ok(())
}
