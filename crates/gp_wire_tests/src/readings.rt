//! Profiles as bytes, in hexadecimal text, and what is read of them.
use gp_cases::{Page, Unanswered, bytes};
use gp_wire::{Profile, WireError, decode, write};
use std::alloc::Global;

/// Tells the bytes of a profile.
pub fn tell_bytes(alloc: Global, page: &mut Page, profile: &Profile) -> Result<(), Unanswered> {
    let bytes = write(alloc, profile)?;
    page.bytes(alloc, bytes.as_slice())
}

/// The bytes of a row.
pub fn bytes_of(alloc: Global, row: &str) -> Result<Vec<u8>, Unanswered> {
    if row == "none" {
        return Ok(Vec::new(alloc));
    }
    bytes(alloc, row)
}

fn tell_refusal(page: &mut Page, error: WireError) -> Result<(), Unanswered> {
    match error {
        WireError::Refused { at, cause } => {
            page.number("at ", at as u64)?;
            page.number(" cause ", u64::from(cause.number()))?;
            Ok(())
        }
        WireError::Memory => Err(Unanswered::Memory),
    }
}

/// The canonical bytes of the profile that each row is, or the place and the number of the cause.
pub fn readings(alloc: Global, page: &mut Page, rows: &[&str]) -> Result<(), Unanswered> {
    for row in rows {
        let bytes = bytes_of(alloc, row)?;
        match decode(alloc, bytes.as_slice()) {
            Ok(profile) => tell_bytes(alloc, page, &profile)?,
            Err(error) => {
                page.line("")?;
                tell_refusal(page, error)?;
            }
        }
    }
    Ok(())
}

/// What is read of the first bytes, behind each of them.
pub fn prefixes(alloc: Global, page: &mut Page, row: &str) -> Result<(), Unanswered> {
    let bytes = bytes_of(alloc, row)?;
    for len in 0..bytes.len() + 1 {
        page.number("\n", len as u64)?;
        page.text(": ")?;
        match decode(alloc, &bytes[..len]) {
            Ok(_) => page.text("read")?,
            Err(error) => tell_refusal(page, error)?,
        }
    }
    Ok(())
}
