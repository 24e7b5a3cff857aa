use gp_cases::{Page, Unanswered};
use gp_io::Files;
use gp_isa::Content;
use std::alloc::{AllocError, Global};

/// Tells the names of files.
pub fn tell_names(page: &mut Page, files: &Files) -> Result<(), AllocError> {
    for file in files.iter() {
        page.text(" ")?;
        page.text(file.0.as_str())?;
    }
    Ok(())
}

/// Tells the bytes of files, each in a line.
pub fn tell_bytes(alloc: Global, page: &mut Page, files: &Files) -> Result<(), Unanswered> {
    for file in files.iter() {
        page.bytes(alloc, file.1.as_slice())?;
    }
    Ok(())
}

/// The bytes of the file of a name.
pub fn file_of<'a>(files: &'a Files, name: &str) -> Result<&'a Content, Unanswered> {
    for file in files.iter() {
        if file.0.as_str() == name {
            return Ok(&file.1);
        }
    }
    Err(Unanswered::Form)
}
