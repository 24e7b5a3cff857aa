use gp_cases::Unanswered;
use gp_isa::{Content, Program};
use gp_text::{print, read};
use std::alloc::Global;

/// The program of a file.
pub fn program_in(alloc: Global, file: &[u8]) -> Result<Program, Unanswered> {
    if file.len() > 65536 {
        return Err(Unanswered::Form);
    }
    read(alloc, file).ok().ok_or(Unanswered::Form)
}

/// Whether the text of a program's file is what is printed of the program that is read of it, and is printed again of what is
/// read of that.
pub fn is_printed_again(alloc: Global, file: &Content) -> Result<bool, Unanswered> {
    let first = print(alloc, &program_in(alloc, file.as_slice())?)?;
    let second = print(alloc, &program_in(alloc, first.as_bytes())?)?;
    Ok(first.as_bytes() == file.as_slice() && second.as_bytes() == first.as_bytes())
}
