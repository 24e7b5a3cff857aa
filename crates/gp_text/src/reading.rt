ghost use Rattle.std.specs.Prelude.{◌≡◌, ◌<◌, ◌^◌, length, map, IfOk, IfErr};
ghost use Rattle.gp_isa.specs.declared.parts.Parts.{Parts};
ghost use Rattle.gp_isa.specs.declared.parts.Function.{Function};
ghost use Rattle.gp_isa.specs.Calls.{IsCause};
ghost use Rattle.gp_isa.specs.InLimits.{AreInLimits};
ghost use Rattle.gp_text.specs.Reading.{Gives, checked, program_of, header_line, IsRefusalOf};

use crate::build::parts;
use crate::cause::Cause;
use crate::error::TextError;
use crate::faults::declared;
use crate::lines::said_lines;
use crate::unknown::unknown_place;
use gp_isa::{Bad, Memory, Parts, Program, check};
use std::alloc::Global;

// The lines of the functions' headers.
fn header_lines(alloc: Global, parts: &Parts) -> Result<Vec<u32>, Memory>
    ensures { IfOk result (λ lines. lines.items ≡ map (λ (f : Function). f.line) parts.now.functions) }
{
    let mut lines = Vec::new(alloc);
    for function in parts.functions.as_slice() {
        lines.push(function.line)?;
    }
    Ok(lines)
}

// The refusal for a cause that stands at a function's header.
fn at_header(lines: &[u32], function: u32, cause: Cause) -> TextError
    ensures { (parts : Parts) → lines.now ≡ map (λ (f : Function). f.line) parts.functions →
        result ≡ TextError.Refused (header_line parts function) cause }
{
    TextError::Refused {
        line: lines.get(function as usize).copied().unwrap_or(0),
        cause,
    }
}

// Why parts with headers on these lines are no program.
#[tactic(auto, unfolding(crate::specs::Reading::checked))]
fn refusal(lines: &[u32], bad: Bad) -> TextError
    ensures { (parts : Parts) → lines.now ≡ map (λ (f : Function). f.line) parts.functions →
        IsCause parts bad → IsRefusalOf (checked parts) result }
{
    match bad {
        Bad::NoMain => TextError::Refused {
            line: 0,
            cause: Cause::NoMain,
        },
        Bad::Empty { function } => at_header(lines, function, Cause::Empty),
        Bad::Recursion { function } => at_header(lines, function, Cause::Recursion),
        Bad::TooLong { function } => at_header(lines, function, Cause::TooLong),
        Bad::Memory => TextError::Memory,
    }
}

// The third pass.
fn checked(alloc: Global, parts: Parts) -> Result<Program, TextError>
    requires { AreInLimits parts }
    ensures ok { IfOk result (λ program. checked parts ≡ Gives program) }
    ensures refused { IfErr result (IsRefusalOf (checked parts)) }
{
    let lines = header_lines(alloc, &parts)?;
    match check(alloc, parts) {
        Ok(program) => Ok(program),
        Err(bad) => Err(refusal(lines.as_slice(), bad)),
    }
}

/// Reads a program file: the program whose text the bytes are, or the line and the cause of the first fault, each
/// exactly where `program_of` gives it. Lines are counted from 1, and line 0 stands for the whole file.
///
/// Words are separated by spaces, tabs and CRs; a line whose first word begins with `#` says nothing. A file declares up to
/// 256 functions (`func NAME {` to `}`), up to 1,024 channels (`chan NAME NUM`, capacities up to 65,535), up to 1,024 mutexes
/// (`mutex NAME`) and up to 255 label sets (`labels NAME KEY=VALUE ..`, up to 16 pairs). A name is a letter or `_` with up to
/// 63 letters, digits, `_` and `.` behind it; a number has one to twenty digits. Statements are `work NUM`, with 1 to
/// 4,294,967,295 instructions, `loop NUM {` to `}`, with as many turns and up to eight deep, and `call`, `spawn`, `send`,
/// `recv`, `lock`, `unlock` and `labels`, each with a name.
///
/// Memory is taken for what the lines say, for the names and for the program; `TextError::Memory` where it is refused.
/// The time of reading grows with the length of the file, and that of the check is told there.
pub fn read(alloc: Global, bytes: &[u8]) -> Result<Program, TextError>
    requires short { length bytes.now < 2 ^ 32 }
    ensures ok { IfOk result (λ program. program_of bytes.now ≡ Gives program) }
    ensures refused { IfErr result (IsRefusalOf (program_of bytes.now)) }
{
    let lines = said_lines(alloc, bytes)?;
    let said = lines.as_slice();
    let spaces = declared(alloc, said)?;
    if let Some(at) = unknown_place(&spaces, said) {
        return Err(TextError::Refused {
            line: at as u32 + 1,
            cause: Cause::UnknownName,
        });
    }
    let parts = parts(alloc, &spaces, said)?;
    checked(alloc, parts)
}
