ghost use Rattle.std.specs.Prelude.{◌≡◌, IfOk, string_bytes};
ghost use Rattle.gp_report.specs.Fault.{fault_line};

use crate::refusal::Fault;
use gp_isa::{Memory, Text};
use std::alloc::Global;

// The line, with its line feed.
fn made(alloc: Global, what: &Fault) -> Result<String, Memory>
    ensures { IfOk result (λ line. string_bytes line ≡ fault_line what.now) }
{
    match *what {
        Fault::Usage { place, cause } => Ok(format!(in alloc; "usage {place} {cause}\n")?),
        Fault::Line { line, cause } => {
            Ok(format!(in alloc; "refused line {line} cause {cause}\n")?)
        }
        Fault::At { at, cause } => Ok(format!(in alloc; "refused at {at} cause {cause}\n")?),
        Fault::Long => Ok(String::from_str(alloc, "refused long\n")?),
        Fault::Read => Ok(String::from_str(alloc, "read fault\n")?),
    }
}

/// The line that tells why a command did nothing, with its line feed.
pub fn fault(alloc: Global, what: &Fault) -> Result<Text, Memory>
    ensures { IfOk result (λ line. line ≡ fault_line what.now) }
{
    Ok(Text::from_string(made(alloc, what)?))
}
