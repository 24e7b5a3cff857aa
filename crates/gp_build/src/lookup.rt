//! What a program says of the functions and label sets that samples name by numbers.

ghost use Rattle.std.specs.Prelude.{◌≡◌};
ghost use Rattle.gp_build.specs.Site.{function_of, name_of, file_of, header_of, labels_of};

use crate::site::Routine;
use gp_isa::{Pair, Parts};

/// The name of a function of the program.
pub(crate) fn name_at<'a>(parts: &'a Parts, f: usize) -> &'a str
    ensures { result.now ≡ (function_of parts.now f).name }
{
    match parts.functions.get(f) {
        Some(function) => function.name.as_str(),
        None => "",
    }
}

/// The name of a function.
#[tactic(auto, unfolding(crate::specs::Site::name_of))]
pub(crate) fn name<'a>(parts: &'a Parts, routine: Routine) -> &'a str
    ensures { result.now ≡ name_of parts.now routine }
{
    match routine {
        Routine::Numbered(f) => name_at(parts, f as usize),
        Routine::LostEvents => "runtime/pprof.lostProfileEvent",
    }
}

/// The name of the file that a function stands in, where `file` is the program's.
#[tactic(auto, unfolding(crate::specs::Site::file_of))]
pub(crate) fn filename<'a>(file: &'a str, routine: Routine) -> &'a str
    ensures { result.now ≡ file_of file.now routine }
{
    match routine {
        Routine::Numbered(_) => file,
        Routine::LostEvents => "",
    }
}

/// The line of a function's header.
#[tactic(auto, unfolding(crate::specs::Site::header_of))]
pub(crate) fn header_line(parts: &Parts, routine: Routine) -> u32
    ensures { result ≡ header_of parts.now routine }
{
    match routine {
        Routine::Numbered(f) => parts
            .functions
            .get(f as usize)
            .map_or(0, |function| function.line),
        Routine::LostEvents => 0,
    }
}

/// The pairs of a label set, of which set 0 has none.
pub(crate) fn labels<'a>(parts: &'a Parts, set: u8) -> &'a [Pair]
    ensures { result.now ≡ labels_of parts.now set }
{
    if set == 0 {
        return &[];
    }
    match parts.labels.get(set as usize - 1) {
        Some(set) => set.pairs.as_slice(),
        None => &[],
    }
}
