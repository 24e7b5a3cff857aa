ghost use Rattle.std.specs.Prelude.{◌⊎◌, ◌++◌, [], ◌∷◌, ℕ, List, map, IfOk, OnOk, OnErr, string_bytes};
ghost use Rattle.gp_io.specs.OfSystem.{Made, Taken, Written, Cut, Renamed, NotRenamed, Makes, MakesNoFile, PutsWell, PutsInVain};

use crate::source::Failed;
use crate::system::folder::{Folder, NotMade};
use std::alloc::Global;

// How many names are tried for the file that is written before it is renamed.
const TRIES: u32 = 1000;

// The name that is tried by this number.
fn name_beside(alloc: Global, name: &str, number: u32) -> Result<String, Failed> {
    match format!(in alloc; "{name}.{number}.tmp") {
        Ok(beside) => Ok(beside),
        Err(_) => Err(Failed),
    }
}

// Makes a new file beside the one of this name, under the first name that isn't taken.
fn create_beside<F: Folder>(
    alloc: Global,
    folder: &mut F,
    name: &str,
) -> Result<(String, F::File), Failed>
    ensures made { IfOk result (λ made. (names : List (List ℕ))
        × Makes (F.calls folder.old) (map Taken names ++ Made (string_bytes made.0) ∷ []) (F.calls folder.new)) }
    ensures none { OnErr result (MakesNoFile (F.calls folder.old) (F.calls folder.new)) }
{
    for number in 0..TRIES {
        let beside = name_beside(alloc, name, number)?;
        match folder.create(beside.as_str()) {
            Ok(file) => return Ok((beside, file)),
            Err(NotMade::Taken) => {}
            Err(NotMade::Refused) => return Err(Failed),
        }
    }
    Err(Failed)
}

// Writes a new file whole, and gives it its name.
fn write_and_rename<F: Folder>(
    folder: &mut F,
    file: F::File,
    beside: &str,
    name: &str,
    bytes: &[u8],
) -> Result<(), Failed>
    ensures well { OnOk result (Makes (F.calls folder.old)
        (Written bytes.now ∷ Renamed beside.now name.now ∷ []) (F.calls folder.new)) }
    ensures in_vain { OnErr result (Makes (F.calls folder.old) (Cut bytes.now ∷ []) (F.calls folder.new)
        ⊎ Makes (F.calls folder.old) (Written bytes.now ∷ NotRenamed beside.now name.now ∷ []) (F.calls folder.new)) }
{
    folder.write(file, bytes)?;
    folder.rename(beside, name)
}

/// Puts a file whole under its name: it is written under another name that isn't taken, and then renamed. On an error the
/// new file is removed, and the one of this name stays.
pub(crate) fn put_whole<F: Folder>(
    alloc: Global,
    folder: &mut F,
    name: &str,
    bytes: &[u8],
) -> Result<(), Failed>
    ensures well { OnOk result (PutsWell name.now bytes.now (F.calls folder.old) (F.calls folder.new)) }
    ensures in_vain { OnErr result (PutsInVain name.now bytes.now (F.calls folder.old) (F.calls folder.new)) }
{
    let (beside, file) = create_beside(alloc, folder, name)?;
    let outcome = write_and_rename(folder, file, beside.as_str(), name, bytes);
    if outcome.is_err() {
        folder.remove(beside.as_str());
    }
    outcome
}
