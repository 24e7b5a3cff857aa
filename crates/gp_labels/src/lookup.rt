ghost use Rattle.std.specs.Prelude.{◌≡◌};
ghost use Rattle.gp_labels.specs.LabelSet.{pairs_of};

use gp_isa::{Pair, Program};

/// The pairs of a label set, sorted by the bytes of their keys. Sets count from 1 in file order; set 0, and a number that
/// the program doesn't have, has none. It takes no memory.
pub fn pairs(program: &Program, set: u8) -> &[Pair]
    ensures { result.now ≡ pairs_of program.now set }
{
    if set == 0 {
        return &[];
    }
    match program.parts().labels.get(set as usize - 1) {
        Some(set) => set.pairs.as_slice(),
        None => &[],
    }
}
