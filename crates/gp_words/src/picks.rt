ghost use Rattle.std.specs.Prelude.{◌≡◌, IfOk};
ghost use Rattle.gp_words.specs.Numbers.{picks_of};

use crate::number::number;
use gp_isa::{Memory, limits};
use gp_journal::Picks;
use std::alloc::Global;

/// The numbers that a word writes, joined by commas.
pub(crate) fn picks(alloc: Global, word: &str) -> Result<Option<Picks>, Memory>
    ensures { IfOk result (λ picks. picks ≡ picks_of word.now) }
{
    let mut picks = Picks::new(alloc);
    for piece in word.split(',') {
        let Some(pick) = number(piece, 0, u64::from(u32::MAX)) else {
            return Ok(None);
        };
        if picks.len() == limits::PICKS {
            return Ok(None);
        }
        picks.push(pick as u32)?;
    }
    Ok(Some(picks))
}
