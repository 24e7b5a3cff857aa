ghost use Rattle.std.specs.Prelude.{◌≡◌, ◌<◌, length, position, IfSome};
ghost use Rattle.gp_text.specs.Fault.{is_unknown};
ghost use Rattle.gp_text.specs.Spaces.{kept};

use crate::said::Said;
use crate::space::Space;
use crate::spaces::Spaces;

fn is_unknown(spaces: &Spaces, said: &Said) -> bool
    ensures { result ≡ is_unknown (kept spaces.now) said.now }
{
    match said {
        Said::Use { verb, name } => spaces.of(Space::of(*verb)).place(name.bytes()).is_none(),
        Said::NotUtf8
        | Said::Nonsense
        | Said::Silent
        | Said::Declares { .. }
        | Said::Loop { .. }
        | Said::Work { .. }
        | Said::Close => false,
    }
}

/// The second pass: the place of the first line, counted from 0, that uses a name which nobody declares.
pub(crate) fn unknown_place(spaces: &Spaces, said: &[Said]) -> Option<usize>
    ensures place { result ≡ position (is_unknown (kept spaces.now)) said.now }
    ensures within { IfSome result (λ at. at < length said.now) }
{
    said.iter().position(|line| is_unknown(spaces, line))
}
