ghost use Rattle.std.specs.Prelude.{◌≡◌, fold};
ghost use Rattle.std.specs.Hash as fed;
ghost use Rattle.std.specs.Cmp.{partial_equiv_from_equiv};
ghost use Rattle.gp_stack.specs.Word.{word_of};
ghost use Rattle.gp_cpu.specs.Sums.{same_key};
ghost use Rattle.gp_cpu.specs.laws.Alike.{frame_input, key_input, same_key_equiv, key_input-same};

use crate::sum::CpuKey;
use gp_isa::Frame;
use std::hash::{Hash, Hasher};

// A frame as one word.
fn word(frame: Frame) -> u64
    ensures { result ≡ word_of frame }
{
    frame.function as u64 * 4_294_967_296 + frame.line as u64
}

fn hash_frames<H: Hasher>(stack: &[Frame], state: &mut H)
    ensures { state.new ≡ fold H.write state.old (fed.slice frame_input stack.now) }
{
    stack.len().hash(state);
    for frame in stack {
        word(*frame).hash(state);
    }
}

impl PartialEq for CpuKey {
    ghost eq = { same_key };

    ghost laws = { partial_equiv_from_equiv same_key_equiv };

    fn eq(&self, other: &CpuKey) -> bool {
        match (self, other) {
            (CpuKey::At { stack: a, tag: s }, CpuKey::At { stack: b, tag: t }) => {
                a.as_slice() == b.as_slice() && s == t
            }
            (CpuKey::Lost, CpuKey::Lost) => true,
            _ => false,
        }
    }
}

impl Eq for CpuKey {
    ghost laws = { same_key_equiv };
}

impl Hash for CpuKey {
    ghost hash_input = { key_input };

    ghost respects_eq = { key_input-same };

    fn hash<H: Hasher>(&self, state: &mut H) {
        match self {
            CpuKey::At { stack, tag } => {
                hash_frames(stack.as_slice(), state);
                tag.hash(state);
            }
            CpuKey::Lost => {}
        }
    }
}
