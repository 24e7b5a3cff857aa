ghost use Rattle.std.specs.Prelude.{◌≡◌, fold};
ghost use Rattle.std.specs.Hash as fed;
ghost use Rattle.std.specs.Cmp.{partial_equiv_from_equiv};
ghost use Rattle.gp_stack.specs.Word.{word_of};
ghost use Rattle.gp_events.specs.Event.{same_stack};
ghost use Rattle.gp_events.specs.laws.Alike.{frame_input, stack_input, same_stack_equiv, stack_input-same};

use gp_isa::Frame;
use gp_stack::Stack;
use std::hash::{Hash, Hasher};
use std::marker::Model;

/// A stack by which a sum is found.
#[derive(Debug, Drop)]
pub(crate) struct StackKey {
    stack: Stack,
}

impl Model for StackKey {
    ghost use Rattle.std.specs.Prelude.{List};
    ghost use Rattle.gp_isa.specs.declared.frame.Frame.{Frame};

    ghost Value = { List Frame };

    ghost view = { λ k. k.stack };
}

impl StackKey {
    pub(crate) fn new(stack: Stack) -> StackKey
        ensures { result ≡ stack }
    {
        StackKey { stack }
    }

    pub(crate) fn frames(&self) -> &[Frame]
        ensures { result.now ≡ self.now }
    {
        self.stack.as_slice()
    }
}

// A frame as one word.
fn word(frame: Frame) -> u64
    ensures { result ≡ word_of frame }
{
    frame.function as u64 * 4_294_967_296 + frame.line as u64
}

fn hash_frames<H: Hasher>(stack: &[Frame], state: &mut H)
    ensures { state.new ≡ fold H.write state.old (fed.slice frame_input stack.now) }
{
    stack.len().hash(state);
    for frame in stack {
        word(*frame).hash(state);
    }
}

impl PartialEq for StackKey {
    ghost eq = { same_stack };

    ghost laws = { partial_equiv_from_equiv same_stack_equiv };

    fn eq(&self, other: &StackKey) -> bool {
        self.frames() == other.frames()
    }
}

impl Eq for StackKey {
    ghost laws = { same_stack_equiv };
}

impl Hash for StackKey {
    ghost hash_input = { stack_input };

    ghost respects_eq = { stack_input-same };

    fn hash<H: Hasher>(&self, state: &mut H) {
        hash_frames(self.frames(), state);
    }
}
