ghost use Rattle.std.specs.Prelude.{◌≡◌, ◌++◌, fold};
ghost use Rattle.std.specs.Hash as fed;
ghost use Rattle.std.specs.Cmp.Lexicographic.{pointwise};
ghost use Rattle.std.specs.Cmp.{partial_equiv_from_equiv};
ghost use Rattle.gp_stack.specs.Word.{word_of};
ghost use Rattle.gp_build.specs.Shown.{shown_in, same_frame, same_pair, same_shown};
ghost use Rattle.gp_build.specs.laws.Alike.{frame_input, pair_input, shown_input, same_shown_equiv, shown_input-same};

use crate::lookup::labels;
use gp_isa::{Frame, Pair, Parts};
use gp_stack::Record;
use std::hash::{Hash, Hasher};
use std::marker::Model;

/// What a record shows of its goroutine: a stack, the leaf first, with labels, those of a label set.
#[derive(Drop)]
pub(crate) struct Shown<'a> {
    stack: &'a [Frame],
    set: u8,
    labels: &'a [Pair],
}

impl<'a> Model for Shown<'a> {
    ghost use Rattle.gp_build.specs.Shown.{Shown as Seen};

    ghost Value = { Seen };

    ghost view = { λ s. record { stack = s.stack.now; set = s.set; labels = s.labels.now } };
}

impl<'a> Shown<'a> {
    /// What a record shows.
    pub(crate) fn new(parts: &'a Parts, row: &'a Record) -> Shown<'a>
        ensures { result ≡ shown_in parts.now row.now }
    {
        Shown {
            stack: row.stack.as_slice(),
            set: row.set,
            labels: labels(parts, row.set),
        }
    }

    pub(crate) fn stack(&self) -> &'a [Frame]
        ensures { result.now ≡ self.now.stack }
    {
        self.stack
    }

    pub(crate) fn set(&self) -> u8
        ensures { result ≡ self.now.set }
    {
        self.set
    }

    pub(crate) fn labels(&self) -> &'a [Pair]
        ensures { result.now ≡ self.now.labels }
    {
        self.labels
    }
}

fn is_same_pair(a: &Pair, b: &Pair) -> bool
    ensures { result ≡ same_pair a.now b.now }
{
    a.key.as_str() == b.key.as_str() && a.value.as_str() == b.value.as_str()
}

fn are_same_pairs(a: &[Pair], b: &[Pair]) -> bool
    ensures { result ≡ pointwise same_pair a.now b.now }
{
    if a.len() != b.len() {
        return false;
    }
    for (x, y) in a.iter().zip(b) {
        if !is_same_pair(x, y) {
            return false;
        }
    }
    true
}

// A frame as one word, which is fed at once.
fn word(frame: Frame) -> u64
    ensures { result ≡ word_of frame }
{
    u64::from(frame.function) * 4_294_967_296 + u64::from(frame.line)
}

/// What is fed of a stack.
pub(crate) fn hash_frames<H: Hasher>(stack: &[Frame], state: &mut H)
    ensures { state.new ≡ fold H.write state.old (fed.slice frame_input stack.now) }
{
    stack.len().hash(state);
    for frame in stack {
        word(*frame).hash(state);
    }
}

fn hash_pairs<H: Hasher>(pairs: &[Pair], state: &mut H)
    ensures { state.new ≡ fold H.write state.old (fed.slice pair_input pairs.now) }
{
    pairs.len().hash(state);
    for pair in pairs {
        pair.key.as_str().hash(state);
        pair.value.as_str().hash(state);
    }
}

impl<'a> PartialEq for Shown<'a> {
    ghost eq = { same_shown };

    ghost laws = { partial_equiv_from_equiv same_shown_equiv };

    fn eq(&self, other: &Shown<'a>) -> bool {
        self.stack == other.stack && are_same_pairs(self.labels, other.labels)
    }
}

impl<'a> Eq for Shown<'a> {
    ghost laws = { same_shown_equiv };
}

impl<'a> Hash for Shown<'a> {
    ghost hash_input = { shown_input };

    ghost respects_eq = { shown_input-same };

    fn hash<H: Hasher>(&self, state: &mut H) {
        hash_frames(self.stack, state);
        hash_pairs(self.labels, state);
    }
}
