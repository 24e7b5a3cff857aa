ghost use Rattle.std.specs.Prelude.{◌≡◌, ◌+◌, ◌*◌, ◌<◌, ◌≤◌, ◌∷◌, [], MatchOption, IfSome, vec_len, reverse, take};
ghost use Rattle.gp_stack.specs.kept.Level.{leaf_of, frame_of, callers, is_base};
ghost use Rattle.gp_isa.specs.declared.parts.Parts.{Parts};
ghost use Rattle.gp_stack.specs.kept.Climb.{frames_left};
ghost use Rattle.gp_stack.specs.Word.{word_of};

use crate::level::{Level, block, line};
use crate::place::Place;
use gp_isa::limits::LOOPS;
use gp_isa::{Frame, Program};

/// A climb from the next point to its callers: how many levels are still above, and whether the level below them is
/// the body of a function, so that the first of them has called it.
#[derive(Clone, Copy)]
pub(crate) struct Climb {
    pub(crate) level: usize,
    pub(crate) called: bool,
}

/// A frame as one word.
pub(crate) fn word(frame: Frame) -> u64
    ensures { result ≡ word_of frame }
{
    frame.function as u64 * 4_294_967_296 + frame.line as u64
}

impl Climb {
    pub(crate) fn new(place: &Place) -> Climb
        ensures frames { (parts : Parts) → frames_left parts place.now result
            ≡ callers parts (is_base place.now.top) (reverse place.now.outer.items) }
        ensures within { result.level ≤ vec_len place.now.outer }
    {
        Climb {
            level: place.outer.len(),
            called: place.top.loops == LOOPS,
        }
    }

    /// The frame of the next caller.
    pub(crate) fn next(&mut self, place: &Place, program: &Program) -> Option<Frame>
        requires { self.old.level ≤ vec_len place.now.outer }
        ensures frames { let before = frames_left program.now place.now self.old in
            MatchOption result (before ≡ []) (λ frame. before ≡ frame ∷ frames_left program.now place.now self.new) }
        ensures within { self.new.level ≤ vec_len place.now.outer }
    {
        while self.level > 0 {
            self.level -= 1;
            let level = place.outer[self.level];
            let called = self.called;
            self.called = level.loops == LOOPS;
            if called {
                return Some(caller(program, place, level, self.level));
            }
        }
        None
    }
}

/// The frame of a level that has called, of which so many levels are around.
fn caller(program: &Program, place: &Place, level: Level, around: usize) -> Frame
    requires { around ≤ vec_len place.now.outer }
    ensures { result ≡ frame_of program.now level (reverse (take around place.now.outer.items)) }
{
    let here = block(program, level, &place.outer.as_slice()[..around]);
    Frame {
        function: level.function as u32,
        line: line(here.statements, level.at.saturating_sub(1)),
    }
}

/// The frame of the next point.
pub(crate) fn leaf(program: &Program, place: &Place) -> Frame
    ensures { result ≡ leaf_of program.now place.now.top (reverse place.now.outer.items) }
{
    let here = block(program, place.top, place.outer.as_slice());
    Frame {
        function: place.top.function as u32,
        line: line(here.statements, place.top.at),
    }
}
