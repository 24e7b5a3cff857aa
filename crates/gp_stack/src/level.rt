ghost use Rattle.std.specs.Prelude.{◌≡◌, reverse};
ghost use Rattle.gp_isa.specs.Block.{IsBlock};
ghost use Rattle.gp_stack.specs.kept.Level.{body_at, line_at};

use gp_isa::limits::LOOPS;
use gp_isa::{Block, Program, Stmt};

/// A body of statements that a goroutine is in: that of a function, or that of a loop in the body around it.
///
/// A level is kept small, at 16 bytes, since a goroutine has one for each frame and for each of its loops.
#[derive(Clone, Copy)]
pub(crate) struct Level {
    /// The next statement of the body. Of a level around another one it is the statement behind the call or loop
    /// that the goroutine is in.
    pub(crate) at: usize,
    /// How often the body still comes whole after this time.
    pub(crate) turns: u32,
    /// How deep calls are followed from here.
    pub(crate) calls: u16,
    /// The function, of which a program has at most 256.
    pub(crate) function: u8,
    /// How many loops may still be entered in this function: `LOOPS` in the body of the function itself.
    pub(crate) loops: u8,
}

/// The line of statement `at`.
pub(crate) fn line(body: &[Stmt], at: usize) -> u32
    ensures { result ≡ line_at body.now at }
{
    match body.get(at) {
        Some(s) => s.line,
        None => 0,
    }
}

/// The statements of a level, and what the program keeps of them. `outer` are the levels around it, the outermost first.
pub(crate) fn block<'a>(program: &'a Program, level: Level, outer: &[Level]) -> Block<'a>
    ensures statements { result.statements.now ≡ body_at program.now level (reverse outer.now) }
    ensures block { IsBlock program.now result }
{
    // (mostly it is the body of a function, and nothing around it is asked for)
    if level.loops == LOOPS {
        return program.block(level.function as u32);
    }
    nested_block(program, level, outer)
}

/// The same, found in the bodies around it.
fn nested_block<'a>(program: &'a Program, level: Level, outer: &[Level]) -> Block<'a>
    ensures statements { result.statements.now ≡ body_at program.now level (reverse outer.now) }
    ensures block { IsBlock program.now result }
{
    match outer.split_last() {
        None => program.block(level.function as u32),
        Some((around, outer)) => {
            if level.loops == LOOPS {
                program.block(level.function as u32)
            } else {
                nested_block(program, *around, outer).inside(around.at.saturating_sub(1))
            }
        }
    }
}
