ghost use Rattle.std.specs.Prelude.{◌≡◌, ◌+◌, ◌*◌, ◌≤◌, ◌<◌, ◌^◌, ℕ, drop, reverse, replicate, length, None, [], List};
ghost use Rattle.std.specs.Bool.{OnTrue, OnFalse};
ghost use Rattle.gp_isa.specs.Statement.{Action};
ghost use Rattle.gp_isa.specs.Limits.{most_loops};
ghost use Rattle.gp_isa.specs.Block.{IsBlock, between};
ghost use Rattle.gp_isa.specs.Size.{local_before, first_shared};
ghost use Rattle.gp_isa.specs.Trace.{Point, repeated};
ghost use Rattle.gp_stack.specs.kept.Ahead.{Does};
ghost use Rattle.gp_stack.specs.kept.Level.{body_at, left_here, points_of_call};
ghost use Rattle.gp_stack.specs.declared.peek.Then.TheVariants.{Over};
ghost use Rattle.gp_stack.specs.kept.Looks.{peek_of, steps, operation_as, points_of_action, points_of_all};

use crate::level::{Level, block};
use crate::statement::{Ahead, Operation, statement_at};
use gp_isa::limits::LOOPS;
use gp_isa::{Block, Program, Shared, Size};

/// What comes behind local points.
#[derive(Clone, Copy, Debug, PartialEq, Eq)]
pub enum Then {
    /// One more local point.
    Local,
    /// A shared point.
    Shared(Operation),
    /// The end of the trace.
    Over,
}

/// So many local points are ahead, up to a limit, and then this comes.
#[derive(Clone, Copy, Debug, PartialEq, Eq)]
pub struct Peek {
    pub local: u64,
    pub then: Then,
}

impl Peek {
    /// Nothing comes behind the local points.
    pub(crate) fn is_over(self) -> bool
        ensures over { OnTrue result (self.then ≡ Over) }
        ensures more { OnFalse result (self.then ≡ Over → ⊥) }
    {
        match self.then {
            Then::Over => true,
            Then::Local => false,
            Then::Shared(_) => false,
        }
    }
}

/// `n` local points.
pub(crate) fn look_local(n: u64, limit: u64) -> Peek
    ensures finds { result ≡ peek_of (replicate n None) limit }
    ensures few { result.local ≤ limit }
{
    if limit < n {
        Peek {
            local: limit,
            then: Then::Local,
        }
    } else {
        Peek {
            local: n,
            then: Then::Over,
        }
    }
}

/// An operation, as the program tells it.
fn operation(shared: Shared) -> Operation
    ensures { result ≡ operation_as shared }
{
    match shared {
        Shared::Send { c } => Operation::Send { c },
        Shared::Recv { c } => Operation::Recv { c },
        Shared::Lock { m } => Operation::Lock { m },
        Shared::Unlock { m } => Operation::Unlock { m },
        Shared::Spawn { f } => Operation::Spawn { f },
    }
}

/// Points of which the program tells the first shared one, and how many local ones come before it.
fn look_first(size: Size, limit: u64) -> Peek
    ensures { (points : List Point) → size.before ≡ local_before points → size.first ≡ first_shared points →
        result ≡ peek_of (steps points) limit }
{
    if limit < size.before {
        return Peek {
            local: limit,
            then: Then::Local,
        };
    }
    Peek {
        local: size.before,
        then: match size.first {
            Some(shared) => Then::Shared(operation(shared)),
            None => Then::Over,
        },
    }
}

/// What was found of statements, and the statement behind them.
#[derive(Clone, Copy)]
struct Seen {
    peek: Peek,
    to: usize,
}

/// The points of statement `at`, with calls and loops followed so deep.
#[cycle(look)]
fn look_at(
    program: &Program,
    calls: u16,
    loops: u8,
    block: &Block<'_>,
    at: usize,
    limit: u64,
) -> Peek
    requires loops { loops ≤ most_loops }
    requires block { IsBlock program.now block.now }
    ensures { (f line : ℕ) (a : Action) → Does block.now.statements.now at a →
        result ≡ peek_of (steps (points_of_action program.now calls loops f line a)) limit }
{
    let nothing = Peek {
        local: 0,
        then: Then::Over,
    };
    match statement_at(block.statements, at) {
        Ahead::End => nothing,
        Ahead::Work(n) => look_local(n as u64, limit),
        Ahead::Labels(_) => look_local(1, limit),
        Ahead::Loop(n, _) => {
            if loops == 0 {
                return nothing;
            }
            look_turns(program, calls, loops - 1, &block.inside(at), n, limit)
        }
        Ahead::Call(h) => {
            if calls == 0 {
                return nothing;
            }
            if h as usize >= program.parts().functions.len() {
                return nothing;
            }
            let size = program.size(h);
            if size.frames <= calls as u32 {
                return look_first(size, limit);
            }
            look_on(program, calls - 1, LOOPS, &program.block(h), 0, limit)
        }
        Ahead::Shared(operation) => Peek {
            local: 0,
            then: Then::Shared(operation),
        },
    }
}

/// The points of statement `at` and of those behind it, as many as are told at once: where their points all are local.
#[cycle(look)]
fn look_some(
    program: &Program,
    calls: u16,
    loops: u8,
    block: &Block<'_>,
    at: usize,
    limit: u64,
) -> Seen
    requires loops { loops ≤ most_loops }
    requires block { IsBlock program.now block.now }
    requires there { at < length block.now.statements.now }
    ensures to { (at < result.to) × (result.to ≤ length block.now.statements.now) }
    ensures seen { (f : ℕ) → result.peek ≡
        peek_of (steps (points_of_all program.now calls loops f (between at result.to block.now.statements.now))) limit }
{
    // (it tells that the program was checked)
    let _ = program.parts();
    if let Some(run) = block.local_run(at, loops, calls) {
        return Seen {
            peek: look_local(run.points, limit),
            to: run.to,
        };
    }
    Seen {
        peek: look_at(program, calls, loops, block, at, limit),
        to: at + 1,
    }
}

/// The points of the statements from `from` on.
#[cycle(look)]
pub(crate) fn look_on(
    program: &Program,
    calls: u16,
    loops: u8,
    block: &Block<'_>,
    from: usize,
    limit: u64,
) -> Peek
    requires loops { loops ≤ most_loops }
    requires block { IsBlock program.now block.now }
    ensures { (f : ℕ) → result ≡
        peek_of (steps (points_of_all program.now calls loops f (drop from block.now.statements.now))) limit }
{
    let mut local = 0;
    let mut at = from;
    while at < block.statements.len() {
        let seen = look_some(program, calls, loops, block, at, limit - local);
        local += seen.peek.local;
        if !seen.peek.is_over() {
            return Peek {
                local,
                then: seen.peek.then,
            };
        }
        at = seen.to;
    }
    Peek {
        local,
        then: Then::Over,
    }
}

/// The points of `n` turns of a body, which are looked at once.
#[cycle(look)]
pub(crate) fn look_turns(
    program: &Program,
    calls: u16,
    loops: u8,
    block: &Block<'_>,
    n: u32,
    limit: u64,
) -> Peek
    requires loops { loops ≤ most_loops }
    requires block { IsBlock program.now block.now }
    ensures { (f : ℕ) → result ≡
        peek_of (steps (repeated n (points_of_all program.now calls loops f block.now.statements.now))) limit }
{
    if n == 0 {
        return Peek {
            local: 0,
            then: Then::Over,
        };
    }
    let once = look_on(program, calls, loops, block, 0, limit);
    if !once.is_over() {
        return once;
    }
    look_times(once.local, n, limit)
}

/// `n` times so many local points.
fn look_times(once: u64, n: u32, limit: u64) -> Peek
    ensures { result ≡ peek_of (replicate (once * n) None) limit }
{
    match once.checked_mul(n as u64) {
        Some(all) => look_local(all, limit),
        None => Peek {
            local: limit,
            then: Then::Local,
        },
    }
}

/// The points that are left of a level with the statements of `here`.
pub(crate) fn look_here(program: &Program, level: Level, here: &Block<'_>, limit: u64) -> Peek
    requires loops { level.loops ≤ most_loops }
    requires block { IsBlock program.now here.now }
    ensures { result ≡ peek_of (steps (left_here program.now level here.now.statements.now)) limit }
{
    // (mostly what was called has come to its end)
    if level.turns == 0 && level.at >= here.statements.len() {
        return Peek {
            local: 0,
            then: Then::Over,
        };
    }
    let first = look_on(program, level.calls, level.loops, here, level.at, limit);
    if !first.is_over() {
        return first;
    }
    let left = limit - first.local;
    let again = look_turns(program, level.calls, level.loops, here, level.turns, left);
    Peek {
        local: first.local + again.local,
        then: again.then,
    }
}

/// The points that are left of a level, `outer` being the levels around it.
pub(crate) fn look_level(program: &Program, level: Level, outer: &[Level], limit: u64) -> Peek
    requires { level.loops ≤ most_loops }
    ensures { result ≡ peek_of (steps (left_here program.now level (body_at program.now level (reverse outer.now)))) limit }
{
    // (two calls, so that what was looked up isn't copied)
    if level.loops == LOOPS {
        return look_here(program, level, &program.block(level.function as u32), limit);
    }
    look_here(program, level, &block(program, level, outer), limit)
}
