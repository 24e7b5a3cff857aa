ghost use Rattle.std.specs.Prelude.{◌≡◌, ◌<◌, suc, length, IfSome};
ghost use Rattle.gp_isa.specs.Statement.{action};
ghost use Rattle.gp_isa.specs.Checked.{lacks_statement, loop_lacks, first_empty};

use crate::limits;
use crate::parts::Parts;
use crate::statement::{Stmt, What};

// Whether a body, or that of a loop in it, has no statement, where loops stand at most `deep` inside each other.
#[cycle(bare)]
fn is_bare(body: &[Stmt], deep: u8) -> bool
    ensures { result ≡ lacks_statement (suc deep) body.now }
{
    if body.is_empty() {
        return true;
    }
    if deep == 0 {
        return false;
    }
    for statement in body {
        if holds_bare_loop(&statement.what, deep) {
            return true;
        }
    }
    false
}

// Whether a statement is a loop with such a body.
#[cycle(bare)]
fn holds_bare_loop(what: &What, deep: u8) -> bool
    requires { 0 < deep }
    ensures { result ≡ loop_lacks (lacks_statement deep) (action what.now) }
{
    match what {
        What::Loop { body, .. } => is_bare(body.get().as_slice(), deep - 1),
        What::Work { .. }
        | What::Call { .. }
        | What::Send { .. }
        | What::Recv { .. }
        | What::Lock { .. }
        | What::Unlock { .. }
        | What::Spawn { .. }
        | What::Labels { .. } => false,
    }
}

/// The first function in which it or one of its loops has no statement.
pub fn empty_place(parts: &Parts) -> Option<usize>
    ensures place { result ≡ first_empty parts.now }
    ensures within { IfSome result (λ f. f < length parts.now.functions) }
{
    parts
        .functions
        .iter()
        .position(|f| is_bare(f.body.as_slice(), limits::LOOPS))
}
