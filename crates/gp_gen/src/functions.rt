//! The functions: `main`, and a caller and a callee of each kind.
ghost use Rattle.std.specs.Prelude.{◌≡◌, ◌+◌, ◌*◌, ◌<◌, [], ◌∷◌, ◌++◌, IfOk};
ghost use Rattle.gp_isa.specs.declared.statement.What.TheVariants as what;
ghost use Rattle.gp_gen.specs.Generated as generated;
ghost use Rattle.gp_gen.specs.Generated.{each_below, statement, spawn_of, main_function, caller_of, callee_of};

use crate::work::{callee_work, caller_work};
use gp_isa::{Function, Functions, Memory, Stmt, Stmts, Text, What};
use sqlite_items::Boxed;
use std::alloc::Global;

// A loop whose header stands at a line, and its closing brace at another.
fn turns(alloc: Global, line: u32, n: u32, body: Stmts, end: u32) -> Result<Stmt, Memory>
    ensures { IfOk result (λ s. s ≡ statement line (what.Loop n body end)) }
{
    Ok(Stmt {
        line,
        what: What::Loop {
            n,
            body: Boxed::new(alloc, body)?,
            end,
        },
    })
}

// A goroutine of a kind.
fn spawn(j: u32) -> Stmt
    requires { j < 16 }
    ensures { result ≡ spawn_of j }
{
    Stmt {
        line: 24 + j,
        what: What::Spawn { f: 1 + j },
    }
}

// One goroutine of each kind.
#[tactic(auto, using(crate::proofs::Below::more_below))]
fn spawns(alloc: Global) -> Result<Stmts, Memory>
    ensures { IfOk result (λ body. body ≡ each_below spawn_of 16) }
{
    let mut body = Stmts::new(alloc);
    for j in 0..16 {
        body.push(spawn(j))?;
    }
    Ok(body)
}

fn receives(alloc: Global) -> Result<Stmts, Memory>
    ensures { IfOk result (λ body. body ≡ statement 42 (what.Recv 0) ∷ []) }
{
    let mut body = Stmts::new(alloc);
    body.push(Stmt {
        line: 42,
        what: What::Recv { c: 0 },
    })?;
    Ok(body)
}

fn main_function(alloc: Global, q: u32) -> Result<Function, Memory>
    requires { q < 64 }
    ensures { IfOk result (λ f. f ≡ main_function q) }
{
    let mut body = Stmts::new(alloc);
    body.push(turns(alloc, 23, q, spawns(alloc)?, 40)?)?;
    body.push(turns(alloc, 41, 16 * q, receives(alloc)?, 43)?)?;
    Ok(Function {
        name: Text::from_str(alloc, "main")?,
        line: 22,
        end: 44,
        body,
    })
}

// What a caller does in each of its turns.
fn caller_turn(alloc: Global, n: u64, j: u32, at: u32) -> Result<Stmts, Memory>
    requires kind { j < 16 }
    requires line { at < 1000 }
    ensures { IfOk result (λ body. body
        ≡ statement (at + 3) (what.Work (generated.caller_work n j)) ∷ statement (at + 4) (what.Call (17 + j)) ∷ []) }
{
    let mut body = Stmts::new(alloc);
    body.push(Stmt {
        line: at + 3,
        what: What::Work {
            n: caller_work(n, j),
        },
    })?;
    body.push(Stmt {
        line: at + 4,
        what: What::Call { f: 17 + j },
    })?;
    Ok(body)
}

fn caller(alloc: Global, n: u64, j: u32) -> Result<Function, Memory>
    requires { j < 16 }
    ensures { IfOk result (λ f. f ≡ caller_of n j) }
{
    let at = 45 + 8 * j;
    let mut body = Stmts::new(alloc);
    body.push(Stmt {
        line: at + 1,
        what: What::Labels { s: 1 + j as u8 },
    })?;
    body.push(turns(alloc, at + 2, 4, caller_turn(alloc, n, j, at)?, at + 5)?)?;
    body.push(Stmt {
        line: at + 6,
        what: What::Send { c: 0 },
    })?;
    Ok(Function {
        name: Text::from_string(format!(in alloc; "k{j}")?),
        line: at,
        end: at + 7,
        body,
    })
}

fn callee(alloc: Global, n: u64, j: u32) -> Result<Function, Memory>
    requires { j < 16 }
    ensures { IfOk result (λ f. f ≡ callee_of n j) }
{
    let at = 173 + 5 * j;
    let mut body = Stmts::new(alloc);
    body.push(Stmt {
        line: at + 1,
        what: What::Lock { m: j % 4 },
    })?;
    body.push(Stmt {
        line: at + 2,
        what: What::Work {
            n: callee_work(n, j),
        },
    })?;
    body.push(Stmt {
        line: at + 3,
        what: What::Unlock { m: j % 4 },
    })?;
    Ok(Function {
        name: Text::from_string(format!(in alloc; "s{j}")?),
        line: at,
        end: at + 4,
        body,
    })
}

// The callers behind what is there.
#[tactic(auto, using(crate::proofs::Below::more_behind))]
fn push_callers(alloc: Global, n: u64, all: &mut Functions) -> Result<(), Memory>
    ensures { IfOk result (λ _. all.new ≡ all.old ++ each_below (caller_of n) 16) }
{
    for j in 0..16 {
        all.push(caller(alloc, n, j)?)?;
    }
    Ok(())
}

// And the callees.
#[tactic(auto, using(crate::proofs::Below::more_behind))]
fn push_callees(alloc: Global, n: u64, all: &mut Functions) -> Result<(), Memory>
    ensures { IfOk result (λ _. all.new ≡ all.old ++ each_below (callee_of n) 16) }
{
    for j in 0..16 {
        all.push(callee(alloc, n, j)?)?;
    }
    Ok(())
}

/// All functions, in file order.
pub(crate) fn functions(alloc: Global, n: u64, q: u32) -> Result<Functions, Memory>
    requires { q < 64 }
    ensures { IfOk result (λ all. all ≡ main_function q ∷ (each_below (caller_of n) 16 ++ each_below (callee_of n) 16)) }
{
    let mut all = Functions::new(alloc);
    all.push(main_function(alloc, q)?)?;
    push_callers(alloc, n, &mut all)?;
    push_callees(alloc, n, &mut all)?;
    Ok(all)
}
