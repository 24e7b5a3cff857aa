ghost use Rattle.std.specs.Prelude.{◌≡◌, ◌<◌, ◌≤◌, ◌+◌, ◌^◌, length, drop, All, IfOk};
ghost use Rattle.gp_isa.specs.declared.statement.What.TheVariants as what;
ghost use Rattle.gp_text.specs.Reading.{place_of, action, statement, statement_of, is_close, function_of, functions_at, parts_of};
ghost use Rattle.gp_text.specs.Fault.{known_of, space_of, most_names};
ghost use Rattle.gp_text.specs.Spaces.{kept};
ghost use Rattle.gp_text.specs.CanBuild.{CanBuild, AreFew};
ghost use Rattle.gp_text.specs.Ended.{IsBlock, turns_in};

use crate::declare::{each, text};
use crate::said::{Declared, Name, Said};
use crate::space::Space;
use crate::spaces::Spaces;
use crate::verb::Verb;
use gp_isa::{Function, Functions, Memory, Parts, Sequence, Stmt, Stmts, What};
use sqlite_items::{Boxed, Items};
use std::alloc::Global;

// A block that was read: its statements, the line of the brace that ends it, 0 where none does, and the place behind it.
#[derive(Drop)]
struct Block {
    body: Stmts,
    end: u32,
    next: usize,
}

// The number of a name, which is known.
fn place(spaces: &Spaces, verb: Verb, name: &Name) -> usize
    requires { AreFew (kept spaces.now) }
    ensures place { result ≡ place_of (kept spaces.now) verb name.now }
    ensures few { result < most_names (space_of verb) }
{
    spaces.of(Space::of(verb)).place(name.bytes()).unwrap_or(0)
}

// What a word does to the thing of a number.
fn what(verb: Verb, at: usize) -> What
    requires { at < most_names (space_of verb) }
    ensures { result ≡ action verb at }
{
    match verb {
        Verb::Call => What::Call { f: at as u32 },
        Verb::Spawn => What::Spawn { f: at as u32 },
        Verb::Send => What::Send { c: at as u32 },
        Verb::Recv => What::Recv { c: at as u32 },
        Verb::Lock => What::Lock { m: at as u32 },
        Verb::Unlock => What::Unlock { m: at as u32 },
        Verb::Labels => What::Labels { s: at as u8 + 1 },
    }
}

// The statement of a line, where it is one without a body.
fn statement(spaces: &Spaces, line: u32, said: &Said) -> Option<Stmt>
    requires can { CanBuild said.now }
    requires few { AreFew (kept spaces.now) }
    ensures { result ≡ statement_of (kept spaces.now) line said.now }
{
    match said {
        Said::Work { n } => Some(Stmt {
            line,
            what: What::Work { n: *n as u32 },
        }),
        Said::Use { verb, name } => Some(Stmt {
            line,
            what: what(*verb, place(spaces, *verb, name)),
        }),
        Said::NotUtf8
        | Said::Nonsense
        | Said::Silent
        | Said::Declares { .. }
        | Said::Loop { .. }
        | Said::Close => None,
    }
}

// The loop that a line begins.
fn loop_statement(alloc: Global, line: u32, turns: u32, block: Block) -> Result<Stmt, Memory>
    ensures { IfOk result (λ s. s ≡ statement line (what.Loop turns block.body block.end)) }
{
    let Block { body, end, .. } = block;
    Ok(Stmt {
        line,
        what: What::Loop {
            n: turns,
            body: Boxed::new(alloc, body)?,
            end,
        },
    })
}

fn is_close(said: &Said) -> bool
    ensures { result ≡ is_close said.now }
{
    match said {
        Said::Close => true,
        Said::NotUtf8
        | Said::Nonsense
        | Said::Silent
        | Said::Declares { .. }
        | Said::Loop { .. }
        | Said::Work { .. }
        | Said::Use { .. } => false,
    }
}

// The turns of the loop that a line begins, where it does.
fn turns(said: &Said) -> Option<u32>
    requires { CanBuild said.now }
    ensures { result ≡ turns_in said.now }
{
    match said {
        Said::Loop { turns } => Some(*turns as u32),
        Said::NotUtf8
        | Said::Nonsense
        | Said::Silent
        | Said::Declares { .. }
        | Said::Work { .. }
        | Said::Use { .. }
        | Said::Close => None,
    }
}

// The block that the lines from a place on end. A loop in it is read by a call of its own, and what is left of the lines is
// read on behind that; loops stand at most eight deep.
fn read_block(alloc: Global, spaces: &Spaces, said: &[Said], from: usize) -> Result<Block, Memory>
    requires within { from ≤ length said.now }
    requires short { length said.now < 2 ^ 32 }
    requires can { All CanBuild said.now }
    requires few { AreFew (kept spaces.now) }
    ensures { IfOk result (IsBlock (kept spaces.now) said.now from) }
{
    let mut body = Items::new(alloc);
    let mut at = from;
    while at < said.len() {
        let line = &said[at];
        if is_close(line) {
            return Ok(Block {
                body,
                end: at as u32 + 1,
                next: at + 1,
            });
        }
        match turns(line) {
            Some(turns) => {
                let inner = read_block(alloc, spaces, said, at + 1)?;
                let next = inner.next;
                body.push(loop_statement(alloc, at as u32 + 1, turns, inner)?)?;
                at = next;
            }
            None => {
                if let Some(statement) = statement(spaces, at as u32 + 1, line) {
                    body.push(statement)?;
                }
                at += 1;
            }
        }
    }
    Ok(Block {
        body,
        end: 0,
        next: at,
    })
}

// The function that a line at a place opens, where it is a header.
fn function(
    alloc: Global,
    spaces: &Spaces,
    said: &[Said],
    at: usize,
    line: &Said,
) -> Result<Option<Function>, Memory>
    requires within { at < length said.now }
    requires short { length said.now < 2 ^ 32 }
    requires can { All CanBuild said.now }
    requires few { AreFew (kept spaces.now) }
    requires named { CanBuild line.now }
    ensures { IfOk result (λ function. function ≡ function_of (kept spaces.now) (at + 1) line.now (drop (at + 1) said.now)) }
{
    match line {
        Said::Declares { name, declared } => match declared {
            Declared::Function => {
                let Block { body, end, .. } = read_block(alloc, spaces, said, at + 1)?;
                Ok(Some(Function {
                    name: text(alloc, name)?,
                    line: at as u32 + 1,
                    end,
                    body,
                }))
            }
            Declared::Channel { .. } | Declared::Mutex | Declared::LabelSet { .. } => Ok(None),
        },
        Said::NotUtf8
        | Said::Nonsense
        | Said::Silent
        | Said::Loop { .. }
        | Said::Work { .. }
        | Said::Use { .. }
        | Said::Close => Ok(None),
    }
}

fn functions(alloc: Global, spaces: &Spaces, said: &[Said]) -> Result<Functions, Memory>
    requires short { length said.now < 2 ^ 32 }
    requires can { All CanBuild said.now }
    requires few { AreFew (kept spaces.now) }
    ensures { IfOk result (λ functions. functions ≡ functions_at (kept spaces.now) 1 said.now) }
{
    let mut functions = Sequence::new(alloc);
    for (at, line) in said.iter().enumerate() {
        if let Some(function) = function(alloc, spaces, said, at, line)? {
            functions.push(function)?;
        }
    }
    Ok(functions)
}

/// What the lines of a file declare. The names that they use are known.
pub(crate) fn parts(alloc: Global, spaces: &Spaces, said: &[Said]) -> Result<Parts, Memory>
    requires short { length said.now < 2 ^ 32 }
    requires can { All CanBuild said.now }
    requires few { AreFew (kept spaces.now) }
    requires names { kept spaces.now ≡ known_of said.now }
    ensures { IfOk result (λ parts. parts ≡ parts_of said.now) }
{
    Ok(Parts {
        functions: functions(alloc, spaces, said)?,
        channels: each(alloc, said)?,
        mutexes: each(alloc, said)?,
        labels: each(alloc, said)?,
    })
}
