ghost use Rattle.std.specs.Prelude.{◌≡◌, ◌<◌, ◌≤◌, length, IfOk, IfErr, IfSome, OnOk, Some};
ghost use Rattle.gp_isa.specs.InLimits.{AreInLimits};
ghost use Rattle.gp_isa.specs.Checked.{main_of};
ghost use Rattle.gp_isa.specs.Calls.{IsProgram, IsCause};
ghost use Rattle.gp_isa.specs.Trace.{trace, is_local, body_of};
ghost use Rattle.gp_isa.specs.Block.{IsBlock};
ghost use Rattle.gp_isa.specs.Nesting.{nesting_of};
ghost use Rattle.gp_isa.specs.Size.{depth_of, most_frames, is_work, all_pass, local_before, first_shared};

use crate::bad::Bad;
use crate::block::Block;
use crate::calls::{lead_rows, ranks, recursive_place};
use crate::empty::empty_place;
use crate::limits;
use crate::parts::Parts;
use crate::size::{Size, long_place, most_frames};
use crate::statement::Stmt;
use crate::suffix::{NO_BASE, Table};
use crate::walk::{Walk, walk_functions};
use std::alloc::Global;
use std::marker::Model;

/// A program: the parts of a program file that were checked.
#[derive(Debug, Drop)]
pub struct Program {
    parts: Parts,
    /// Of each function's trace.
    sizes: Vec<Size>,
    /// Of each function's statements.
    table: Table,
    loops: u32,
    depth: u32,
}

impl Model for Program {
    ghost use Rattle.gp_isa.specs.declared.parts.Parts.{Parts};

    ghost Value = { Parts };

    ghost use Rattle.gp_isa.specs.contracts.statement.What as what;
    ghost use Rattle.std.specs.Coded.{codes};

    ghost coded = { Prim.hlevel (codes, what.the_row.coded) };

    ghost use Rattle.gp_isa.specs.kept.Sizes.{KeepsSizes};

    ghost view = { λ p. p.parts };

    ghost invariant = { λ p. KeepsSizes p.parts p.sizes.items p.table.suffixes.items p.table.bases.items p.loops p.depth };
}

fn main_place(parts: &Parts) -> Option<usize>
    ensures place { result ≡ main_of parts.now }
    ensures within { IfSome result (λ f. f < length parts.now.functions) }
{
    parts
        .functions
        .iter()
        .position(|f| f.name.as_str() == "main")
}

impl Program {
    /// The parts that were checked.
    pub fn parts(&self) -> &Parts
        ensures parts { result.now ≡ self.now }
        ensures limits { AreInLimits self.now }
        ensures checked { IsProgram self.now }
    {
        // (it has no effect, but brings the invariant, which the clauses tell)
        let _ = &self.parts;
        &self.parts
    }

    /// The number of the function `main`.
    pub fn main(&self) -> u32
        ensures { main_of self.now ≡ Some result }
    {
        main_place(&self.parts).unwrap() as u32
    }

    /// The most frames of any stack, over all functions, those that `main` never reaches too.
    pub fn depth(&self) -> u32
        ensures { result ≡ depth_of self.now }
    {
        self.depth
    }

    /// How many loops stand inside each other at most, in any function.
    pub fn loops(&self) -> u32
        ensures loops { result ≡ nesting_of self.now }
        ensures few { result ≤ 9 }
    {
        self.loops
    }

    /// The number of points of the trace of function `f`, at most 2^40.
    pub fn length(&self, f: u32) -> u64
        requires { f < length self.now.functions }
        ensures { result ≡ length (trace self.now f) }
    {
        self.sizes[f as usize].points
    }

    /// The size of the trace of function `f`.
    pub fn size(&self, f: u32) -> Size
        requires { f < length self.now.functions }
        ensures points { result.points ≡ length (trace self.now f) }
        ensures frames { result.frames ≡ most_frames (trace self.now f) }
        ensures local { result.local ≡ all_pass is_local (trace self.now f) }
        ensures work { result.work ≡ all_pass is_work (trace self.now f) }
        ensures before { result.before ≡ local_before (trace self.now f) }
        ensures first { result.first ≡ first_shared (trace self.now f) }
    {
        self.sizes[f as usize]
    }

    /// The statements of function `f`, and what is kept of them.
    pub fn block(&self, f: u32) -> Block<'_>
        ensures statements { result.statements.now ≡ body_of self.now f }
        ensures block { IsBlock self.now result }
    {
        let base = self.table.bases.get(f as usize).copied().unwrap_or(NO_BASE);
        let statements: &[Stmt] = match self.parts.functions.get(f as usize) {
            Some(function) => function.body.as_slice(),
            None => &[],
        };
        Block {
            statements,
            loops: limits::LOOPS,
            base,
            table: self.table.suffixes.as_slice(),
        }
    }
}

/// Checks the parts of a program file. They are tested for `main`, for bodies without a statement, for functions
/// that can call themselves and for traces that are too long, in this order. `Parts::in_limits` tells whether the
/// parts may be given. Its time grows with the statements, and with the cube of the functions, of which there are few.
pub fn check(alloc: Global, parts: Parts) -> Result<Program, Bad>
    requires { AreInLimits parts }
    ensures ok { IfOk result (λ program. program ≡ parts) }
    ensures checked { OnOk result (IsProgram parts) }
    ensures fault { IfErr result (IsCause parts) }
{
    if main_place(&parts).is_none() {
        return Err(Bad::NoMain);
    }
    if let Some(function) = empty_place(&parts) {
        return Err(Bad::Empty {
            function: function as u32,
        });
    }
    let calls = lead_rows(alloc, &parts)?;
    if let Some(function) = recursive_place(calls.rows.as_slice()) {
        return Err(Bad::Recursion {
            function: function as u32,
        });
    }
    let ranks = ranks(alloc, calls.rows.as_slice())?;
    let Walk {
        sizes,
        table,
        loops,
    } = walk_functions(alloc, &parts, ranks.as_slice(), calls.statements)?;
    if let Some(function) = long_place(sizes.as_slice()) {
        return Err(Bad::TooLong {
            function: function as u32,
        });
    }
    let depth = most_frames(sizes.as_slice());
    Ok(Program {
        parts,
        sizes,
        table,
        loops,
        depth,
    })
}
