ghost use Rattle.std.specs.Prelude.{◌≡◌, ◌<◌, ◌≤◌, ◌^◌, ◌-◌, ◌+◌, ℕ, suc, None, List, length, replicate, All, IfOk, OnOk, slice_index_or};
ghost use Rattle.gp_isa.specs.Calls.{first_recursive};
ghost use Rattle.gp_isa.specs.InLimits.{AreInLimits};
ghost use Rattle.gp_isa.specs.Limits.{most_functions};
ghost use Rattle.gp_isa.specs.Nesting.{loops_in, loops_of, nesting_of};
ghost use Rattle.gp_isa.specs.Statement.{action, loop_body};
ghost use Rattle.gp_isa.specs.Trace.{Point, points_at, points_of_body, trace};
ghost use Rattle.gp_isa.specs.kept.Blocks.{no_base, AddsBlock, Grows, AreBlocks};
ghost use Rattle.gp_isa.specs.kept.Sizes.{size_of, no_size, AreSizes, AreRanks};
ghost use Rattle.gp_isa.specs.kept.Walks.{Done, IsWalked};

use crate::limits;
use crate::memory::Memory;
use crate::parts::Parts;
use crate::size::{Shared, Size, size_at};
use crate::statement::{Stmt, What};
use crate::suffix::{NO_BASE, Suffix, Table, narrow};
use std::alloc::Global;

/// What is kept of the functions that were walked over.
#[derive(Debug, Drop)]
pub struct Walk {
    /// Of each function's trace.
    pub sizes: Vec<Size>,
    /// Of each function's statements.
    pub table: Table,
    /// How many loops stand inside each other at most.
    pub loops: u32,
}

/// What a body's statements are, or what one statement is.
#[derive(Clone, Copy, Debug)]
struct Found {
    /// Where the entries of the body begin; of a statement where those of its own body do, if it is a loop.
    base: u32,
    /// The size of its points.
    size: Size,
    /// How many loops stand inside each other at most.
    loops: u32,
}

/// What a statement is that is no loop.
fn flat(size: Size) -> Found
    ensures size { result.size ≡ size }
    ensures base { result.base ≡ no_base }
    ensures loops { result.loops ≡ 0 }
{
    Found {
        base: NO_BASE,
        size,
        loops: 0,
    }
}

/// Adds room for the entries of so many statements, and says where it begins.
fn add_room(table: &mut Vec<Suffix>, statements: usize) -> Result<usize, Memory>
    ensures place { IfOk result (λ place. place ≡ length table.old.items) }
    ensures grows { IfOk result (λ _. Grows table.old.items table.new.items) }
    ensures room { IfOk result (λ place. place + statements ≤ length table.new.items) }
{
    let place = table.len();
    let end = place.checked_add(statements).ok_or(Memory)?;
    table.resize(end, Suffix::none())?;
    Ok(place)
}

/// Walks over a body's statements, from the last to the first, and adds their entries, and behind them those of its loops'
/// bodies. Loops stand at most `deep` inside each other, and `sizes` are those of the functions called.
#[cycle(walk)]
fn walk_body(
    body: &[Stmt],
    deep: u8,
    sizes: &[Size],
    table: &mut Vec<Suffix>,
) -> Result<Found, Memory>
    requires { All (λ s. s.frames < 2 ^ 32 - 1) sizes.now }
    ensures grows { IfOk result (λ _. Grows table.old.items table.new.items) }
    ensures block { IfOk result (λ found. found.base < no_base → (calls : ℕ → List Point) → AreSizes sizes.now calls →
        AddsBlock calls table.old.items table.new.items (suc deep) found.base body.now) }
    ensures size { IfOk result (λ found. (calls : ℕ → List Point) (f : ℕ) → AreSizes sizes.now calls →
        found.size ≡ size_of (points_of_body calls f (suc deep) body.now)) }
    ensures loops { IfOk result (λ found. found.loops ≡ loops_in (suc deep) body.now) }
    ensures few { IfOk result (λ found. found.loops ≤ deep + 1) }
{
    let place = add_room(table, body.len())?;
    let mut behind = Suffix::none();
    let mut size = Size::none();
    let mut loops = 0;
    let mut at = body.len();
    while at > 0 {
        at -= 1;
        let what = &body[at].what;
        let here = walk_statement(what, deep, sizes, table)?;
        behind = behind.before(here.size, here.base);
        size = here.size.then(size);
        loops = here.loops.max(loops);
        table[place + at] = behind;
    }
    let base = narrow(place);
    Ok(Found { base, size, loops })
}

/// Walks over one statement, and adds the entries of its body, if it is a loop.
#[cycle(walk)]
fn walk_statement(
    what: &What,
    deep: u8,
    sizes: &[Size],
    table: &mut Vec<Suffix>,
) -> Result<Found, Memory>
    requires { All (λ s. s.frames < 2 ^ 32 - 1) sizes.now }
    ensures grows { IfOk result (λ _. Grows table.old.items table.new.items) }
    ensures block { IfOk result (λ found. found.base < no_base → (calls : ℕ → List Point) → AreSizes sizes.now calls →
        AddsBlock calls table.old.items table.new.items deep found.base (loop_body (action what.now))) }
    ensures size { IfOk result (λ found. (calls : ℕ → List Point) (f line : ℕ) → AreSizes sizes.now calls →
        found.size ≡ size_of (points_at calls (points_of_body calls f deep) f line (action what.now))) }
    ensures loops { IfOk result (λ found. found.loops ≡ loops_of (loops_in deep) (action what.now)) }
    ensures few { IfOk result (λ found. found.loops ≤ deep + 1) }
{
    match what {
        What::Work { n } => Ok(flat(Size::work(*n))),
        What::Call { f } => Ok(flat(size_at(sizes, *f).called())),
        What::Loop { n, body, .. } => {
            if deep == 0 {
                return Ok(Found {
                    base: NO_BASE,
                    size: Size::none().repeated(*n),
                    loops: 1,
                });
            }
            let once = walk_body(body.get().as_slice(), deep - 1, sizes, table)?;
            Ok(Found {
                base: once.base,
                size: once.size.repeated(*n),
                loops: once.loops + 1,
            })
        }
        What::Labels { .. } => Ok(flat(Size::labels())),
        What::Send { c } => Ok(flat(Size::shared(Shared::Send { c: *c }))),
        What::Recv { c } => Ok(flat(Size::shared(Shared::Recv { c: *c }))),
        What::Lock { m } => Ok(flat(Size::shared(Shared::Lock { m: *m }))),
        What::Unlock { m } => Ok(flat(Size::shared(Shared::Unlock { m: *m }))),
        What::Spawn { f } => Ok(flat(Size::shared(Shared::Spawn { f: *f }))),
    }
}

/// Walks over function `f`, where those of lower ranks are there, and those of its rank before it.
fn walk_function(parts: &Parts, ranks: &[usize], f: usize, walk: &mut Walk) -> Result<(), Memory>
    requires limits { AreInLimits parts.now }
    requires acyclic { first_recursive parts.now ≡ None }
    requires ranks { AreRanks parts.now most_functions ranks.now }
    requires there { f < length parts.now.functions }
    requires before { IsWalked parts.now walk.old (Done ranks.now (slice_index_or ranks.now f 0) f) }
    ensures { OnOk result (IsWalked parts.now walk.new (Done ranks.now (slice_index_or ranks.now f 0) (f + 1))) }
{
    let functions = parts.functions.as_slice();
    let body = functions[f].body.as_slice();
    let sizes = walk.sizes.as_slice();
    let found = walk_body(body, limits::LOOPS, sizes, &mut walk.table.suffixes)?;
    walk.sizes[f] = found.size;
    walk.table.bases[f] = found.base;
    walk.loops = walk.loops.max(found.loops);
    Ok(())
}

/// Walks over function `f`, if it is of a rank.
fn walk_ranked(
    parts: &Parts,
    ranks: &[usize],
    rank: usize,
    f: usize,
    walk: &mut Walk,
) -> Result<(), Memory>
    requires limits { AreInLimits parts.now }
    requires acyclic { first_recursive parts.now ≡ None }
    requires ranks { AreRanks parts.now most_functions ranks.now }
    requires there { f < length parts.now.functions }
    requires before { IsWalked parts.now walk.old (Done ranks.now rank f) }
    ensures { OnOk result (IsWalked parts.now walk.new (Done ranks.now rank (f + 1))) }
{
    if ranks[f] == rank {
        return walk_function(parts, ranks, f, walk);
    }
    Ok(())
}

/// Walks over the functions of one rank, where those of lower ranks are there.
fn walk_rank(parts: &Parts, ranks: &[usize], rank: usize, walk: &mut Walk) -> Result<(), Memory>
    requires limits { AreInLimits parts.now }
    requires acyclic { first_recursive parts.now ≡ None }
    requires ranks { AreRanks parts.now most_functions ranks.now }
    requires before { IsWalked parts.now walk.old (λ f. slice_index_or ranks.now f 0 < rank) }
    ensures { OnOk result (IsWalked parts.now walk.new (λ f. slice_index_or ranks.now f 0 < rank + 1)) }
{
    for f in 0..parts.functions.len() {
        walk_ranked(parts, ranks, rank, f, walk)?;
    }
    Ok(())
}

/// Sizes of no points, one for each function.
fn no_sizes(alloc: Global, parts: &Parts) -> Result<Vec<Size>, Memory>
    ensures { IfOk result (λ sizes. sizes.items ≡ replicate (length parts.now.functions) no_size) }
{
    Ok(Vec::from_elem(alloc, Size::none(), parts.functions.len())?)
}

/// Places of no entries, one for each function.
fn no_bases(alloc: Global, parts: &Parts) -> Result<Vec<u32>, Memory>
    ensures { IfOk result (λ bases. bases.items ≡ replicate (length parts.now.functions) no_base) }
{
    Ok(Vec::from_elem(alloc, NO_BASE, parts.functions.len())?)
}

/// Nothing of any function, with room for so many statements.
fn begin(alloc: Global, parts: &Parts, statements: usize) -> Result<Walk, Memory>
    ensures { IfOk result (λ walk. IsWalked parts.now walk (λ f. ⊥)) }
{
    let sizes = no_sizes(alloc, parts)?;
    let bases = no_bases(alloc, parts)?;
    let suffixes = Vec::with_capacity(alloc, statements)?;
    Ok(Walk {
        sizes,
        table: Table { suffixes, bases },
        loops: 0,
    })
}

/// Walks over all functions, of which there are so many statements. Each comes after those that it calls, so that one
/// walk over its statements gives all that is kept of them.
pub fn walk_functions(
    alloc: Global,
    parts: &Parts,
    ranks: &[usize],
    statements: usize,
) -> Result<Walk, Memory>
    requires limits { AreInLimits parts.now }
    requires acyclic { first_recursive parts.now ≡ None }
    requires ranks { AreRanks parts.now most_functions ranks.now }
    ensures len { IfOk result (λ walk. length walk.sizes.items ≡ length parts.now.functions) }
    ensures sizes { IfOk result (λ walk. AreSizes walk.sizes.items (trace parts.now)) }
    ensures blocks { IfOk result (λ walk. AreBlocks parts.now walk.table.suffixes.items walk.table.bases.items) }
    ensures loops { IfOk result (λ walk. walk.loops ≡ nesting_of parts.now) }
    ensures few { IfOk result (λ walk. walk.loops ≤ 9) }
{
    let mut walk = begin(alloc, parts, statements)?;
    for rank in 0..limits::FUNCTIONS + 1 {
        walk_rank(parts, ranks, rank, &mut walk)?;
    }
    Ok(walk)
}
