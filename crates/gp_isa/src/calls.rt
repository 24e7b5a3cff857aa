ghost use Rattle.std.specs.Prelude.{◌≡◌, ◌<◌, ◌-◌, ◌+◌, ◌≤◌, ℕ, suc, ◌||◌, List, [], length, All, IfOk, IfSome, slice_index_or};
ghost use Rattle.gp_isa.specs.declared.parts.Parts.{Parts};
ghost use Rattle.gp_isa.specs.InLimits.{AreInLimits};
ghost use Rattle.gp_isa.specs.Limits.{most_functions};
ghost use Rattle.gp_isa.specs.Statement.{action, most_bodies};
ghost use Rattle.gp_isa.specs.Calls.{calls_of, calls_in, callees, first_from, first_recursive};
ghost use Rattle.gp_isa.specs.kept.Ways.{is_among, marked, marks_below, AddsMarks, AreCalls, GoThrough, AreLeads};
ghost use Rattle.gp_isa.specs.kept.Sizes.{AreRanks};

use crate::limits;
use crate::memory::Memory;
use crate::parts::Parts;
use crate::statement::{Stmt, What};
use std::alloc::Global;

/// A mark for each function.
pub type Row = [bool; limits::FUNCTIONS];

/// Who calls whom: a row for each function. And how many statements there are, those of loops' bodies counted in.
#[derive(Debug, Drop)]
pub struct Calls {
    pub rows: Vec<Row>,
    pub statements: usize,
}

// Marks the functions that statements call, in which loops stand at most `deep` inside each other, and counts the
// statements.
#[cycle(calls)]
fn mark_calls(body: &[Stmt], deep: u8, row: &mut [bool]) -> usize
    requires { All (λ h. h < length row.old) (calls_in (suc deep) body.now) }
    ensures { AddsMarks row.old row.new (calls_in (suc deep) body.now) }
{
    let mut count = body.len();
    for statement in body {
        let inside = mark_statement(&statement.what, deep, row);
        count = count.saturating_add(inside);
    }
    count
}

// Marks the functions that a statement calls, and counts those of its body, if it is a loop.
#[cycle(calls)]
fn mark_statement(what: &What, deep: u8, row: &mut [bool]) -> usize
    requires { All (λ h. h < length row.old) (calls_of (calls_in deep) (action what.now)) }
    ensures { AddsMarks row.old row.new (calls_of (calls_in deep) (action what.now)) }
{
    match what {
        What::Call { f } => {
            row[*f as usize] = true;
            0
        }
        What::Loop { body, .. } => {
            if deep > 0 {
                return mark_calls(body.get().as_slice(), deep - 1, row);
            }
            0
        }
        What::Work { .. }
        | What::Send { .. }
        | What::Recv { .. }
        | What::Lock { .. }
        | What::Unlock { .. }
        | What::Spawn { .. }
        | What::Labels { .. } => 0,
    }
}

// The functions that a function's statements call, and how many statements those are.
fn call_row(body: &[Stmt]) -> (Row, usize)
    requires { All (λ h. h < most_functions) (calls_in most_bodies body.now) }
    ensures { (h : ℕ) → marked result.0 h ≡ is_among h (calls_in most_bodies body.now) }
{
    let mut row = [false; limits::FUNCTIONS];
    let count = mark_calls(body, limits::LOOPS, &mut row);
    (row, count)
}

// A row for each function, with marks at those that it calls.
fn call_rows(alloc: Global, parts: &Parts) -> Result<Calls, Memory>
    requires { AreInLimits parts.now }
    ensures len { IfOk result (λ calls. length calls.rows.items ≡ length parts.now.functions) }
    ensures calls { IfOk result (λ calls. AreCalls parts.now calls.rows.items) }
{
    let mut rows = Vec::with_capacity(alloc, parts.functions.len())?;
    let mut statements = 0usize;
    for function in parts.functions.as_slice() {
        let found = call_row(function.body.as_slice());
        statements = statements.saturating_add(found.1);
        rows.push(found.0)?;
    }
    Ok(Calls { rows, statements })
}

// The marks of both rows.
fn joined(row: Row, onward: Row) -> Row
    ensures { (h : ℕ) → marked result h ≡ (marked row h || marked onward h) }
{
    let mut both = row;
    for h in 0..limits::FUNCTIONS {
        // (without a branch, so that many are joined at once)
        both[h] = row[h] | onward[h];
    }
    both
}

// Who leads to a function leads to where it leads.
fn go_through(rows: &mut [Row], through: usize)
    requires few { length rows.old ≤ most_functions }
    requires within { through < length rows.old }
    ensures { GoThrough rows.old rows.new through }
{
    let onward = rows[through];
    for f in 0..rows.len() {
        if rows[f][through] {
            let row = rows[f];
            rows[f] = joined(row, onward);
        }
    }
}

/// A row for each function, with marks where calls lead: directly, and with each function that is gone through also
/// through that one.
pub fn lead_rows(alloc: Global, parts: &Parts) -> Result<Calls, Memory>
    requires { AreInLimits parts.now }
    ensures len { IfOk result (λ calls. length calls.rows.items ≡ length parts.now.functions) }
    ensures leads { IfOk result (λ calls. AreLeads parts.now (length parts.now.functions) calls.rows.items) }
{
    let mut calls = call_rows(alloc, parts)?;
    for through in 0..parts.functions.len() {
        go_through(calls.rows.as_mut_slice(), through);
    }
    Ok(calls)
}

/// The first function that can call itself, directly or through others: the first row with a mark at its own place.
pub fn recursive_place(rows: &[Row]) -> Option<usize>
    requires { length rows.now ≤ most_functions }
    ensures place { (parts : Parts) → AreInLimits parts → length rows.now ≡ length parts.functions →
        AreLeads parts (length parts.functions) rows.now → result ≡ first_recursive parts }
    ensures within { IfSome result (λ f. f < length rows.now) }
{
    for (f, row) in rows.iter().enumerate() {
        if row[f] {
            return Some(f);
        }
    }
    None
}

// How many marks a row has.
fn mark_count(row: &Row) -> usize
    ensures count { result ≡ marks_below row.now most_functions }
    ensures few { result ≤ most_functions }
{
    let mut count = 0;
    for h in 0..limits::FUNCTIONS {
        if row[h] {
            count += 1;
        }
    }
    count
}

/// To how many functions calls lead from each function, where none can call itself. From a function called they lead
/// to fewer: not to itself.
pub fn ranks(alloc: Global, rows: &[Row]) -> Result<Vec<usize>, Memory>
    ensures { IfOk result (λ ranks. (parts : Parts) → AreInLimits parts → first_recursive parts ≡ None →
        length rows.now ≡ length parts.functions → AreLeads parts (length parts.functions) rows.now →
        AreRanks parts most_functions ranks.items) }
{
    let mut ranks = Vec::new(alloc);
    for row in rows {
        ranks.push(mark_count(row))?;
    }
    Ok(ranks)
}
