ghost use Rattle.std.specs.Prelude.{◌≡◌, ℕ, List, ◌<◌, ◌+◌, ◌^◌, [], ◌∷◌, ◌++◌, length, replicate, sum_by, slice_get, slice_index_or, IfOk, IfNone, IfSome};
ghost use Rattle.gp_sync.specs.Operations.{waiter};
ghost use Rattle.gp_sync.specs.Places.{in_line};
ghost use Rattle.gp_sync.specs.kept.Links.{AreLinked, line_of, lines_of, linked, lengthened, shortened, with_last, without_head, BeginsWith};

use crate::effect::Waiter;
use gp_isa::Memory;
use std::alloc::Global;
use std::marker::Model;

/// A line: the goroutines at its head and its tail, if any, and how many stand in it.
#[derive(Clone, Copy, Debug)]
struct Line {
    head: u32,
    tail: u32,
    length: u32,
}

const EMPTY: Line = Line {
    head: 0,
    tail: 0,
    length: 0,
};

/// Lines in which goroutines wait, each in one of them at most, so that one link a goroutine serves all lines.
///
/// A line is known by its number, counted from 0.
#[derive(Debug, Drop)]
pub struct Lines {
    // by goroutine: who stands behind it, where one does
    next: Vec<u32>,
    // by goroutine: the clock at which it came to its line
    since: Vec<u64>,
    lines: Vec<Line>,
}

impl Model for Lines {
    ghost use Rattle.std.specs.Prelude.{length};
    ghost use Rattle.gp_sync.specs.kept.Links.{LineTable, lines_of, AreLinked};

    ghost Value = { LineTable };

    ghost view = { λ t. record { cells = length t.next.items; lines = lines_of t.next.items t.since.items t.lines.items } };

    ghost invariant = { λ t. AreLinked t.next.items t.since.items t.lines.items };
}

// Lets g stand behind the tail of a line, where the line has one.
fn link(next: &mut [u32], line: Line, g: u32)
    requires { 0 < line.length → line.tail < length next.old }
    ensures { next.new ≡ linked next.old line g }
{
    if line.length > 0 {
        next[line.tail as usize] = g;
    }
}

fn lengthened(line: Line, g: u32) -> Line
    requires { line.length + 1 < 2 ^ 32 }
    ensures { result ≡ lengthened line g }
{
    Line {
        head: if line.length == 0 { g } else { line.head },
        tail: g,
        length: line.length + 1,
    }
}

fn shortened(next: &[u32], line: Line) -> Line
    requires some { 0 < line.length }
    requires within { line.head < length next.now }
    ensures { result ≡ shortened next.now line }
{
    Line {
        head: next[line.head as usize],
        tail: line.tail,
        length: line.length - 1,
    }
}

// Lets g stand at the tail of a line.
fn push_tail(next: &mut [u32], since: &mut [u64], lines: &mut [Line], at: usize, g: u32, clock: u64)
    requires linked { AreLinked next.old since.old lines.old }
    requires there { at < length lines.old }
    requires within { g < length next.old }
    requires waits_nowhere { sum_by (in_line g) (lines_of next.old since.old lines.old) ≡ 0 }
    ensures linked { AreLinked next.new since.new lines.new }
    ensures lines { lines_of next.new since.new lines.new ≡ with_last (lines_of next.old since.old lines.old) at (waiter g clock) }
{
    let line = lines[at];
    since[g as usize] = clock;
    link(next, line, g);
    lines[at] = lengthened(line, g);
}

// The goroutine at the head of a line, if one waits. Who stands behind whom doesn't matter.
fn head(since: &[u64], line: Line) -> Option<Waiter>
    requires { 0 < line.length → line.head < length since.now }
    ensures { (next : List ℕ) → result ≡ slice_get (line_of next since.now line) 0 }
{
    if line.length == 0 {
        return None;
    }
    Some(Waiter {
        g: line.head,
        since: since[line.head as usize],
    })
}

// Takes the goroutine at the head of a line from it.
fn pop_head(next: &[u32], since: &[u64], lines: &mut [Line], at: usize) -> Option<Waiter>
    requires linked { AreLinked next.now since.now lines.old }
    requires there { at < length lines.old }
    ensures linked { AreLinked next.now since.now lines.new }
    ensures none { IfNone result (slice_index_or (lines_of next.now since.now lines.old) at [] ≡ []) }
    ensures same { IfNone result (lines.new ≡ lines.old) }
    ensures head { IfSome result (λ head. BeginsWith head (slice_index_or (lines_of next.now since.now lines.old) at [])) }
    ensures lines { lines_of next.now since.now lines.new ≡ without_head (lines_of next.now since.now lines.old) at }
{
    let line = lines[at];
    let head = head(since, line)?;
    lines[at] = shortened(next, line);
    Some(head)
}

impl Lines {
    /// So many lines, all empty, for goroutines whose numbers are below `cells`. Nothing that is done with the lines
    /// takes memory after.
    pub fn new(alloc: Global, cells: u32, count: usize) -> Result<Lines, Memory>
        ensures { IfOk result (λ lines. lines ≡ record { cells = cells; lines = replicate count [] }) }
    {
        let next = vec![in alloc; 0; cells as usize]?;
        let since = vec![in alloc; 0; cells as usize]?;
        let lines = vec![in alloc; EMPTY; count]?;
        Ok(Lines { next, since, lines })
    }

    /// Lets goroutine g wait at the tail of a line, since a clock.
    pub fn push_back(&mut self, at: usize, g: u32, since: u64)
        requires there { at < length self.old.lines }
        requires within { g < self.old.cells }
        requires waits_nowhere { sum_by (in_line g) self.old.lines ≡ 0 }
        ensures { self.new ≡ record self.old { lines = with_last self.old.lines at (waiter g since) } }
    {
        push_tail(
            &mut self.next,
            &mut self.since,
            &mut self.lines,
            at,
            g,
            since,
        );
    }

    /// The goroutine at the head of a line, if one waits. It stays there.
    pub fn front(&self, at: usize) -> Option<Waiter>
        requires { at < length self.now.lines }
        ensures { result ≡ slice_get (slice_index_or self.now.lines at []) 0 }
    {
        let line = self.lines[at];
        head(&self.since, line)
    }

    /// Takes the goroutine at the head of a line from it, if one waits.
    pub fn pop_front(&mut self, at: usize) -> Option<Waiter>
        requires { at < length self.old.lines }
        ensures none { IfNone result (slice_index_or self.old.lines at [] ≡ []) }
        ensures same { IfNone result (self.new ≡ self.old) }
        ensures head { IfSome result (λ head. BeginsWith head (slice_index_or self.old.lines at [])) }
        ensures rest { self.new ≡ record self.old { lines = without_head self.old.lines at } }
    {
        pop_head(&self.next, &self.since, &mut self.lines, at)
    }
}
