ghost use Rattle.std.specs.Prelude.{◌≡◌, ◌<◌, ◌≤◌, ◌-◌, ◌+◌, ℕ, suc, min, IfSome, drop, length};
ghost use Rattle.gp_isa.specs.declared.parts.Parts.{Parts};
ghost use Rattle.gp_isa.specs.Limits.{most_points};
ghost use Rattle.gp_isa.specs.Size.{is_work};
ghost use Rattle.gp_isa.specs.Statement.{body_inside};
ghost use Rattle.gp_isa.specs.Trace.{is_local, points_of_body, trace};
ghost use Rattle.gp_isa.specs.Block.{IsBlock, IsRun, between};
ghost use Rattle.gp_isa.specs.kept.Blocks.{no_base, IsEntry, IsSuffix, HasBlock};

use crate::limits;
use crate::statement::{Stmt, What};
use crate::suffix::{NO_BASE, Suffix};

/// The statements of a body, and what a program keeps of them.
#[derive(Clone, Copy, Debug)]
pub struct Block<'a> {
    /// The statements.
    pub statements: &'a [Stmt],
    /// How deep loops stand inside each other in the body at most.
    pub loops: u8,
    pub(crate) base: u32,
    pub(crate) table: &'a [Suffix],
}

/// Statements of a body, up to one that comes behind them.
#[derive(Clone, Copy, Debug, PartialEq, Eq)]
pub struct Run {
    /// The statement behind them.
    pub to: usize,
    /// How many points they have.
    pub points: u64,
}

impl<'a> Block<'a> {
    /// The entry of statement `at`.
    fn entry(&self, at: usize) -> Option<Suffix>
        ensures there { IfSome result (λ _. at < length self.now.statements.now) }
        ensures entry { IfSome result (λ suffix. (parts : Parts) → IsBlock parts self.now →
            IsEntry (trace parts) (HasBlock (trace parts) self.now.table.now self.now.loops) (suc self.now.loops) suffix
            self.now.statements.now at) }
    {
        if self.base >= NO_BASE || at >= self.statements.len() {
            return None;
        }
        let place = at.checked_add(self.base as usize)?;
        if place >= self.table.len() {
            return None;
        }
        let suffix = self.table[place];
        Some(suffix)
    }

    /// The points of the statements from `at` on, where all numbers above the limit are one.
    fn points_from(&self, at: usize) -> Option<u64>
        ensures { IfSome result (λ n. (parts : Parts) → IsBlock parts self.now → (f : ℕ) →
            n ≡ min (length (points_of_body (trace parts) f (suc self.now.loops) (drop at self.now.statements.now))) (most_points + 1)) }
    {
        if at >= self.statements.len() {
            return Some(0);
        }
        let suffix = self.entry(at)?;
        Some(suffix.points)
    }

    /// The body of statement `at`, of no statements where it is no loop.
    pub fn inside(&self, at: usize) -> Block<'a>
        ensures statements { result.statements.now ≡ body_inside self.now.statements.now at }
        ensures block { (parts : Parts) → IsBlock parts self.now → IsBlock parts result }
    {
        let inner = match self.statements.get(at) {
            Some(
                Stmt {
                    what: What::Loop { body, .. },
                    ..
                },
            ) => body.get().as_slice(),
            _ => &[],
        };
        let base = match self.entry(at) {
            Some(suffix) if self.loops > 0 => suffix.inner,
            _ => NO_BASE,
        };
        Block {
            statements: inner,
            loops: self.loops.saturating_sub(1),
            base,
            table: self.table,
        }
    }

    /// What is kept of the statements from `at` on, where no number is cut off, loops are followed so deep, and stacks
    /// have one frame more than `calls` at most.
    fn whole_entry(&self, at: usize, loops: u8, calls: u16) -> Option<Suffix>
        ensures there { IfSome result (λ _. at < length self.now.statements.now) }
        ensures loops { IfSome result (λ _. loops ≡ self.now.loops) }
        ensures few { IfSome result (λ suffix. (suffix.points ≤ most_points) × (suffix.frames ≤ calls + 1)) }
        ensures sums { IfSome result (λ suffix. (parts : Parts) → IsBlock parts self.now →
            IsSuffix (trace parts) (suc self.now.loops) suffix (drop at self.now.statements.now)) }
    {
        let suffix = self.entry(at)?;
        if loops != self.loops
            || suffix.points > limits::POINTS
            || suffix.frames > calls as u32 + 1
        {
            return None;
        }
        Some(suffix)
    }

    /// The statements from `at` on that have local points alone, where there is one, with calls and loops followed so
    /// deep.
    pub fn local_run(&self, at: usize, loops: u8, calls: u16) -> Option<Run>
        ensures within { IfSome result (λ run. (at < run.to) × (run.to ≤ length self.now.statements.now)) }
        ensures run { IfSome result (λ run. (parts : Parts) → IsBlock parts self.now →
            IsRun parts is_local self.now.statements.now loops calls at run) }
    {
        let suffix = self.whole_entry(at, loops, calls)?;
        if suffix.local == 0 {
            return None;
        }
        let to = at + (suffix.local as usize).min(self.statements.len() - at);
        let behind = self.points_from(to)?;
        Some(Run {
            to,
            points: suffix.points.saturating_sub(behind),
        })
    }

    /// Two statements up to `end`: before the first one, statements from `at` on with `points` points, that of all behind
    /// it counted in, have at most `most`, and behind the second one more. Steps from the front double, since mostly few
    /// statements are taken.
    fn bounds(&self, at: usize, end: usize, points: u64, most: u64) -> (usize, usize)
        requires { at ≤ end }
        ensures { (at ≤ result.0) × (result.0 ≤ result.1) × (result.1 ≤ end) }
    {
        let mut low = at;
        let mut step = 1;
        while low < end {
            let next = low + (end - low).min(step);
            if !self.fits(next, points, most) {
                return (low, next - 1);
            }
            low = next;
            step = step.saturating_mul(2);
        }
        (end, end)
    }

    /// The last statement up to `end` before which statements from one on with `points` points, that of all behind it
    /// counted in, have at most `most`.
    fn last_within(&self, at: usize, end: usize, points: u64, most: u64) -> usize
        requires { at ≤ end }
        ensures within { (at ≤ result) × (result ≤ end) }
    {
        let bounds = self.bounds(at, end, points, most);
        let mut low = bounds.0;
        let mut high = bounds.1;
        while low < high {
            let mid = high - (high - low) / 2;
            if self.fits(mid, points, most) {
                low = mid;
            } else {
                high = mid - 1;
            }
        }
        low
    }

    /// Whether statements with so many points up to their body's end have at most `most` before statement `to`.
    fn fits(&self, to: usize, points: u64, most: u64) -> bool {
        match self.points_from(to) {
            Some(behind) => points.saturating_sub(behind) <= most,
            None => false,
        }
    }

    /// As many statements from `at` on as have points of work alone, at most `most`, where there is one, with calls and
    /// loops followed so deep. They are found by steps that double, and then by halves.
    pub fn work_run(&self, at: usize, loops: u8, calls: u16, most: u64) -> Option<Run>
        ensures within { IfSome result (λ run. (at < run.to) × (run.to ≤ length self.now.statements.now)) }
        ensures few { IfSome result (λ run. run.points ≤ most) }
        ensures run { IfSome result (λ run. (parts : Parts) → IsBlock parts self.now →
            IsRun parts is_work self.now.statements.now loops calls at run) }
    {
        let suffix = self.whole_entry(at, loops, calls)?;
        if suffix.work == 0 {
            return None;
        }
        let many = (suffix.work as usize)
            .min(self.statements.len() - at)
            .min(most as usize);
        let to = self.last_within(at, at + many, suffix.points, most);
        if to == at {
            return None;
        }
        let points = suffix.points.saturating_sub(self.points_from(to)?);
        if points > most {
            return None;
        }
        Some(Run { to, points })
    }
}
