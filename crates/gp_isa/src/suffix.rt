ghost use Rattle.std.specs.Prelude.{◌≡◌, true, ◌+◌, ◌⊎◌, ◌∷◌, ℕ, suc, List, []};
ghost use Rattle.gp_isa.specs.Statement.{action_of, line_of};
ghost use Rattle.gp_isa.specs.Trace.{Point, points_at, points_of_body};
ghost use Rattle.gp_isa.specs.declared.statement.Stmt.{Stmt};
ghost use Rattle.gp_isa.specs.kept.Sizes.{size_of};
ghost use Rattle.gp_isa.specs.kept.Blocks.{no_base, IsSuffix};

use crate::limits;
use crate::size::Size;

/// Where the entries of a body begin of which nothing is kept.
pub const NO_BASE: u32 = 4_294_967_295;

/// What is kept of a statement and those behind it in its body, in 24 bytes.
#[derive(Clone, Copy, Debug)]
pub struct Suffix {
    /// The number of their points, where all numbers above the limit are one.
    pub points: u64,
    /// The most frames of a stack of these points.
    pub frames: u32,
    /// How many of the statements, from the first on, have local points alone.
    pub local: u32,
    /// How many of them have points of work alone.
    pub work: u32,
    /// Where the entries of the statement's own body begin, if it is a loop.
    pub inner: u32,
}

/// The table of a program: an entry for each statement, those of one body in their order, and where the entries of each
/// function begin.
#[derive(Debug, Drop)]
pub struct Table {
    pub suffixes: Vec<Suffix>,
    pub bases: Vec<u32>,
}

/// How many statements pass, where `run` of those behind the first one do.
fn one_more(passes: bool, run: u32) -> u32
    ensures { (result ≡ 0) ⊎ ((passes ≡ true) × (result ≡ run + 1)) }
{
    if passes && run < NO_BASE { run + 1 } else { 0 }
}

impl Suffix {
    /// What is kept of no statements.
    pub(crate) fn none() -> Suffix
        ensures { (calls : ℕ → List Point) (deep : ℕ) → IsSuffix calls (suc deep) result [] }
    {
        Suffix {
            points: 0,
            frames: 0,
            local: 0,
            work: 0,
            inner: NO_BASE,
        }
    }

    /// These statements, and before them one with points of a size.
    pub(crate) fn before(self, here: Size, inner: u32) -> Suffix
        ensures sums { (calls : ℕ → List Point) (deep : ℕ) (s : Stmt) (body : List Stmt) → IsSuffix calls (suc deep) self body →
            ((f : ℕ) → here ≡ size_of (points_at calls (points_of_body calls f deep) f (line_of s) (action_of s))) →
            IsSuffix calls (suc deep) result (s ∷ body) }
        ensures inner { result.inner ≡ inner }
    {
        Suffix {
            points: here
                .points
                .saturating_add(self.points)
                .min(limits::POINTS + 1),
            frames: here.frames.max(self.frames),
            local: one_more(here.local, self.local),
            work: one_more(here.work, self.work),
            inner,
        }
    }
}

/// A place in a table as it is kept.
pub fn narrow(base: usize) -> u32
    ensures { (result ≡ no_base) ⊎ (result ≡ base) }
{
    base.min(NO_BASE as usize) as u32
}
