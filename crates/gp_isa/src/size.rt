ghost use Rattle.std.specs.Prelude.{◌≡◌, Some, cond, min, ◌<◌, ◌-◌, ◌+◌, ◌++◌, ◌^◌, ℕ, List, ◌∷◌, [], length, map, replicate, IfSome, nat_lt, slice_index_or};
ghost use Rattle.gp_isa.specs.Limits.{most_points};
ghost use Rattle.gp_isa.specs.Calls.{first_from};
ghost use Rattle.gp_isa.specs.Trace.{Point, Instruction, Local, Labels, point_at, called_at, repeated};
ghost use Rattle.gp_isa.specs.Size.{most_frames_below, shared_of};
ghost use Rattle.gp_isa.specs.kept.Sizes.{size_of, AreSizes};

use crate::limits;

/// What is done at a shared point. Channels, mutexes and functions are counted from 0 in file order.
#[derive(Clone, Copy, Debug)]
pub enum Shared {
    /// A send into channel `c`.
    Send { c: u32 },
    /// A receive from channel `c`.
    Recv { c: u32 },
    /// The lock of mutex `m`.
    Lock { m: u32 },
    /// The unlock of mutex `m`.
    Unlock { m: u32 },
    /// A new goroutine that runs function `f`.
    Spawn { f: u32 },
}

/// What is kept of a list of points.
#[derive(Clone, Copy, Debug)]
pub struct Size {
    /// The number of points, where all numbers above the limit are one.
    pub points: u64,
    /// The most frames of a stack of these points.
    pub frames: u32,
    /// Whether all points are local.
    pub local: bool,
    /// Whether all points are instructions of work.
    pub work: bool,
    /// How many local points come before the first shared one, or in all, where all numbers above the limit are one.
    pub before: u64,
    /// The first shared point.
    pub first: Option<Shared>,
}

impl Size {
    /// No points.
    pub(crate) fn none() -> Size
        ensures { result ≡ size_of [] }
    {
        Size {
            points: 0,
            frames: 0,
            local: true,
            work: true,
            before: 0,
            first: None,
        }
    }

    /// The point of a new label set, which is local.
    pub(crate) fn labels() -> Size
        ensures { (f line set : ℕ) → result ≡ size_of (point_at f line (Labels set) ∷ []) }
    {
        Size {
            points: 1,
            frames: 1,
            local: true,
            work: false,
            before: 1,
            first: None,
        }
    }

    /// A shared point.
    pub(crate) fn shared(first: Shared) -> Size
        ensures { (f line : ℕ) (instruction : Instruction) → shared_of instruction ≡ Some first →
            result ≡ size_of (point_at f line instruction ∷ []) }
    {
        Size {
            points: 1,
            frames: 1,
            local: false,
            work: false,
            before: 0,
            first: Some(first),
        }
    }

    /// The points of `work n`.
    pub(crate) fn work(n: u32) -> Size
        ensures { (f line : ℕ) → result ≡ size_of (replicate n (point_at f line Local)) }
    {
        if n == 0 {
            return Size::none();
        }
        Size {
            points: n as u64,
            frames: 1,
            local: true,
            work: true,
            before: n as u64,
            first: None,
        }
    }

    // The local points before the first shared one, where next ones come behind these that begin with so many.
    fn before_next(self, next: u64) -> u64
        ensures { result ≡ cond self.local (min (min (self.points + next) (2 ^ 64 - 1)) (most_points + 1)) self.before }
    {
        if self.local {
            self.points.saturating_add(next).min(limits::POINTS + 1)
        } else {
            self.before
        }
    }

    // The first shared point, where this one is the first of those behind.
    fn first_next(self, next: Option<Shared>) -> Option<Shared>
        ensures { result ≡ cond self.local next self.first }
    {
        if self.local { next } else { self.first }
    }

    /// These points, and behind them the next ones.
    pub(crate) fn then(self, next: Size) -> Size
        ensures { (points more : List Point) → self ≡ size_of points → next ≡ size_of more → result ≡ size_of (points ++ more) }
    {
        Size {
            points: self
                .points
                .saturating_add(next.points)
                .min(limits::POINTS + 1),
            frames: self.frames.max(next.frames),
            local: self.local & next.local,
            work: self.work & next.work,
            before: self.before_next(next.before),
            first: self.first_next(next.first),
        }
    }

    /// These points, passed in a call.
    pub(crate) fn called(self) -> Size
        requires { self.frames < 2 ^ 32 - 1 }
        ensures { (points : List Point) (f line : ℕ) → self ≡ size_of points → result ≡ size_of (map (called_at f line) points) }
    {
        Size {
            frames: if self.points == 0 { 0 } else { self.frames + 1 },
            ..self
        }
    }

    // The local points before the first shared one, where all of these, some times over, are so many.
    fn before_times(self, points: u64) -> u64
        ensures { result ≡ cond self.local points self.before }
    {
        if self.local { points } else { self.before }
    }

    /// These points `n` times.
    pub(crate) fn repeated(self, n: u32) -> Size
        ensures { (points : List Point) → self ≡ size_of points → result ≡ size_of (repeated n points) }
    {
        if n == 0 {
            return Size::none();
        }
        let points = self.points.saturating_mul(n as u64).min(limits::POINTS + 1);
        Size {
            points,
            before: self.before_times(points),
            ..self
        }
    }
}

/// The points of function `f`, none past the table's end.
pub fn size_at(sizes: &[Size], f: u32) -> Size
    ensures { result ≡ slice_index_or sizes.now f (size_of []) }
{
    sizes.get(f as usize).copied().unwrap_or(Size::none())
}

/// The first function whose trace is too long.
pub fn long_place(sizes: &[Size]) -> Option<usize>
    ensures place { result ≡ first_from (λ f. nat_lt most_points (slice_index_or sizes.now f (size_of [])).points) 0 (length sizes.now) }
    ensures within { IfSome result (λ f. f < length sizes.now) }
{
    for (f, size) in sizes.iter().enumerate() {
        if size.points > limits::POINTS {
            return Some(f);
        }
    }
    None
}

/// The most frames of a stack in all traces.
pub fn most_frames(sizes: &[Size]) -> u32
    ensures { (traces : ℕ → List Point) → AreSizes sizes.now traces → result ≡ most_frames_below traces (length sizes.now) }
{
    let mut most = 0;
    for size in sizes {
        most = size.frames.max(most);
    }
    most
}
