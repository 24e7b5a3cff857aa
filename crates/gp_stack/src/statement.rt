ghost use Rattle.std.specs.Prelude.{◌≡◌, ◌<◌, length, slice_get, OnSome};
ghost use Rattle.std.specs.Option.{option_copied};
ghost use Rattle.gp_stack.specs.kept.Ahead.{IsAhead, HasNext};

use gp_isa::{Stmt, What};

/// An operation that touches more than the goroutine that does it. Channels, mutexes and functions are counted from
/// 0 in file order.
#[derive(Clone, Copy, Debug, PartialEq, Eq)]
pub enum Operation {
    /// A send into channel `c`.
    Send { c: u32 },
    /// A receive from channel `c`.
    Recv { c: u32 },
    /// The lock of mutex `m`.
    Lock { m: u32 },
    /// The unlock of mutex `m`.
    Unlock { m: u32 },
    /// A new goroutine that runs function `f`.
    Spawn { f: u32 },
}

/// What stands at a place of a body.
#[derive(Clone, Copy)]
pub(crate) enum Ahead<'a> {
    End,
    Work(u32),
    Labels(u8),
    Loop(u32, &'a [Stmt]),
    Call(u32),
    Shared(Operation),
}

/// Statement `at` of a body.
pub(crate) fn statement(body: &[Stmt], at: usize) -> Option<&Stmt>
    ensures value { option_copied result ≡ slice_get body.now at }
    ensures within { OnSome result (at < length body.now) }
{
    body.get(at)
}

/// What statement `at` of a body does.
pub(crate) fn statement_at(body: &[Stmt], at: usize) -> Ahead<'_>
    ensures ahead { IsAhead body.now at result }
    ensures within { HasNext at result }
{
    match statement(body, at) {
        None => Ahead::End,
        Some(s) => match &s.what {
            What::Work { n } => Ahead::Work(*n),
            What::Labels { s } => Ahead::Labels(*s),
            What::Loop { n, body, .. } => Ahead::Loop(*n, body.get().as_slice()),
            What::Call { f } => Ahead::Call(*f),
            What::Send { c } => Ahead::Shared(Operation::Send { c: *c }),
            What::Recv { c } => Ahead::Shared(Operation::Recv { c: *c }),
            What::Lock { m } => Ahead::Shared(Operation::Lock { m: *m }),
            What::Unlock { m } => Ahead::Shared(Operation::Unlock { m: *m }),
            What::Spawn { f } => Ahead::Shared(Operation::Spawn { f: *f }),
        },
    }
}
