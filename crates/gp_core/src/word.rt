ghost use Rattle.std.specs.Prelude.{◌≡◌};
ghost use Rattle.gp_core.specs.Stepped.{home_epoch};
ghost use Rattle.gp_core.specs.kept.Tests.{is_empty, is_home, is_home_of, is_claim_of};

/// The word of a cell: who has the body in it.
///
/// Seen from profile `e`, `Home` with the epoch before is a goroutine that has still to be recorded, `Claimed` with `e` one
/// whose row is being taken, and `Home` with `e` one that is done.
#[derive(Clone, Copy, Debug, PartialEq, Eq)]
pub enum Word {
    /// The cell holds no body.
    Dead,
    /// The body is at home. Its goroutine was born or last recorded in profile `epoch`.
    Home { epoch: u32 },
    /// Actor `actor` has the body, to record its goroutine in profile `epoch`.
    Claimed { epoch: u32, actor: u32 },
    /// Worker `actor` has the body, to run its goroutine, which was at home with `epoch`.
    Running { epoch: u32, actor: u32 },
}

impl Word {
    // Whether no body is there.
    pub(crate) fn is_empty(self) -> bool
        ensures { result ≡ is_empty self }
    {
        match self {
            Word::Dead => true,
            Word::Home { .. } => false,
            Word::Claimed { .. } => false,
            Word::Running { .. } => false,
        }
    }

    // Whether the body is at home.
    pub(crate) fn is_home(self) -> bool
        ensures { result ≡ is_home self }
    {
        match self {
            Word::Dead => false,
            Word::Home { .. } => true,
            Word::Claimed { .. } => false,
            Word::Running { .. } => false,
        }
    }

    // Whether it is at home with an epoch.
    pub(crate) fn is_home_of(self, of: u32) -> bool
        ensures { result ≡ is_home_of of self }
    {
        match self {
            Word::Dead => false,
            Word::Home { epoch } => epoch == of,
            Word::Claimed { .. } => false,
            Word::Running { .. } => false,
        }
    }

    // Whether an actor has it by a claim in an epoch.
    pub(crate) fn is_claim_of(self, of: u32, a: u32) -> bool
        ensures { result ≡ is_claim_of of a self }
    {
        match self {
            Word::Dead => false,
            Word::Home { .. } => false,
            Word::Claimed { epoch, actor } => epoch == of && actor == a,
            Word::Running { .. } => false,
        }
    }

    // The epoch of a body at home.
    pub(crate) fn home_epoch(self) -> u32
        ensures { result ≡ home_epoch self }
    {
        match self {
            Word::Dead => 0,
            Word::Home { epoch } => epoch,
            Word::Claimed { .. } => 0,
            Word::Running { .. } => 0,
        }
    }
}
