ghost use Rattle.std.specs.Prelude.{◌≡◌};
ghost use Rattle.gp_text.specs.Fault.{space_of, most_names};

use crate::verb::Verb;
use gp_isa::limits;

/// Functions, channels, mutexes and label sets have a space of names each.
#[derive(Clone, Copy)]
pub(crate) enum Space {
    Functions,
    Channels,
    Mutexes,
    LabelSets,
}

impl Space {
    /// The space of the names that a word is followed by.
    pub(crate) fn of(verb: Verb) -> Space
        ensures { result ≡ space_of verb }
    {
        match verb {
            Verb::Call | Verb::Spawn => Space::Functions,
            Verb::Send | Verb::Recv => Space::Channels,
            Verb::Lock | Verb::Unlock => Space::Mutexes,
            Verb::Labels => Space::LabelSets,
        }
    }

    /// The most names of the space.
    pub(crate) fn most(self) -> usize
        ensures { result ≡ most_names self }
    {
        match self {
            Space::Functions => limits::FUNCTIONS,
            Space::Channels => limits::CHANNELS,
            Space::Mutexes => limits::MUTEXES,
            Space::LabelSets => limits::LABEL_SETS,
        }
    }
}
