ghost use Rattle.std.specs.Prelude.{◌≡◌, [], OnOk};
ghost use Rattle.gp_text.specs.declared.space.Space.{Space};
ghost use Rattle.gp_text.specs.Fault.{known_of};
ghost use Rattle.gp_text.specs.Spaces.{kept, with_declared};

use crate::names::Names;
use crate::said::{Declared, Said};
use crate::space::Space;
use gp_isa::Memory;
use std::alloc::Global;

/// The names that lines declared, each space in file order.
#[derive(Drop)]
pub(crate) struct Spaces<'a> {
    functions: Names<'a>,
    channels: Names<'a>,
    mutexes: Names<'a>,
    label_sets: Names<'a>,
}

impl<'a> Spaces<'a> {
    /// No names, which takes no memory.
    pub(crate) fn new(alloc: Global) -> Spaces<'a>
        ensures { kept result ≡ known_of [] }
    {
        Spaces {
            functions: Names::new(alloc),
            channels: Names::new(alloc),
            mutexes: Names::new(alloc),
            label_sets: Names::new(alloc),
        }
    }

    /// The names of a space.
    pub(crate) fn of(&self, space: Space) -> &Names<'a>
        ensures { result.now ≡ kept self.now space }
    {
        match space {
            Space::Functions => &self.functions,
            Space::Channels => &self.channels,
            Space::Mutexes => &self.mutexes,
            Space::LabelSets => &self.label_sets,
        }
    }

    /// Adds what a line declares, unless it is there.
    pub(crate) fn add(&mut self, said: &Said<'a>) -> Result<(), Memory>
        ensures { OnOk result ((space : Space) → kept self.new space ≡ with_declared (kept self.old) said.now space) }
    {
        match said {
            Said::Declares { name, declared } => match declared {
                Declared::Function => self.functions.add(name.bytes()),
                Declared::Channel { .. } => self.channels.add(name.bytes()),
                Declared::Mutex => self.mutexes.add(name.bytes()),
                Declared::LabelSet { .. } => self.label_sets.add(name.bytes()),
            },
            Said::NotUtf8
            | Said::Nonsense
            | Said::Silent
            | Said::Loop { .. }
            | Said::Work { .. }
            | Said::Use { .. }
            | Said::Close => Ok(()),
        }
    }
}
