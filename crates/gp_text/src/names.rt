ghost use Rattle.std.specs.Prelude.{◌≡◌, ◌<◌, ◌^◌, [], length, position, is_some, OnOk, IfSome};
ghost use Rattle.std.specs.Str.{bytes_eq};
ghost use Rattle.gp_text.specs.Fault.{is_among};
ghost use Rattle.gp_text.specs.Names.{with_name};

use gp_isa::Memory;
use indexmap::IndexSet;
use std::alloc::Global;
use std::marker::Model;

/// The names of one space, each where it stands in the file. Contracts see them as a list, in the order in which
/// they were added.
#[derive(Drop)]
pub(crate) struct Names<'a> {
    set: IndexSet<&'a [u8]>,
}

impl<'a> Model for Names<'a> {
    ghost use Rattle.std.specs.Prelude.{List, ℕ, map};
    ghost use Rattle.std.specs.Coded.{coded_list, coded_ℕ};

    ghost Value = { List (List ℕ) };

    ghost coded = { coded_list (coded_list coded_ℕ) };

    ghost view = { λ n. map (λ k. k.now) n.set.keys };
}

impl<'a> Names<'a> {
    /// No names, which takes no memory.
    pub(crate) fn new(alloc: Global) -> Names<'a>
        ensures { result ≡ [] }
    {
        Names {
            set: IndexSet::new(alloc),
        }
    }

    /// The number of names.
    pub(crate) fn len(&self) -> usize
        ensures { result ≡ length self.now }
    {
        self.set.len()
    }

    /// The place of a name, counted from 0.
    pub(crate) fn place(&self, name: &[u8]) -> Option<usize>
        ensures place { result ≡ position (bytes_eq name.now) self.now }
        ensures known { is_some result ≡ is_among name.now self.now }
        ensures within { IfSome result (λ at. at < length self.now) }
    {
        self.set.get_index_of(name)
    }

    /// Adds a name at the end, unless it is there.
    pub(crate) fn add(&mut self, name: &'a [u8]) -> Result<(), Memory>
        ensures { OnOk result (self.new ≡ with_name self.old name.now) }
    {
        self.set.insert(name)?;
        Ok(())
    }
}
