ghost use Rattle.std.specs.Prelude.{◌≡◌};
ghost use Rattle.std.specs.Cmp.{partial_equiv_from_equiv};
ghost use Rattle.gp_build.specs.Site.{same_routine, same_site, site_of, lost_site};
ghost use Rattle.gp_build.specs.laws.Alike.{routine_input, same_routine_equiv, routine_input-same};
ghost use Rattle.gp_build.specs.laws.Alike.{site_input, same_site_equiv, site_input-same};

use gp_isa::{Frame, Sequence};
use std::hash::{Hash, Hasher};

/// A stack as a sample shows it: its sites, the leaf first.
pub type Sites = Sequence<Site>;

/// A function that a stack shows.
#[derive(Clone, Copy, Debug)]
pub enum Routine {
    /// One of the program, functions counted from 0 in file order.
    Numbered(u32),
    /// The one that stands for events that were lost, `runtime/pprof.lostProfileEvent`, which stands in no file.
    LostEvents,
}

/// What has a location's id: a line of a function, lines counted from 1, or line 0 of the one for lost events.
#[derive(Clone, Copy, Debug)]
pub struct Site {
    pub routine: Routine,
    pub line: u32,
}

impl Site {
    /// Where a frame stands.
    pub fn new(frame: Frame) -> Site
        ensures { result ≡ site_of frame }
    {
        Site {
            routine: Routine::Numbered(frame.function),
            line: frame.line,
        }
    }

    /// Where lost events stand.
    pub fn lost() -> Site
        ensures { result ≡ lost_site }
    {
        Site {
            routine: Routine::LostEvents,
            line: 0,
        }
    }
}

impl PartialEq for Routine {
    ghost eq = { same_routine };

    ghost laws = { partial_equiv_from_equiv same_routine_equiv };

    fn eq(&self, other: &Routine) -> bool {
        match (*self, *other) {
            (Routine::Numbered(f), Routine::Numbered(g)) => f == g,
            (Routine::LostEvents, Routine::LostEvents) => true,
            _ => false,
        }
    }
}

impl Eq for Routine {
    ghost laws = { same_routine_equiv };
}

impl Hash for Routine {
    ghost hash_input = { routine_input };

    ghost respects_eq = { routine_input-same };

    fn hash<H: Hasher>(&self, state: &mut H) {
        match *self {
            Routine::Numbered(f) => f.hash(state),
            Routine::LostEvents => 0u32.hash(state),
        }
    }
}

impl PartialEq for Site {
    ghost eq = { same_site };

    ghost laws = { partial_equiv_from_equiv same_site_equiv };

    fn eq(&self, other: &Site) -> bool {
        self.routine == other.routine && self.line == other.line
    }
}

impl Eq for Site {
    ghost laws = { same_site_equiv };
}

impl Hash for Site {
    ghost hash_input = { site_input };

    ghost respects_eq = { site_input-same };

    fn hash<H: Hasher>(&self, state: &mut H) {
        self.routine.hash(state);
        self.line.hash(state);
    }
}
