//! Where the sites of a program's lines stand in their table, which spares look-ups of sites by hash.

ghost use Rattle.std.specs.Prelude.{◌≡◌, ◌<◌, ◌^◌, true, IsTrue};
ghost use Rattle.std.specs.List.{list_any};
ghost use Rattle.gp_build.specs.FirstNeed.{place_in};
ghost use Rattle.gp_build.specs.Site.{same_site};

use crate::site::{Routine, Site};
use gp_isa::{Memory, Parts};
use indexmap::IndexSet;
use std::alloc::Global;

// No file that is read has more lines. Where the functions of parts have more, no places are kept.
const MOST_LINES: usize = 1_048_576;

/// The lines of a function.
#[derive(Clone, Copy)]
struct Span {
    // its header's
    first: u32,
    // how many places are kept before that of its first line
    before: usize,
}

/// For each line of each function of a program a place in a table of sites: that of the site there once it was met, and
/// before that 0. What stands at a place is compared with the site that is asked for, so any places do.
#[derive(Drop)]
pub(crate) struct Lines {
    spans: Vec<Span>,
    places: Vec<usize>,
}

impl Lines {
    /// Those of a program, none of which was met.
    pub(crate) fn new(alloc: Global, parts: &Parts) -> Result<Lines, Memory> {
        let mut spans = Vec::with_capacity(alloc, parts.functions.len())?;
        let mut count: usize = 0;
        for function in parts.functions.as_slice() {
            spans.push(Span {
                first: function.line,
                before: count,
            })?;
            let lines = function.end.saturating_sub(function.line) as usize + 1;
            count = count.saturating_add(lines);
        }
        if count > MOST_LINES {
            count = 0;
        }
        let places = vec![in alloc; 0; count]?;
        Ok(Lines { spans, places })
    }

    // Where the place of a site is kept, if it is: a line before a function's first one is taken for one far behind.
    fn at(&self, site: Site) -> Option<usize> {
        match site.routine {
            Routine::Numbered(f) => match self.spans.get(f as usize) {
                Some(span) => {
                    let line = site.line.wrapping_sub(span.first) as usize;
                    Some(span.before.wrapping_add(line))
                }
                None => None,
            },
            Routine::LostEvents => None,
        }
    }

    /// The place of a site, if it was met.
    pub(crate) fn place(&self, site: Site) -> usize {
        match self.at(site) {
            Some(at) => self.places.get(at).copied().unwrap_or(0),
            None => 0,
        }
    }

    /// A site was met at a place.
    pub(crate) fn meet(&mut self, site: Site, place: usize) {
        if let Some(at) = self.at(site) {
            if let Some(slot) = self.places.get_mut(at) {
                *slot = place;
            }
        }
    }
}

/// Whether a site stands at a place of a table.
pub(crate) fn is_at(table: &IndexSet<Site>, place: usize, site: Site) -> bool
    ensures there { IsTrue result → list_any (same_site site) table.now.keys ≡ true }
    ensures place { IsTrue result → place_in same_site table.now.keys site ≡ place }
    ensures small { IsTrue result → place < 2 ^ 63 }
{
    let _ = table.len();
    match table.as_slice().get(place) {
        Some(found) => site == *found,
        None => false,
    }
}
