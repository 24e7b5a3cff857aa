//! The functions of a program ranked by their names, so that a sort compares numbers and no names.

ghost use Rattle.std.specs.Prelude.{◌≡◌, IfOk};
ghost use Rattle.std.specs.Ordering.{nat_cmp};
ghost use Rattle.gp_build.specs.kept.Ranks.{name_cmp, rank_of, AreRanks, AreByName, IsPlace};

use crate::lookup::name_at;
use gp_isa::{Memory, Parts};
use std::alloc::Global;
use std::cmp::Ordering;

/// For each function of a program how many functions have a name below its own, one without a name counted with them.
/// A function that the program doesn't have has no name, and so the rank 0.
#[derive(Drop)]
pub(crate) struct Ranks {
    places: Vec<usize>,
}

fn compare_names(parts: &Parts, f: usize, g: usize) -> Ordering
    ensures { result ≡ name_cmp parts.now f g }
{
    name_at(parts, f).cmp(name_at(parts, g))
}

// The functions of a program, and one that it doesn't have, in the order of their names.
fn by_name(alloc: Global, parts: &Parts) -> Result<Vec<usize>, Memory>
    ensures { IfOk result (λ order. AreByName parts.now order.items) }
{
    let count = parts.functions.len();
    let mut order = Vec::with_capacity(alloc, count)?;
    for f in 0..count {
        order.push(f)?;
    }
    order.push(count)?;
    order.sort_by(|f, g| compare_names(parts, *f, *g))?;
    Ok(order)
}

// How many functions in the order of their names have a name below that of a function.
fn place(parts: &Parts, order: &[usize], f: usize) -> usize
    requires { AreByName parts.now order.now }
    ensures { IsPlace parts.now order.now result f }
{
    order.partition_point(|g| compare_names(parts, *g, f).is_lt())
}

impl Ranks {
    /// Those of a program.
    pub(crate) fn new(alloc: Global, parts: &Parts) -> Result<Ranks, Memory>
        ensures { IfOk result (λ ranks. AreRanks parts.now ranks) }
    {
        let order = by_name(alloc, parts)?;
        let count = parts.functions.len();
        let mut places = Vec::with_capacity(alloc, count)?;
        for f in 0..count {
            places.push(place(parts, order.as_slice(), f))?;
        }
        Ok(Ranks { places })
    }

    fn rank(&self, f: u32) -> usize
        ensures { result ≡ rank_of self.now f }
    {
        match self.places.get(f as usize) {
            Some(place) => *place,
            None => 0,
        }
    }

    /// The order of two functions by their ranks.
    pub(crate) fn compare(&self, f: u32, g: u32) -> Ordering
        ensures { result ≡ nat_cmp (rank_of self.now f) (rank_of self.now g) }
    {
        self.rank(f).cmp(&self.rank(g))
    }
}
