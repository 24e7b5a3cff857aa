ghost use Rattle.std.specs.Prelude.{◌≡◌};
ghost use Rattle.std.specs.Cmp.Lexicographic.{slice_cmp};
ghost use Rattle.gp_build.specs.Shown.{pair_cmp};
ghost use Rattle.gp_build.specs.kept.Ranks.{ranked_cmp};

use crate::ranks::Ranks;
use gp_isa::{Frame, Pair};
use std::cmp::Ordering;

fn compare_frames(ranks: &Ranks, a: Frame, b: Frame) -> Ordering
    ensures { result ≡ ranked_cmp ranks.now a b }
{
    match ranks.compare(a.function, b.function) {
        Ordering::Equal => a.line.cmp(&b.line),
        order => order,
    }
}

fn compare_pairs(a: &Pair, b: &Pair) -> Ordering
    ensures { result ≡ pair_cmp a.now b.now }
{
    match a.key.as_str().cmp(b.key.as_str()) {
        Ordering::Equal => a.value.as_str().cmp(b.value.as_str()),
        order => order,
    }
}

/// Frame by frame from the leaf, a proper prefix first.
pub(crate) fn compare_stacks(ranks: &Ranks, a: &[Frame], b: &[Frame]) -> Ordering
    ensures { result ≡ slice_cmp (ranked_cmp ranks.now) a.now b.now }
{
    for (x, y) in a.iter().zip(b) {
        match compare_frames(ranks, *x, *y) {
            Ordering::Equal => {}
            order => return order,
        }
    }
    a.len().cmp(&b.len())
}

/// Pair by pair, a proper prefix first.
pub(crate) fn compare_labels(a: &[Pair], b: &[Pair]) -> Ordering
    ensures { result ≡ slice_cmp pair_cmp a.now b.now }
{
    for (x, y) in a.iter().zip(b) {
        match compare_pairs(x, y) {
            Ordering::Equal => {}
            order => return order,
        }
    }
    a.len().cmp(&b.len())
}
