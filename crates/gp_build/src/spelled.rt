//! Groups whose stacks are spelled by numbered blocks of frames: most comparisons of two stacks compare some numbers, and
//! the frames of one block.
//!
//! Stacks that stand near one another in order begin with the same frames, and a comparison frame by frame walks through all
//! of these. So the first frames of a stack are cut into blocks, each of which has a number in a table: blocks with one
//! number are the same, and two others are compared frame by frame, as are frames behind the blocks.

ghost use Rattle.std.specs.Prelude.{◌≡◌, List, map, take, drop, OnOk, IfOk};
ghost use Rattle.std.specs.List.{AllByRecursion};
ghost use Rattle.std.specs.Hash as fed;
ghost use Rattle.std.specs.Ordering.{ordering_then};
ghost use Rattle.std.specs.Cmp.{partial_equiv_from_equiv};
ghost use Rattle.std.specs.Cmp.Lexicographic.{slice_cmp, pointwise};
ghost use Rattle.gp_build.specs.Shown.{same_frame};
ghost use Rattle.gp_build.specs.laws.Alike.{frame_input, same_frames_equiv, frames_input-same};
ghost use Rattle.gp_build.specs.kept.Ranks.{ranked_cmp};
ghost use Rattle.gp_build.specs.kept.Spelled.{blocks_of, block_at, number_cmp, spelled_cmp, IsNumber, Grows, Spells, IsSpelled};

use crate::compare::{compare_labels, compare_stacks};
use crate::ranks::Ranks;
use crate::samples::Group;
use crate::shown::hash_frames;
use gp_isa::{Frame, Memory};
use indexmap::IndexSet;
use std::alloc::Global;
use std::cmp::Ordering;
use std::hash::{Hash, Hasher};
use std::marker::Model;

// How many frames a block has, and how many blocks of a stack are numbered: as many as a profile has frames of a stack.
const LENGTH: usize = 8;

const BLOCKS: usize = 4;
// (so many frames have those blocks)
const NUMBERED: usize = 32;

/// Some frames of a stack, one after another.
#[derive(Drop)]
pub(crate) struct Block<'a> {
    frames: &'a [Frame],
}

impl<'a> Model for Block<'a> {
    ghost use Rattle.std.specs.Prelude.{List};
    ghost use Rattle.gp_isa.specs.declared.frame.Frame.{Frame};

    ghost Value = { List Frame };

    ghost view = { λ b. b.frames.now };
}

/// A group, and the numbers of the first blocks of its stack.
#[derive(Drop)]
pub(crate) struct Spelled<'a> {
    pub group: Group<'a>,
    pub blocks: [usize; BLOCKS],
}

impl<'a> PartialEq for Block<'a> {
    ghost eq = { pointwise same_frame };

    ghost laws = { partial_equiv_from_equiv same_frames_equiv };

    fn eq(&self, other: &Block<'a>) -> bool {
        self.frames == other.frames
    }
}

impl<'a> Eq for Block<'a> {
    ghost laws = { same_frames_equiv };
}

impl<'a> Hash for Block<'a> {
    ghost hash_input = { fed.slice frame_input };

    ghost respects_eq = { frames_input-same };

    fn hash<H: Hasher>(&self, state: &mut H) {
        hash_frames(self.frames, state);
    }
}

// The first block of some frames, and the frames behind it.
fn parted(frames: &[Frame]) -> (&[Frame], &[Frame])
    ensures block { result.0.now ≡ take 8 frames.now }
    ensures rest { result.1.now ≡ drop 8 frames.now }
{
    if frames.len() <= LENGTH {
        return (frames, &[]);
    }
    frames.split_at(LENGTH)
}

// The number of a block. The number that the stack before has at its place is tried first, which spares most look-ups by
// hash.
fn number<'a>(
    table: &mut IndexSet<Block<'a>>,
    near: usize,
    frames: &'a [Frame],
) -> Result<usize, Memory>
    ensures grows { OnOk result (Grows table.old.keys table.new.keys) }
    ensures number { IfOk result (λ n. IsNumber table.new.keys n frames.entry.now) }
{
    let block = Block { frames };
    if let Some(met) = table.as_slice().get(near) {
        if *met == block {
            return Ok(near);
        }
    }
    let (n, _) = table.insert_full(block)?;
    Ok(n)
}

// The numbers of the first blocks of a stack.
fn spell<'a>(
    table: &mut IndexSet<Block<'a>>,
    near: [usize; BLOCKS],
    stack: &'a [Frame],
) -> Result<[usize; BLOCKS], Memory>
    ensures grows { OnOk result (Grows table.old.keys table.new.keys) }
    ensures spells { IfOk result (λ blocks. Spells table.new.keys blocks (blocks_of 4 stack.entry.now)) }
{
    let [a, b, c, d] = near;
    let (first, behind) = parted(stack);
    let a = number(table, a, first)?;
    let (second, behind) = parted(behind);
    let b = number(table, b, second)?;
    let (third, behind) = parted(behind);
    let c = number(table, c, third)?;
    let (fourth, _) = parted(behind);
    let d = number(table, d, fourth)?;
    Ok([a, b, c, d])
}

/// Groups with the numbers of their blocks.
pub(crate) fn spell_all<'a>(
    alloc: Global,
    table: &mut IndexSet<Block<'a>>,
    groups: Vec<Group<'a>>,
) -> Result<Vec<Spelled<'a>>, Memory>
    ensures groups { IfOk result (λ all. map (λ it. it.group) all.items ≡ groups.entry.items) }
    ensures spelled { IfOk result (λ all. AllByRecursion (IsSpelled table.new.keys) all.items) }
{
    let mut all = Vec::with_capacity(alloc, groups.len())?;
    let mut near = [0; BLOCKS];
    for group in groups {
        let numbers = spell(table, near, group.shown.stack())?;
        near = numbers;
        all.push(Spelled {
            group,
            blocks: numbers,
        })?;
    }
    Ok(all)
}

// The block of a number.
fn frames_of<'a>(table: &[Block<'a>], n: usize) -> &'a [Frame]
    ensures { result.now ≡ block_at table.now n }
{
    match table.get(n) {
        Some(block) => block.frames,
        None => &[],
    }
}

fn compare_numbers(ranks: &Ranks, table: &[Block], n: usize, m: usize) -> Ordering
    ensures { result ≡ number_cmp (ranked_cmp ranks.now) table.now n m }
{
    if n == m {
        return Ordering::Equal;
    }
    compare_stacks(ranks, frames_of(table, n), frames_of(table, m))
}

fn compare_blocks(ranks: &Ranks, table: &[Block], a: &[usize], b: &[usize]) -> Ordering
    ensures { result ≡ slice_cmp (number_cmp (ranked_cmp ranks.now) table.now) a.now b.now }
{
    for (n, m) in a.iter().zip(b) {
        match compare_numbers(ranks, table, *n, *m) {
            Ordering::Equal => {}
            order => return order,
        }
    }
    a.len().cmp(&b.len())
}

// The frames of a stack behind those blocks that have a number.
fn rest(stack: &[Frame]) -> &[Frame]
    ensures { result.now ≡ drop 32 stack.now }
{
    if stack.len() <= NUMBERED {
        return &[];
    }
    let (_, behind) = stack.split_at(NUMBERED);
    behind
}

fn compare_spelled_stacks(ranks: &Ranks, table: &[Block], a: &Spelled, b: &Spelled) -> Ordering
    ensures { result ≡ ordering_then (slice_cmp (number_cmp (ranked_cmp ranks.now) table.now) a.now.blocks b.now.blocks)
        (slice_cmp (ranked_cmp ranks.now) (drop 32 a.now.group.shown.stack) (drop 32 b.now.group.shown.stack)) }
{
    match compare_blocks(ranks, table, &a.blocks, &b.blocks) {
        Ordering::Equal => compare_stacks(
            ranks,
            rest(a.group.shown.stack()),
            rest(b.group.shown.stack()),
        ),
        order => order,
    }
}

/// The order of samples: falling count, then stack, then labels.
pub(crate) fn compare(ranks: &Ranks, table: &[Block], a: &Spelled, b: &Spelled) -> Ordering
    ensures { result ≡ spelled_cmp (ranked_cmp ranks.now) table.now a.now b.now }
{
    match b.group.count.cmp(&a.group.count) {
        Ordering::Equal => match compare_spelled_stacks(ranks, table, a, b) {
            Ordering::Equal => compare_labels(a.group.shown.labels(), b.group.shown.labels()),
            order => order,
        },
        order => order,
    }
}
