//! A worker and a profiler at one cell, on two threads. The worker takes the body, raises its row under the lock, advances the body
//! outside of it and gives it back; the profiler claims the body for one profile after another, and copies its stack.
ghost use Rattle.std.specs.Prelude.{◌≡◌, ◌+◌, ◌<◌, ◌≤◌, ◌^◌, IsTrue, IfOk};
ghost use Rattle.gp_cells.specs.Words.{IsHome};
ghost use Rattle.gp_cells.specs.Goroutine.{IsBodyOf};

use crate::locked::Locked;
use crate::making::carried;
use gp_cases::Unanswered;
use gp_cells::{Bear, Carried, Cells, Claim, Pass, Roster, Take, home, is_home};
use gp_isa::Program;
use gp_journal::Run;
use gp_tally::Book;
use std::alloc::Global;
use std::marker::Brand;
use std::sync::{Mutex, Wait};
use std::thread;
use std::thread::Threads;

// The most points that are passed in a test.
const MOST: u64 = 1 << 40;

// The goroutine passes a local point, and says whether it is still going.
fn go_on<K: Roster, R: Run, T: Wait>(
    rt: &T,
    lock: &Mutex<Locked<K>>,
    program: &Program,
    carried: &mut Carried,
) -> bool
    requires program { program.now ≡ R.program }
    requires body { IsBodyOf R.program K.roster 0 carried.old }
    ensures { IsTrue result → IsBodyOf R.program K.roster 0 carried.new }
{
    let Carried { body, share } = carried;
    let points = body.peek(program, 1).local;
    if share.row().c >= MOST {
        return false;
    }
    lock.lock(rt).pass(share, points);
    body.advance(program, points);
    !body.is_over(program)
}

// The worker: so many turns, or as many as the goroutine has points. It says how many it had.
fn work<K: Roster, R: Run, T: Wait>(
    rt: &T,
    lock: &Mutex<Locked<K>>,
    cells: &Cells<K, R>,
    program: &Program,
    mut pass: Pass,
    turns: u64,
) -> u64
    requires program { program.now ≡ R.program }
    requires count { 1 ≤ cells.now.count }
    requires pass { pass.cells ≡ cells.now.table }
{
    let mut word = home(0);
    let mut done = 0;
    for _ in rt.forever() {
        if done >= turns {
            break;
        }
        match cells.take(&mut pass, 0, 0, word) {
            Take::Held(mut held) => {
                let epoch = held.epoch();
                if !go_on::<K, R, T>(rt, lock, program, &mut held.body) {
                    cells.bury(&mut pass, held);
                    break;
                }
                cells.give(&mut pass, held, epoch);
                word = home(epoch);
                done += 1;
            }
            Take::Changed(found) => {
                if is_home(found) {
                    word = found;
                } else {
                    thread::yield_now();
                }
            }
        }
    }
    done
}

// One claim of the cell, until it is decided: whether this profile has a copy of the goroutine, which is made while the body is
// held, outside of the lock.
fn record<K: Roster, R: Run, T: Wait>(
    rt: &T,
    alloc: Global,
    cells: &Cells<K, R>,
    program: &Program,
    pass: &mut Pass,
    epoch: u32,
) -> Result<bool, Unanswered>
    requires program { program.now ≡ R.program }
    requires count { 1 ≤ cells.now.count }
    requires pass { pass.old.cells ≡ cells.now.table }
    requires some { 1 ≤ epoch }
    requires epoch { epoch < 2 ^ 30 }
    ensures { pass.new.cells ≡ pass.old.cells }
{
    for _ in rt.forever() {
        match cells.claim(pass, 0, 1, epoch) {
            Claim::Held(held) => {
                let copy = held.body.body.record(alloc, program, 0);
                cells.satisfy(pass, held);
                return Ok(copy?.g == 0);
            }
            Claim::Busy(_) => thread::yield_now(),
            Claim::Satisfied(_) => return Ok(false),
            Claim::Dead(_) => return Ok(false),
        }
    }
    unreachable!()
}

// The profiler: so many profiles, one after another. It says how many have a copy.
fn profile<K: Roster, R: Run, T: Wait>(
    rt: &T,
    alloc: Global,
    cells: &Cells<K, R>,
    program: &Program,
    mut pass: Pass,
    profiles: u32,
) -> Result<u32, Unanswered>
    requires program { program.now ≡ R.program }
    requires count { 1 ≤ cells.now.count }
    requires pass { pass.cells ≡ cells.now.table }
    requires few { profiles < 2 ^ 29 }
{
    let mut copies = 0u32;
    for epoch in 1..=profiles {
        if record(rt, alloc, cells, program, &mut pass, epoch)? {
            copies = copies.saturating_add(1);
        }
    }
    Ok(copies)
}

// Both at one cell, whose goroutine's body is `main`.
fn at_one_cell<K: Roster + Send + Sync, R: Run + Send + Sync, T: Threads + Wait + Sync>(
    rt: &T,
    alloc: Global,
    program: &Program,
    book: Book,
    main: Carried,
    turns: u64,
    profiles: u32,
) -> Result<(u64, u32), Unanswered>
    requires program { program.now ≡ R.program }
    requires book { book.book ≡ K.roster }
    requires main { IsBodyOf program.now book.book 0 main }
    requires few { profiles < 2 ^ 29 }
{
    let (cells, mut one) = Cells::<K, R>::new(alloc, 1)?;
    if let Bear::Taken { .. } = cells.bear(&mut one, 0, 0, main, 0) {
        return Err(Unanswered::Form);
    }
    let two = one.split(&cells);
    let lock = Mutex::new(Locked::<K>::new(book));
    let lock = &lock;
    let cells = &cells;
    let (done, copies) = thread::join(
        rt,
        move || -> u64
            requires { (program.now ≡ R.program) × (1 ≤ cells.now.count) × (one.cells ≡ cells.now.table) }
        { work(rt, lock, cells, program, one, turns) },
        move || -> Result<u32, Unanswered>
            requires { (program.now ≡ R.program) × (1 ≤ cells.now.count) × (two.cells ≡ cells.now.table) × (profiles < 2 ^ 29) }
        { profile(rt, alloc, cells, program, two, profiles) },
    );
    Ok((done, copies?))
}

/// The turns of the worker and the copies of the profiler, of a goroutine that begins a program's first function.
pub(crate) fn two_at_one_cell<T: Threads + Wait + Sync>(
    rt: &T,
    alloc: Global,
    program: &Program,
    turns: u64,
    profiles: u32,
) -> Result<(u64, u32), Unanswered>
    requires few { profiles < 2 ^ 29 }
{
    let mut book = Book::new(alloc, 1)?;
    let main = carried(alloc, program, &mut book, 0)?;
    at_one_cell::<Brand, Brand, T>(rt, alloc, program, book, main, turns, profiles)
}
