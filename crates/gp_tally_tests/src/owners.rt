//! The owners of two shares, a thread each.
ghost use Rattle.std.specs.Prelude.{◌≡◌, ◌<◌, ◌^◌, [], ◌∷◌, Some, slice_get, IfOk};
ghost use Rattle.gp_tally_tests.specs.Counted.{counted};

use crate::locked::{Locked, Naming};
use gp_isa::Memory;
use gp_tally::{Book, Row, Share};
use std::alloc::Global;
use std::marker::Brand;
use std::sync::{Mutex, Wait};
use std::thread;
use std::thread::Threads;

const BLANK: Row = Row {
    a: 0,
    b: 0,
    c: 0,
    d: 0,
};

// Takes so many turns, each under the lock.
fn take_turns<J: Naming, R: Wait>(
    rt: &R,
    lock: &Mutex<Locked<J>>,
    mut share: Share,
    turns: u64,
) -> Share
    requires book { share.book ≡ J.named }
    requires row { share.row ≡ counted 0 }
    ensures book { result.book ≡ J.named }
    ensures number { result.number ≡ share.number }
    ensures row { result.row ≡ counted turns }
{
    for turn in 0..turns {
        lock.lock(rt).count(&mut share, turn);
    }
    share
}

// Two threads take turns. Then each share is checked: its row is the book's, and the count of its owner's turns.
fn count_named<J: Naming + Send + Sync, R: Threads + Wait + Sync>(
    rt: &R,
    mut book: Book,
    first: u64,
    second: u64,
) -> (Book, Share, Share)
    requires book { book.book ≡ J.named }
    requires rows { book.rows ≡ [] }
    requires room { book.room ≡ 2 }
    ensures first { (result.1.number ≡ 0) × (result.1.row ≡ counted first) }
    ensures second { (result.2.number ≡ 1) × (result.2.row ≡ counted second) }
    ensures checked_first { slice_get result.0.rows 0 ≡ Some (counted first) }
    ensures checked_second { slice_get result.0.rows 1 ≡ Some (counted second) }
{
    let one = book.issue(BLANK);
    let two = book.issue(BLANK);
    let lock = Mutex::new(Locked::<J>::new(book));
    let shared = &lock;
    let (mut one, mut two) = thread::join(
        rt,
        move || -> Share
            requires { (one.book ≡ J.named) × (one.row ≡ counted 0) × (one.number ≡ 0) }
            ensures { (result.book ≡ J.named) × (result.row ≡ counted first) × (result.number ≡ 0) }
        { take_turns(rt, shared, one, first) },
        move || -> Share
            requires { (two.book ≡ J.named) × (two.row ≡ counted 0) × (two.number ≡ 1) }
            ensures { (result.book ≡ J.named) × (result.row ≡ counted second) × (result.number ≡ 1) }
        { take_turns(rt, shared, two, second) },
    );
    let mut locked = lock.into_inner();
    locked.check(&mut one);
    locked.check(&mut two);
    (locked.into_book(), one, two)
}

/// Two threads take turns at a new book. Then each share is checked: its row is the book's, and the count of its owner's
/// turns.
pub fn count_on_two<R: Threads + Wait + Sync>(
    rt: &R,
    alloc: Global,
    first: u64,
    second: u64,
) -> Result<(Book, Share, Share), Memory>
    ensures first { IfOk result (λ end. (end.1.number ≡ 0) × (end.1.row ≡ counted first)) }
    ensures second { IfOk result (λ end. (end.2.number ≡ 1) × (end.2.row ≡ counted second)) }
    ensures checked_first { IfOk result (λ end. slice_get end.0.rows 0 ≡ Some (counted first)) }
    ensures checked_second { IfOk result (λ end. slice_get end.0.rows 1 ≡ Some (counted second)) }
{
    let book = Book::new(alloc, 2)?;
    Ok(count_named::<Brand, R>(rt, book, first, second))
}
