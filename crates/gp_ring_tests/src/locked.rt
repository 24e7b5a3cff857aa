//! The ring of one thread behind a lock, between two threads, which the ring without a lock is measured beside.

use crate::driver::Driver;
use crate::figures::{Figures, nanoseconds_since};
use crate::passed::Passed;
use gp_cases::Unanswered;
use gp_ring::Wrote;
use std::alloc::Global;
use std::rt::Clock;
use std::sync::{Mutex, Wait};
use std::thread;
use std::thread::Threads;
use std::time::Instant;

// Offers so many samples, each under the lock, and closes. Gives the nanoseconds that the writes took.
fn offer_all<R: Wait + Clock>(rt: &R, lock: &Mutex<Driver>, samples: u64) -> u64 {
    let begun = Instant::now(rt).ok();
    for number in 0..samples {
        let wrote = lock.lock(rt).write(number, number, &[1, 7]);
        if let Some(Wrote::Lost { .. }) = wrote {
            thread::yield_now();
        }
    }
    let writes = nanoseconds_since(rt, begun);
    lock.lock(rt).close();
    writes
}

// Reads to the end, each time under the lock, and gives what came in order.
fn read_all<R: Wait>(rt: &R, lock: &Mutex<Driver>) -> Passed {
    let mut passed = Passed::none();
    for _ in rt.forever() {
        let Some(then) = lock.lock(rt).pass(passed) else {
            break;
        };
        if then.next == passed.next {
            thread::yield_now();
        }
        passed = then;
    }
    passed
}

/// So many samples go through a ring of so many words and tags behind a lock.
pub fn go_through_locked<R: Threads + Wait + Clock + Sync>(
    rt: &R,
    alloc: Global,
    words: u64,
    tags: u64,
    samples: u64,
) -> Result<Figures, Unanswered> {
    let lock = Mutex::new(Driver::new(alloc, 1, words, tags)?);
    let shared = &lock;
    let begun = Instant::now(rt).ok();
    let (writes, passed) = thread::join(
        rt,
        move || -> u64 { offer_all(rt, shared, samples) },
        move || -> Passed { read_all(rt, shared) },
    );
    let whole = nanoseconds_since(rt, begun);
    Ok(Figures {
        passed,
        writes,
        whole,
    })
}
