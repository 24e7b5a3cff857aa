//! Gates that hold an actor until others have gone on, which a run that isn't on threads never does.
use crossbeam_utils::Backoff;
use gp_workers::{Gate, Place};
use std::sync::atomic::{AtomicBool, AtomicU64, Ordering};

/// After so many looks a gate gives up.
const LOOKS: u32 = 1_000_000;

/// Which gates there are.
#[derive(Clone, Copy, Debug, PartialEq, Eq)]
pub enum How {
    /// None.
    Free,
    /// For two workers: one holds the worker that makes the fifth entry of all until the other one has made a later one, and one
    /// holds the profiler, once a profile is open, until the workers have made ten more.
    Workers,
    /// For one worker that is sampled in each of its turns: it is held behind each sample until the reader has taken that.
    Reader,
}

/// The gates of a run, and what was passed.
#[derive(Drop)]
pub struct Gates {
    how: How,
    entered: AtomicU64,
    by_first: AtomicU64,
    by_second: AtomicU64,
    read: AtomicU64,
    gave_up: AtomicBool,
}

impl Gates {
    pub fn new(how: How) -> Gates {
        Gates {
            how,
            entered: AtomicU64::new(0),
            by_first: AtomicU64::new(0),
            by_second: AtomicU64::new(0),
            read: AtomicU64::new(0),
            gave_up: AtomicBool::new(false),
        }
    }

    /// Whether a gate gave up.
    pub fn gave_up(&self) -> bool {
        self.gave_up.load(Ordering::SeqCst)
    }

    // Holds until a number has come to another.
    fn hold(&self, number: &AtomicU64, to: u64) {
        let backoff = Backoff::new();
        for _ in 0..LOOKS {
            if number.load(Ordering::SeqCst) >= to {
                return;
            }
            backoff.snooze();
        }
        self.gave_up.store(true, Ordering::SeqCst);
    }

    // The fifth entry of all waits for one of the other worker.
    fn enter(&self, w: u32) {
        let (own, other) = if w == 0 {
            (&self.by_first, &self.by_second)
        } else {
            (&self.by_second, &self.by_first)
        };
        own.fetch_add(1, Ordering::SeqCst);
        if self.entered.fetch_add(1, Ordering::SeqCst) == 4 {
            let made = other.load(Ordering::SeqCst);
            self.hold(other, made.saturating_add(1));
        }
    }

    // Of four entries each the third is a sample, which comes behind the rate record and the samples before.
    fn sample(&self) {
        let before = self.entered.fetch_add(1, Ordering::SeqCst);
        if before % 4 == 2 {
            self.hold(&self.read, (before / 4).saturating_add(2));
        }
    }

    fn open(&self) {
        let made = self.entered.load(Ordering::SeqCst);
        self.hold(&self.entered, made.saturating_add(10));
    }
}

impl Gate for Gates {
    fn pass(&self, place: Place) {
        match (self.how, place) {
            (How::Workers, Place::Entered { w }) => self.enter(w),
            (How::Workers, Place::Opened { .. }) => self.open(),
            (How::Reader, Place::Entered { .. }) => self.sample(),
            (How::Reader, Place::ReadOnce { records }) => {
                self.read.store(records, Ordering::SeqCst);
            }
            _ => {}
        }
    }
}
