//! A goroutine of a replay.
use crate::route::Route;
use gp_cases::Unanswered;
use gp_isa::{Frame, Program, What};
use std::alloc::{AllocError, Global};

/// The most frames that a profile shows of a stack.
pub(crate) const FRAMES: usize = 32;

/// The most local points of an entry.
const POINTS: u32 = 1000;

#[derive(Clone, Copy, Debug, PartialEq, Eq)]
pub(crate) enum Status {
    Runnable,
    Running,
    Blocked,
    Faulted,
    Dead,
}

#[derive(Drop)]
pub(crate) struct Goroutine {
    pub(crate) route: Route,
    pub(crate) set: u8,
    pub(crate) status: Status,
    pub(crate) granted: bool,
    pub(crate) epoch: u32,
    // clocks
    pub(crate) blocked: u64,
    pub(crate) woken: u64,
}

/// What a profile has of a goroutine.
#[derive(Drop)]
pub struct Shown {
    pub g: u32,
    pub frames: Vec<Frame>,
    pub set: u8,
}

pub(crate) fn is_live(goroutine: &Goroutine) -> bool {
    goroutine.status != Status::Dead
}

/// Whether it runs, or could.
pub(crate) fn is_able(goroutine: &Goroutine) -> bool {
    goroutine.status == Status::Runnable || goroutine.status == Status::Running
}

// A rule of the machine.
pub(crate) fn rule(holds: bool) -> Result<(), Unanswered> {
    if holds { Ok(()) } else { Err(Unanswered::Form) }
}

impl Goroutine {
    pub(crate) fn new(
        alloc: Global,
        program: &Program,
        function: u32,
        set: u8,
        epoch: u32,
    ) -> Result<Goroutine, Unanswered> {
        Ok(Goroutine {
            route: Route::new(alloc, program, function)?,
            set,
            status: Status::Runnable,
            granted: false,
            epoch,
            blocked: 0,
            woken: 0,
        })
    }

    // Passes as many local points of one statement as there are, or as are left of `n`. It tells how many are left of that.
    fn local(&mut self, program: &Program, n: u64) -> Result<u64, Unanswered> {
        match self.route.next(program) {
            Some(What::Work { n: whole }) => self.route.work(program, *whole, n),
            Some(What::Labels { s }) => {
                self.set = *s;
                self.route.pass(program)?;
                Ok(n.saturating_sub(1))
            }
            _ => Err(Unanswered::Form),
        }
    }

    /// Passes so many local points.
    pub(crate) fn run(&mut self, program: &Program, n: u64) -> Result<(), Unanswered> {
        let mut left = n;
        for _ in 0..POINTS {
            if left > 0 {
                left = self.local(program, left)?;
            }
        }
        rule(left == 0)
    }

    pub(crate) fn shown(
        &self,
        alloc: Global,
        program: &Program,
        g: u32,
    ) -> Result<Shown, AllocError> {
        Ok(Shown {
            g,
            frames: self.route.frames(alloc, program, FRAMES)?,
            set: self.set,
        })
    }
}
