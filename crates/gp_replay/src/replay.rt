//! What a journal comes to, as far as it was replayed.
use crate::goroutine::{Goroutine, Shown, is_live};
use crate::waiting::Waiting;
use gp_cases::Unanswered;
use gp_isa::{Frame, Program};
use gp_machine::{Ended, Request, Settings};
use std::alloc::Global;

/// The instructions of a second.
const SECOND: u32 = 1_000_000;

/// A profile: who was live as it was opened, and the numbers of those recorded since, in their order.
#[derive(Drop)]
pub struct Profile {
    pub frozen: Vec<Shown>,
    pub taken: Vec<u32>,
}

/// A sample: its time in nanoseconds, and at most 64 frames of its goroutine's stack.
#[derive(Drop)]
pub struct Sample {
    pub time: u64,
    pub frames: Vec<Frame>,
    pub set: u8,
}

/// A wait that ended, by the stack of who waited; or one at a contended unlock, by the stack of who unlocks. The delay is in
/// nanoseconds.
#[derive(Drop)]
pub struct Event {
    pub frames: Vec<Frame>,
    pub delay: u64,
}

/// How many events there were, and how long they took together, in nanoseconds.
#[derive(Clone, Copy, Debug, PartialEq, Eq)]
pub struct Sum {
    pub count: u128,
    pub delay: u128,
}

impl Sum {
    /// That of events.
    pub fn of(events: &[Event]) -> Sum {
        let mut sum = Sum { count: 0, delay: 0 };
        for event in events {
            sum.count = sum.count.saturating_add(1);
            sum.delay = sum.delay.saturating_add(u128::from(event.delay));
        }
        sum
    }
}

/// What a worker does.
#[derive(Clone, Copy)]
pub(crate) struct Seat {
    pub(crate) runs: Option<u32>,
    // the instructions since its last Start
    pub(crate) slice: u64,
    pub(crate) is_tick_due: bool,
}

/// What a journal comes to.
#[derive(Drop)]
pub struct Replay {
    pub(crate) goroutines: Vec<Goroutine>,
    pub(crate) waiting: Waiting,
    pub(crate) seats: Vec<Seat>,
    // the requests for profiles, and how many of them were served
    pub(crate) requests: Vec<Request>,
    pub(crate) served: usize,
    // options, the period in instructions
    pub(crate) profiler: u32,
    pub(crate) cells: u32,
    pub(crate) room: u32,
    pub(crate) entries: u64,
    pub(crate) period: u64,
    // the active epoch, 0 where there is none, and the last one
    pub(crate) active: u32,
    pub(crate) last: u32,
    /// The instructions of all workers.
    pub clock: u64,
    /// How many entries there were.
    pub length: u64,
    /// The cause of the fault that was made.
    pub fault: Option<u8>,
    pub profiles: Vec<Profile>,
    /// How many were live at each Refuse.
    pub refused: Vec<u32>,
    pub samples: Vec<Sample>,
    /// By worker, the instructions.
    pub done: Vec<u64>,
    /// By actor, the entries.
    pub made: Vec<u64>,
    pub block: Vec<Event>,
    pub mutex: Vec<Event>,
}

fn requests_of(alloc: Global, settings: &Settings) -> Result<Vec<Request>, Unanswered> {
    let mut requests = Vec::new(alloc);
    for request in settings.at.iter() {
        requests.push(*request)?;
    }
    Ok(requests)
}

fn seats_of(alloc: Global, settings: &Settings) -> Result<Vec<Seat>, Unanswered> {
    let mut seats = Vec::new(alloc);
    for _ in 0..settings.workers {
        seats.push(Seat {
            runs: None,
            slice: 0,
            is_tick_due: false,
        })?;
    }
    Ok(seats)
}

fn zeros(alloc: Global, count: u32) -> Result<Vec<u64>, Unanswered> {
    let mut zeros = Vec::new(alloc);
    for _ in 0..count {
        zeros.push(0)?;
    }
    Ok(zeros)
}

fn first(alloc: Global, program: &Program) -> Result<Vec<Goroutine>, Unanswered> {
    let mut goroutines = Vec::new(alloc);
    goroutines.push(Goroutine::new(alloc, program, program.main(), 0, 0)?)?;
    Ok(goroutines)
}

impl Replay {
    /// As a run begins.
    pub fn new(
        alloc: Global,
        program: &Program,
        settings: &Settings,
    ) -> Result<Replay, Unanswered> {
        Ok(Replay {
            goroutines: first(alloc, program)?,
            waiting: Waiting::new(alloc, program.parts())?,
            seats: seats_of(alloc, settings)?,
            requests: requests_of(alloc, settings)?,
            served: 0,
            profiler: settings.workers,
            cells: settings.cells,
            room: settings.room,
            entries: u64::from(settings.entries),
            period: u64::from(SECOND.checked_div(settings.hz).unwrap_or(SECOND).max(1)),
            active: 0,
            last: 0,
            clock: 0,
            length: 0,
            fault: None,
            profiles: Vec::new(alloc),
            refused: Vec::new(alloc),
            samples: Vec::new(alloc),
            done: zeros(alloc, settings.workers)?,
            made: zeros(alloc, settings.workers.saturating_add(1))?,
            block: Vec::new(alloc),
            mutex: Vec::new(alloc),
        })
    }

    /// How many were born.
    pub fn born(&self) -> usize {
        self.goroutines.len()
    }

    /// How many are live.
    pub fn live(&self) -> usize {
        self.goroutines.iter().filter(|g| is_live(g)).count()
    }

    /// Whether nobody runs.
    pub fn is_still(&self) -> bool {
        self.seats.iter().all(|seat| seat.runs.is_none())
    }

    /// Whether the run has come to rest: it is over, nobody runs, no profile is active, and all requests are served.
    pub fn is_complete(&self) -> bool {
        self.is_run_over()
            && self.is_still()
            && self.active == 0
            && self.served == self.requests.len()
    }

    /// How a run ended that is complete.
    pub fn ended(&self) -> Ended {
        if let Some(cause) = self.fault {
            return Ended::Fault { cause };
        }
        if self.is_main_dead() {
            return Ended::Main;
        }
        if self.is_anybody_able() {
            Ended::Full
        } else {
            Ended::Deadlock
        }
    }
}
