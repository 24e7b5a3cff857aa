//! Channels and mutexes, with those that wait for them.
use gp_cases::Unanswered;
use gp_isa::{Parts, What};
use std::alloc::{AllocError, Global};

/// A channel: how many values it holds, and who waits.
#[derive(Drop)]
struct Channel {
    held: u32,
    capacity: u32,
    senders: Vec<u32>,
    receivers: Vec<u32>,
}

/// A mutex.
#[derive(Drop)]
struct Mutex {
    held: bool,
    waiting: Vec<u32>,
}

/// What becomes of one that comes to a shared point.
#[derive(Clone, Copy)]
pub enum Outcome {
    /// It passes.
    Passes,
    /// It passes, and wakes another; `unlocked` by handing over a mutex.
    Wakes { g: u32, unlocked: bool },
    /// It waits.
    Waits,
    /// A fault: an unlock of a free mutex.
    Fault,
    /// One is to be born with a function.
    Bears { function: u32 },
}

/// All channels and mutexes of a program.
#[derive(Drop)]
pub struct Waiting {
    channels: Vec<Channel>,
    mutexes: Vec<Mutex>,
}

// The first of some, who doesn't wait any more.
fn first(of: &mut Vec<u32>) -> Option<u32> {
    if of.is_empty() {
        return None;
    }
    Some(of.remove(0))
}

fn waits(g: u32, with: &mut Vec<u32>) -> Result<Outcome, AllocError> {
    with.push(g)?;
    Ok(Outcome::Waits)
}

fn wakes(g: u32) -> Outcome {
    Outcome::Wakes { g, unlocked: false }
}

impl Channel {
    fn send(&mut self, g: u32) -> Result<Outcome, AllocError> {
        if let Some(other) = first(&mut self.receivers) {
            return Ok(wakes(other));
        }
        if self.held < self.capacity {
            self.held = self.held.saturating_add(1);
            return Ok(Outcome::Passes);
        }
        waits(g, &mut self.senders)
    }

    fn receive(&mut self, g: u32) -> Result<Outcome, AllocError> {
        if let Some(other) = first(&mut self.senders) {
            return Ok(wakes(other));
        }
        if self.held > 0 {
            self.held = self.held.saturating_sub(1);
            return Ok(Outcome::Passes);
        }
        waits(g, &mut self.receivers)
    }
}

impl Mutex {
    fn lock(&mut self, g: u32) -> Result<Outcome, AllocError> {
        if self.held {
            return waits(g, &mut self.waiting);
        }
        self.held = true;
        Ok(Outcome::Passes)
    }

    fn unlock(&mut self) -> Outcome {
        if !self.held {
            return Outcome::Fault;
        }
        match first(&mut self.waiting) {
            Some(g) => Outcome::Wakes { g, unlocked: true },
            None => {
                self.held = false;
                Outcome::Passes
            }
        }
    }
}

impl Waiting {
    /// Nobody waits, and nothing is held.
    pub fn new(alloc: Global, parts: &Parts) -> Result<Waiting, AllocError> {
        let mut channels = Vec::new(alloc);
        for declared in parts.channels.iter() {
            channels.push(Channel {
                held: 0,
                capacity: declared.capacity,
                senders: Vec::new(alloc),
                receivers: Vec::new(alloc),
            })?;
        }
        let mut mutexes = Vec::new(alloc);
        for _ in parts.mutexes.iter() {
            mutexes.push(Mutex {
                held: false,
                waiting: Vec::new(alloc),
            })?;
        }
        Ok(Waiting { channels, mutexes })
    }

    fn at_channel(&mut self, g: u32, c: u32, sends: bool) -> Result<Outcome, Unanswered> {
        match self.channels.get_mut(c as usize) {
            Some(channel) if sends => Ok(channel.send(g)?),
            Some(channel) => Ok(channel.receive(g)?),
            None => Err(Unanswered::Form),
        }
    }

    fn at_mutex(&mut self, g: u32, m: u32, locks: bool) -> Result<Outcome, Unanswered> {
        match self.mutexes.get_mut(m as usize) {
            Some(mutex) if locks => Ok(mutex.lock(g)?),
            Some(mutex) => Ok(mutex.unlock()),
            None => Err(Unanswered::Form),
        }
    }

    /// What becomes of g, who comes to a shared point.
    pub fn meet(&mut self, g: u32, what: &What) -> Result<Outcome, Unanswered> {
        match what {
            What::Send { c } => self.at_channel(g, *c, true),
            What::Recv { c } => self.at_channel(g, *c, false),
            What::Lock { m } => self.at_mutex(g, *m, true),
            What::Unlock { m } => self.at_mutex(g, *m, false),
            What::Spawn { f } => Ok(Outcome::Bears { function: *f }),
            _ => Err(Unanswered::Form),
        }
    }
}
