//! What is due.
use crate::goroutine::{is_able, is_live, rule};
use crate::replay::Replay;
use gp_cases::Unanswered;
use gp_isa::Program;
use gp_machine::{Entry, Request};

/// The most instructions of a slice.
const SLICE: u64 = 1000;

impl Replay {
    pub(crate) fn is_main_dead(&self) -> bool {
        match self.goroutines.first() {
            Some(main) => !is_live(main),
            None => true,
        }
    }

    pub(crate) fn is_anybody_able(&self) -> bool {
        self.goroutines.iter().any(|it| is_able(it))
    }

    /// Whether the run is over.
    pub(crate) fn is_run_over(&self) -> bool {
        self.is_main_dead()
            || self.fault.is_some()
            || self.length >= self.entries
            || !self.is_anybody_able()
    }

    /// Whether a profile is asked for.
    pub(crate) fn is_asked(&self) -> bool {
        let is_due = match self.requests.get(self.served) {
            Some(Request::Clock { clock }) => *clock <= self.clock || self.is_run_over(),
            Some(Request::End) => self.is_run_over(),
            None => false,
        };
        is_due && self.active == 0
    }

    // Whether who runs on a worker has to leave it.
    fn has_to_park(&self, slice: u64) -> bool {
        self.is_asked() || self.is_run_over() || slice >= SLICE
    }

    /// The most points that a worker may pass before it has to look again.
    pub(crate) fn most_points(&self, w: u32, slice: u64) -> u64 {
        let done = self.done.get(w as usize).copied().unwrap_or(0);
        let behind = done.checked_rem(self.period).unwrap_or(0);
        let to_tick = self.period.saturating_sub(behind);
        to_tick.min(SLICE.saturating_sub(slice))
    }

    /// Whether g stands at a local point.
    pub(crate) fn is_at_local(&self, program: &Program, g: u32) -> bool {
        match self.goroutines.get(g as usize) {
            Some(it) => it.route.is_at_local(program),
            None => false,
        }
    }

    /// That a worker's entry is the one that is due: a Tick, else a Park, else an Op at a shared point and a Run at a local one. A Run
    /// goes as far as it may, which its `n` tells once it was made.
    pub(crate) fn is_due(&self, program: &Program, entry: &Entry) -> Result<(), Unanswered> {
        let (w, g) = match *entry {
            Entry::Run { w, g, .. } => (w, g),
            Entry::Op { w, g } => (w, g),
            Entry::Tick { w, g } => (w, g),
            Entry::Park { w, g } => (w, g),
            _ => return Ok(()),
        };
        let Some(seat) = self.seats.get(w as usize).copied() else {
            return Err(Unanswered::Form);
        };
        rule(seat.runs == Some(g))?;
        let parks = self.has_to_park(seat.slice);
        let is_local = self.is_at_local(program, g);
        rule(match *entry {
            Entry::Tick { .. } => seat.is_tick_due,
            Entry::Park { .. } => !seat.is_tick_due && parks,
            Entry::Op { .. } => !seat.is_tick_due && !parks && !is_local,
            Entry::Run { n, .. } => {
                !seat.is_tick_due
                    && !parks
                    && is_local
                    && n > 0
                    && n <= self.most_points(w, seat.slice)
            }
            _ => true,
        })
    }
}
