ghost use Rattle.std.specs.Prelude.{◌≡◌, [], IfOk, OnOk, OnErr};
ghost use Rattle.gp_events.specs.Fraction.{choice_after};
ghost use Rattle.gp_history.specs.Events.{AddsEvent};
ghost use Rattle.gp_history.specs.kept.Waits.{are_off, block_event, mutex_event, event_by, noted, MayNote};

use crate::op_event::OpEvent;
use gp_events::{Buckets, Fraction};
use gp_isa::Memory;
use gp_machine::{Foreseen, Settings};
use gp_stack::Stack;
use std::alloc::Global;
use std::marker::Model;

/// The sums of a run's block and mutex events so far, and the choice of the mutex events that come.
#[derive(Debug, Drop)]
pub(crate) struct WaitSums {
    rate: u32,
    block: Buckets,
    mutex: Buckets,
    f: u32,
    choice: Fraction,
}

/// The sums of both kinds, each by itself.
#[derive(Debug, Drop)]
pub(crate) struct BothSums {
    pub(crate) block: Buckets,
    pub(crate) mutex: Buckets,
}

impl Model for WaitSums {
    ghost use Rattle.std.specs.Prelude.{◌≡◌};
    ghost use Rattle.gp_history.specs.kept.Waits.{KeptWaits};

    ghost Value = { KeptWaits };

    ghost view = { λ w. record { rate = w.rate; block = w.block; mutex = w.mutex; choice = w.choice } };

    ghost invariant = { λ w. w.choice.f ≡ w.f };
}

impl WaitSums {
    /// No event yet, at the rate and the fraction of the options.
    pub fn new(alloc: Global, settings: &Settings) -> Result<WaitSums, Memory>
        ensures { IfOk result (λ waits. waits ≡ record {
          rate = settings.now.block;
          block = [];
          mutex = [];
          choice = choice_after settings.now.seed settings.now.mutex 0;
        }) }
    {
        Ok(WaitSums {
            rate: settings.block,
            block: Buckets::new(alloc)?,
            mutex: Buckets::new(alloc)?,
            f: settings.mutex,
            choice: Fraction::new(settings.seed, settings.mutex),
        })
    }

    /// Whether no event is recorded, of either kind.
    pub fn are_off(&self) -> bool
        ensures { result ≡ are_off self.now }
    {
        self.rate == 0 && self.f == 0
    }

    fn block_event(&self, delay: u64) -> OpEvent
        ensures { result ≡ block_event self.now delay }
    {
        if self.rate == 0 {
            return OpEvent::Nothing;
        }
        OpEvent::Block { delay }
    }

    fn mutex_event(&self, delay: u64) -> OpEvent
        ensures { result ≡ mutex_event self.now delay }
    {
        if self.f == 0 {
            return OpEvent::Nothing;
        }
        if self.choice.ahead() {
            OpEvent::Mutex { delay }
        } else {
            OpEvent::Skipped
        }
    }

    /// What an Op leaves of which this is foreseen.
    pub fn event(&self, told: Foreseen) -> OpEvent
        ensures { result ≡ event_by self.now told.wait told.contended }
    {
        match told.wait {
            Some(delay) => self.block_event(delay),
            None => match told.contended {
                Some(delay) => self.mutex_event(delay),
                None => OpEvent::Nothing,
            },
        }
    }

    // A mutex event of a stack is kept.
    fn note_mutex(&mut self, stack: Stack, delay: u64) -> Result<(), Memory>
        requires { MayNote self.old (OpEvent.Mutex delay) }
        ensures ok { OnOk result (self.new ≡ noted (OpEvent.Mutex delay) stack self.old) }
        ensures err { OnErr result (self.new ≡ self.old) }
    {
        let weight = u64::from(self.f);
        self.mutex
            .add_stack(stack, weight, u128::from(weight) * u128::from(delay))?;
        self.choice.keep();
        Ok(())
    }

    /// Goes on by what an Op leaves, with its stack. Where there is no memory for an event that is added all stays.
    pub fn note(&mut self, event: OpEvent, stack: Stack) -> Result<(), Memory>
        requires { MayNote self.old event }
        ensures ok { OnOk result (self.new ≡ noted event stack self.old) }
        ensures err { OnErr result (self.new ≡ self.old) }
        ensures memory { OnErr result (AddsEvent event) }
    {
        match event {
            OpEvent::Nothing => Ok(()),
            OpEvent::Block { delay } => self.block.add_stack(stack, 1, u128::from(delay)),
            OpEvent::Mutex { delay } => self.note_mutex(stack, delay),
            OpEvent::Skipped => {
                self.choice.keep();
                Ok(())
            }
        }
    }

    /// The sums of the block events.
    pub fn block(&self) -> &Buckets
        ensures { result.now ≡ self.now.block }
    {
        &self.block
    }

    /// The sums of the mutex events.
    pub fn mutex(&self) -> &Buckets
        ensures { result.now ≡ self.now.mutex }
    {
        &self.mutex
    }

    /// The sums of both kinds, each by itself.
    pub fn into_sums(self) -> BothSums
        ensures block { result.block ≡ self.block }
        ensures mutex { result.mutex ≡ self.mutex }
    {
        let WaitSums { block, mutex, .. } = self;
        BothSums { block, mutex }
    }
}
