ghost use Rattle.std.specs.Prelude.{◌≡◌, ◌+◌, ◌<◌, ◌^◌, [], OnOk, OnErr, IfOk};
ghost use Rattle.gp_events.specs.Sums.{added, total_count, total_delay};
ghost use Rattle.gp_events.specs.Order.{sums_in_order};
ghost use Rattle.gp_events.specs.kept.Buckets.{total_at, entered, sums_of_entries};

use crate::order::compare;
use crate::stack_key::StackKey;
use crate::sum::{Sum, Sums};
use gp_isa::{Memory, Program, Sequence};
use gp_stack::Stack;
use indexmap::IndexMap;
use std::alloc::Global;
use std::marker::Model;

/// What was added to one stack.
#[derive(Clone, Copy, Debug)]
pub(crate) struct Total {
    pub(crate) count: u128,
    pub(crate) delay: u128,
}

/// The sums of the events that were added, one for each stack, in the order in which the stacks were first met.
#[derive(Debug, Drop)]
pub struct Buckets {
    totals: IndexMap<StackKey, Total>,
}

impl Model for Buckets {
    ghost use Rattle.std.specs.Prelude.{List};
    ghost use Rattle.gp_events.specs.declared.sum.Sum.{Sum};

    ghost Value = { List Sum };

    ghost use Rattle.gp_events.specs.kept.Buckets.{sums_of_entries};

    ghost view = { λ b. sums_of_entries b.totals.entries };
}

// An event more of a stack.
fn enter(
    totals: &mut IndexMap<StackKey, Total>,
    stack: StackKey,
    count: u128,
    delay: u128,
) -> Result<(), Memory>
    requires count { (total_at totals.old.entries stack).count + count < 2 ^ 128 }
    requires delay { (total_at totals.old.entries stack).delay + delay < 2 ^ 128 }
    ensures ok { OnOk result (totals.new.entries ≡ entered totals.old.entries stack count delay) }
    ensures err { OnErr result (totals.new.entries ≡ totals.old.entries) }
{
    let total = totals.entry(stack)?.or_insert(Total { count: 0, delay: 0 });
    *total = Total {
        count: total.count + count,
        delay: total.delay + delay,
    };
    Ok(())
}

impl Buckets {
    /// No events yet.
    pub fn new(alloc: Global) -> Result<Buckets, Memory>
        ensures { IfOk result (λ buckets. buckets ≡ []) }
    {
        Ok(Buckets {
            totals: IndexMap::new(alloc),
        })
    }

    /// Adds an event, by a copy of its stack. Where there is no memory nothing is added.
    pub fn add(
        &mut self,
        alloc: Global,
        stack: &Stack,
        count: u64,
        delay: u128,
    ) -> Result<(), Memory>
        requires count { total_count self.old + count < 2 ^ 128 }
        requires delay { total_delay self.old + delay < 2 ^ 128 }
        ensures ok { OnOk result (self.new ≡ added self.old (record { stack = stack.now; count = count; delay = delay })) }
        ensures err { OnErr result (self.new ≡ self.old) }
    {
        let copy = Stack::from_slice(alloc, stack.as_slice())?;
        self.add_stack(copy, count, delay)
    }

    /// Adds an event, as `add` does, of a stack that is given away.
    pub fn add_stack(&mut self, stack: Stack, count: u64, delay: u128) -> Result<(), Memory>
        requires count { total_count self.old + count < 2 ^ 128 }
        requires delay { total_delay self.old + delay < 2 ^ 128 }
        ensures ok { OnOk result (self.new ≡ added self.old (record { stack = stack; count = count; delay = delay })) }
        ensures err { OnErr result (self.new ≡ self.old) }
    {
        enter(
            &mut self.totals,
            StackKey::new(stack),
            u128::from(count),
            delay,
        )
    }

    // The sums, in the order in which their stacks were first met.
    fn list(&self, alloc: Global) -> Result<Vec<Sum>, Memory>
        ensures { IfOk result (λ all. all.items ≡ self.now) }
    {
        let mut all = Vec::with_capacity(alloc, self.totals.len())?;
        for (stack, total) in self.totals.iter() {
            all.push(Sum {
                stack: Stack::from_slice(alloc, stack.frames())?,
                count: total.count,
                delay: total.delay,
            })?;
        }
        Ok(all)
    }

    /// The sums in the order of a profile: falling delay, then stack.
    #[tactic(auto, unfolding(crate::specs::Order::sums_in_order))]
    pub fn sorted(&self, alloc: Global, program: &Program) -> Result<Sums, Memory>
        ensures { IfOk result (λ sums. sums ≡ sums_in_order program.now self.now) }
    {
        let parts = program.parts();
        let mut all = self.list(alloc)?;
        all.sort_by(|a, b| compare(parts, a, b))?;
        Ok(Sequence::from_vec(all))
    }
}
