ghost use Rattle.std.specs.Prelude.{◌≡◌, ◌<◌, ◌≤◌, ◌+◌, ◌-◌, ◌^◌, [], ◌∷◌, ◌++◌, length, map, drop, nat_lt, slice_get, IsTrue, IfOk, IfNone, IfSome};
ghost use Rattle.gp_isa.specs.Limits.{most_channels, most_mutexes};
ghost use Rattle.gp_sync.specs.Operations.{waiter, send, recv, lock, unlock};
ghost use Rattle.gp_sync.specs.kept.Links.{BeginsWith};
ghost use Rattle.gp_sync.specs.kept.WaitList.{IsThere, waiters_in, with_waiters, number_of};
ghost use Rattle.gp_sync.specs.Places.{places_of};
ghost use Rattle.gp_sync.specs.WaitState.{at_start, empty_lists, channel, capacity, mutex, with_channel, with_mutex};

use crate::effect::{Effect, Waiter};
use crate::lines::Lines;
use crate::wait_list::WaitList;
use gp_isa::{ChannelDecl, Memory, Program};
use std::alloc::Global;
use std::marker::Model;

/// The channels and mutexes of a program, and who waits on them.
///
/// A call takes constant time, however many wait, and no memory.
#[derive(Debug, Drop)]
pub struct WaitLists {
    // by channel: how many values its buffer may have, and how many it has
    capacities: Vec<u32>,
    buffered: Vec<u32>,
    // by mutex
    held: Vec<bool>,
    // the senders by channel, then the receivers by channel, then those who wait for a mutex by mutex
    lines: Lines,
}

impl Model for WaitLists {
    ghost use Rattle.gp_sync.specs.WaitState.{WaitState};
    ghost use Rattle.gp_sync.specs.kept.Layout.{state_of, IsLaidOut};

    ghost Value = { WaitState };

    ghost view = { λ w. state_of w.capacities.items w.buffered.items w.held.items w.lines };

    ghost invariant = { λ w. IsLaidOut w.capacities.items w.buffered.items w.held.items w.lines.lines };
}

fn capacities_of(alloc: Global, channels: &[ChannelDecl]) -> Result<Vec<u32>, Memory>
    ensures { IfOk result (λ v. v.items ≡ map (λ declared. declared.capacity) channels.now) }
{
    let capacities = channels
        .iter()
        .map(|declared| declared.capacity)
        .collect(alloc)?;
    Ok(capacities)
}

impl WaitLists {
    /// Those of a program, on which nobody waits yet, for goroutines whose numbers are below `cells`. They take all
    /// their memory here: it grows with the sum of cells, channels and mutexes.
    pub fn new(alloc: Global, program: &Program, cells: u32) -> Result<WaitLists, Memory>
        ensures { IfOk result (λ lists. lists ≡ at_start program.now cells) }
    {
        let parts = program.parts();
        let capacities = capacities_of(alloc, parts.channels.as_slice())?;
        WaitLists::empty(alloc, capacities, parts.mutexes.len(), cells)
    }

    // Those of channels with such capacities, and of so many mutexes.
    fn empty(
        alloc: Global,
        capacities: Vec<u32>,
        mutexes: usize,
        cells: u32,
    ) -> Result<WaitLists, Memory>
        requires channels { length capacities.items ≤ most_channels }
        requires mutexes { mutexes ≤ most_mutexes }
        ensures { IfOk result (λ lists. lists ≡ empty_lists cells capacities.items mutexes) }
    {
        let channels = capacities.len();
        let buffered = vec![in alloc; 0; channels]?;
        let held = vec![in alloc; false; mutexes]?;
        let lines = Lines::new(alloc, cells, channels + channels + mutexes)?;
        Ok(WaitLists {
            capacities,
            buffered,
            held,
            lines,
        })
    }

    // The number of the line that keeps a wait list.
    fn line(&self, list: WaitList) -> usize
        requires { IsThere self.now list }
        ensures { result ≡ number_of (length self.now.channels) list }
    {
        let channels = self.buffered.len();
        match list {
            WaitList::Senders(c) => c,
            WaitList::Receivers(c) => channels + c,
            WaitList::Lockers(m) => channels + (channels + m),
        }
    }

    // Takes who waits first from a wait list.
    fn next(&mut self, list: WaitList) -> Option<Waiter>
        requires { IsThere self.old list }
        ensures none { IfNone result (waiters_in self.old list ≡ []) }
        ensures same { IfNone result (self.new ≡ self.old) }
        ensures head { IfSome result (λ head. BeginsWith head (waiters_in self.old list)) }
        ensures rest { self.new ≡ with_waiters self.old list (drop 1 (waiters_in self.old list)) }
    {
        let line = self.line(list);
        self.lines.pop_front(line)
    }

    // Lets g wait at the tail of a wait list.
    fn wait(&mut self, list: WaitList, g: u32, clock: u64)
        requires there { IsThere self.old list }
        requires within { g < self.old.cells }
        requires waits_nowhere { places_of self.old.channels self.old.mutexes g ≡ 0 }
        ensures { self.new ≡ with_waiters self.old list (waiters_in self.old list ++ waiter g clock ∷ []) }
    {
        let line = self.line(list);
        self.lines.push_back(line, g, clock);
    }

    fn has_room(&self, c: usize) -> bool
        requires { c < length self.now.channels }
        ensures answer { result ≡ nat_lt (channel self.now c).buffered (capacity self.now c) }
        ensures fits { IsTrue result → (channel self.now c).buffered + 1 < 2 ^ 32 }
    {
        self.buffered[c] < self.capacities[c]
    }

    fn has_value(&self, c: usize) -> bool
        requires { c < length self.now.channels }
        ensures { result ≡ nat_lt 0 (channel self.now c).buffered }
    {
        self.buffered[c] > 0
    }

    // Puts a value into the buffer.
    fn put(&mut self, c: usize)
        requires there { c < length self.old.channels }
        requires room { (channel self.old c).buffered + 1 < 2 ^ 32 }
        ensures { self.new ≡ with_channel self.old c (record (channel self.old c) { buffered = (channel self.old c).buffered + 1 }) }
    {
        self.buffered[c] += 1;
    }

    // Takes a value from the buffer.
    fn take(&mut self, c: usize)
        requires there { c < length self.old.channels }
        requires some { 0 < (channel self.old c).buffered }
        ensures { self.new ≡ with_channel self.old c (record (channel self.old c) { buffered = (channel self.old c).buffered - 1 }) }
    {
        self.buffered[c] -= 1;
    }

    fn set_held(&mut self, m: usize, held: bool)
        requires { m < length self.old.mutexes }
        ensures { self.new ≡ with_mutex self.old m (record (mutex self.old m) { held = held }) }
    {
        self.held[m] = held;
    }

    // A send where no receiver waits.
    fn put_or_wait(&mut self, c: usize, g: u32, clock: u64) -> Effect
        requires there { c < length self.old.channels }
        requires within { g < self.old.cells }
        requires waits_nowhere { places_of self.old.channels self.old.mutexes g ≡ 0 }
        requires none { (channel self.old c).receivers ≡ [] }
        ensures effect { result ≡ (send (capacity self.old c) (channel self.old c) (waiter g clock)).0 }
        ensures channel { self.new ≡ with_channel self.old c (send (capacity self.old c) (channel self.old c) (waiter g clock)).1 }
    {
        if self.has_room(c) {
            self.put(c);
            return Effect::Done;
        }
        self.wait(WaitList::Senders(c), g, clock);
        Effect::Blocks
    }

    // A receive where no sender waits.
    fn take_or_wait(&mut self, c: usize, g: u32, clock: u64) -> Effect
        requires there { c < length self.old.channels }
        requires within { g < self.old.cells }
        requires waits_nowhere { places_of self.old.channels self.old.mutexes g ≡ 0 }
        requires none { (channel self.old c).senders ≡ [] }
        ensures effect { result ≡ (recv (channel self.old c) (waiter g clock)).0 }
        ensures channel { self.new ≡ with_channel self.old c (recv (channel self.old c) (waiter g clock)).1 }
    {
        if self.has_value(c) {
            self.take(c);
            return Effect::Done;
        }
        self.wait(WaitList::Receivers(c), g, clock);
        Effect::Blocks
    }

    /// Goroutine g sends on channel c, at a clock. It wakes the receiver that waits first, else fills the buffer, else
    /// waits itself. It must not wait anywhere before.
    pub fn send(&mut self, c: u32, g: u32, clock: u64) -> Effect
        requires there { c < length self.old.channels }
        requires within { g < self.old.cells }
        requires waits_nowhere { places_of self.old.channels self.old.mutexes g ≡ 0 }
        ensures effect { result ≡ (send (capacity self.old c) (channel self.old c) (waiter g clock)).0 }
        ensures channel { self.new ≡ with_channel self.old c (send (capacity self.old c) (channel self.old c) (waiter g clock)).1 }
    {
        let c = c as usize;
        match self.next(WaitList::Receivers(c)) {
            Some(head) => head.woken(),
            None => self.put_or_wait(c, g, clock),
        }
    }

    /// Goroutine g receives from channel c, at a clock. It wakes the sender that waits first, else takes from the
    /// buffer, else waits itself. It must not wait anywhere before.
    pub fn recv(&mut self, c: u32, g: u32, clock: u64) -> Effect
        requires there { c < length self.old.channels }
        requires within { g < self.old.cells }
        requires waits_nowhere { places_of self.old.channels self.old.mutexes g ≡ 0 }
        ensures effect { result ≡ (recv (channel self.old c) (waiter g clock)).0 }
        ensures channel { self.new ≡ with_channel self.old c (recv (channel self.old c) (waiter g clock)).1 }
    {
        let c = c as usize;
        match self.next(WaitList::Senders(c)) {
            Some(head) => head.woken(),
            None => self.take_or_wait(c, g, clock),
        }
    }

    /// Whether mutex m is held.
    pub fn is_held(&self, m: u32) -> bool
        requires { m < length self.now.mutexes }
        ensures { result ≡ (mutex self.now m).held }
    {
        self.held[m as usize]
    }

    /// Who waits first for mutex m, and since which clock, if anybody does: whoever an unlock of a held mutex would
    /// hand it over to. Nothing changes.
    pub fn first_waiter(&self, m: u32) -> Option<Waiter>
        requires { m < length self.now.mutexes }
        ensures { result ≡ slice_get (mutex self.now m).waiters 0 }
    {
        self.lines.front(self.line(WaitList::Lockers(m as usize)))
    }

    /// Goroutine g locks mutex m, at a clock: it takes a free one, and else waits, also for one that it holds itself.
    /// It must not wait anywhere before.
    pub fn lock(&mut self, m: u32, g: u32, clock: u64) -> Effect
        requires there { m < length self.old.mutexes }
        requires within { g < self.old.cells }
        requires waits_nowhere { places_of self.old.channels self.old.mutexes g ≡ 0 }
        ensures effect { result ≡ (lock (mutex self.old m) (waiter g clock)).0 }
        ensures mutex { self.new ≡ with_mutex self.old m (lock (mutex self.old m) (waiter g clock)).1 }
    {
        if self.is_held(m) {
            self.wait(WaitList::Lockers(m as usize), g, clock);
            return Effect::Blocks;
        }
        self.set_held(m as usize, true);
        Effect::Done
    }

    /// A goroutine unlocks mutex m, be it the one that holds it or not: it hands the mutex over to whoever waits
    /// first, else frees it. To unlock a free one is a fault, which changes nothing.
    pub fn unlock(&mut self, m: u32, _g: u32, _clock: u64) -> Effect
        requires { m < length self.old.mutexes }
        ensures effect { result ≡ (unlock (mutex self.old m)).0 }
        ensures mutex { self.new ≡ with_mutex self.old m (unlock (mutex self.old m)).1 }
    {
        if !self.is_held(m) {
            return Effect::Fault;
        }
        match self.next(WaitList::Lockers(m as usize)) {
            Some(head) => head.woken(),
            None => {
                self.set_held(m as usize, false);
                Effect::Done
            }
        }
    }
}
