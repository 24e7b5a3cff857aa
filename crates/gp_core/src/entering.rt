//! What the events do that add entries.
ghost use Rattle.std.specs.Prelude.{◌≡◌, ◌+◌, ◌≤◌, ◌<◌, ◌++◌, true, false, vec_len, OnOk, OnErr};
ghost use Rattle.std.specs.Vec.{vec_capacity};
ghost use Rattle.gp_journal.specs.Settings.{AreInRange};
ghost use Rattle.gp_journal.specs.State.{code_of};
ghost use Rattle.gp_journal.specs.Run.{state_of};
ghost use Rattle.gp_core.specs.declared.event.CoreEvent.TheVariants as event;
ghost use Rattle.gp_core.specs.declared.hold.How.TheVariants as how;
ghost use Rattle.gp_core.specs.CoreState.{hand, now, copy_in, with_copy, HoldsBy};
ghost use Rattle.gp_core.specs.Enabled.{IsEnabled, is_needed, start_of};
ghost use Rattle.gp_core.specs.Stepped.{stepped, kept_with};

use crate::asks::{is_needed, may_start};
use crate::due::make_due;
use crate::hold::{Hold, How, exchange_copy, holds_by};
use crate::status_words::Core;
use gp_isa::{Memory, Program};
use gp_machine::{Entry, Machine, Run};
use gp_stack::Record;

// The copy in a hand goes to the records of an epoch, for which there is room.
fn keep_copy(copies: &mut Vec<(u32, Record)>, hand: &mut Option<Hold>, epoch: u32)
    requires { vec_len copies.old + 1 ≤ vec_capacity copies.old }
    ensures copies { copies.new.items ≡ copies.old.items ++ kept_with epoch (copy_in hand.old) }
    ensures hand { hand.new ≡ with_copy None hand.old }
{
    if let Some(copy) = exchange_copy(hand, None) {
        match copies.push((epoch, copy)) {
            Ok(()) => {}
            Err(_) => unreachable!(),
        }
    }
}

// Starts g on w where that is legal.
fn start<R: Run>(machine: &mut Machine<R>, w: u32, g: u32)
    requires range { AreInRange R.settings }
    requires worker { w < R.settings.workers }
    ensures { machine.new ≡ machine.old ++ start_of R.settings (state_of R.program R.settings machine.old) w g }
{
    if may_start(machine, w, g) {
        machine.make(Entry::Start { w, g }, None);
    }
}

impl<R: Run> Core<R> {
    // A worker begins g, which has to be recorded first.
    fn begin_needed(&mut self, w: u32, g: u32) -> Result<(), Memory>
        requires enabled { IsEnabled (code_of R.program) R.settings self.old (event.Begin w g) }
        requires needed { is_needed (now (code_of R.program) R.settings self.old) g ≡ true }
        ensures ok { OnOk result (self.new ≡ stepped (code_of R.program) R.settings self.old (event.Begin w g)) }
        ensures err { OnErr result (self.new ≡ self.old) }
    {
        self.copies.reserve(1)?;
        let epoch = self.machine.active();
        keep_copy(&mut self.copies, &mut self.hands[w as usize], epoch);
        self.machine.make(Entry::Record { actor: w, g }, None);
        start(&mut self.machine, w, g);
        Ok(())
    }

    // A worker begins g, which has nothing to be recorded.
    fn begin_recorded(&mut self, w: u32, g: u32)
        requires enabled { IsEnabled (code_of R.program) R.settings self.old (event.Begin w g) }
        requires recorded { is_needed (now (code_of R.program) R.settings self.old) g ≡ false }
        ensures { self.new ≡ stepped (code_of R.program) R.settings self.old (event.Begin w g) }
    {
        let _ = exchange_copy(&mut self.hands[w as usize], None);
        start(&mut self.machine, w, g);
    }

    // A worker records g where it has to, and starts it where it may.
    pub(crate) fn begin(&mut self, w: u32, g: u32) -> Result<(), Memory>
        requires { IsEnabled (code_of R.program) R.settings self.old (event.Begin w g) }
        ensures ok { OnOk result (self.new ≡ stepped (code_of R.program) R.settings self.old (event.Begin w g)) }
        ensures err { OnErr result (self.new ≡ self.old) }
    {
        if is_needed(&self.machine, g) {
            return self.begin_needed(w, g);
        }
        self.begin_recorded(w, g);
        Ok(())
    }

    // An actor records g, which it has claimed.
    fn commit_claim(&mut self, a: u32, g: u32) -> Result<(), Memory>
        requires enabled { IsEnabled (code_of R.program) R.settings self.old (event.Commit a g) }
        requires claimed { HoldsBy how.Claim g (hand self.old a) }
        ensures ok { OnOk result (self.new ≡ stepped (code_of R.program) R.settings self.old (event.Commit a g)) }
        ensures err { OnErr result (self.new ≡ self.old) }
    {
        self.copies.reserve(1)?;
        let epoch = self.machine.active();
        keep_copy(&mut self.copies, &mut self.hands[a as usize], epoch);
        self.machine.make(Entry::Record { actor: a, g }, None);
        Ok(())
    }

    // A worker makes the entry that is due on g, which it has taken.
    fn commit_due(&mut self, program: &Program, w: u32, g: u32)
        requires program { program.now ≡ R.program }
        requires enabled { IsEnabled (code_of R.program) R.settings self.old (event.Commit w g) }
        requires taken { HoldsBy how.Take g (hand self.old w) }
        ensures { self.new ≡ stepped (code_of R.program) R.settings self.old (event.Commit w g) }
    {
        match &mut self.bodies[g as usize] {
            Some(body) => make_due(&mut self.machine, program, w, g, body),
            None => unreachable!(),
        }
    }

    // An actor makes the entry of g: its Record by a claim, else the one that is due.
    pub(crate) fn commit(&mut self, program: &Program, a: u32, g: u32) -> Result<(), Memory>
        requires program { program.now ≡ R.program }
        requires enabled { IsEnabled (code_of R.program) R.settings self.old (event.Commit a g) }
        ensures ok { OnOk result (self.new ≡ stepped (code_of R.program) R.settings self.old (event.Commit a g)) }
        ensures err { OnErr result (self.new ≡ self.old) }
    {
        if holds_by(self.hand(a), How::Claim, g) {
            return self.commit_claim(a, g);
        }
        self.commit_due(program, a, g);
        Ok(())
    }

    // A profile is opened where there is room for all who live, else refused.
    pub(crate) fn open_all(&mut self)
        requires { IsEnabled (code_of R.program) R.settings self.old event.OpenAll }
        ensures { self.new ≡ stepped (code_of R.program) R.settings self.old event.OpenAll }
    {
        let room = self.room;
        let n = self.machine.live();
        if n <= room {
            let epoch = self.machine.last_epoch() + 1;
            self.machine.make(Entry::Open { epoch, room }, None);
        } else {
            self.machine.make(Entry::Refuse { room, n }, None);
        }
    }

    // The active profile is closed.
    pub(crate) fn close_all(&mut self)
        requires { IsEnabled (code_of R.program) R.settings self.old event.CloseAll }
        ensures { self.new ≡ stepped (code_of R.program) R.settings self.old event.CloseAll }
    {
        let epoch = self.machine.active();
        self.machine.make(Entry::Close { epoch }, None);
    }
}
