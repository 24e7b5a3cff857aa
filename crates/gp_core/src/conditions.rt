//! What each event asks for.
ghost use Rattle.std.specs.Prelude.{◌≡◌, ◌≤◌, ◌<◌};
ghost use Rattle.gp_journal.specs.State.{code_of, births};
ghost use Rattle.gp_core.specs.CoreState.{word, hand, now};
ghost use Rattle.gp_core.specs.kept.Tests as test;

use crate::asks::{is_needed, lives, may_close, may_record, may_start, runs, stands};
use crate::event::CoreEvent;
use crate::hold::{Hold, How, has_copy, holds, holds_by};
use crate::status_words::Core;
use crate::word::Word;
use gp_machine::Run;

impl<R: Run> Core<R> {
    // The hand of an actor.
    pub(crate) fn hand(&self, a: u32) -> &Option<Hold>
        requires { a ≤ R.settings.workers }
        ensures { result.now ≡ hand self.now a }
    {
        &self.hands[a as usize]
    }

    // The word of a goroutine's cell.
    pub(crate) fn word(&self, g: u32) -> Word
        requires { g < births (now (code_of R.program) R.settings self.now) }
        ensures { result ≡ word self.now g }
    {
        self.words[g as usize]
    }

    // Whether a is an actor, and g was born.
    fn is_pair(&self, a: u32, g: u32) -> bool
        ensures { result ≡ test.is_pair R.settings (now (code_of R.program) R.settings self.now) a g }
    {
        a <= self.workers && g < self.machine.births()
    }

    // Whether w is a worker, and g was born.
    fn is_workers_pair(&self, w: u32, g: u32) -> bool
        ensures { result ≡ test.is_workers_pair R.settings (now (code_of R.program) R.settings self.now) w g }
    {
        w < self.workers && g < self.machine.births()
    }

    // The hand is free, and the word is a home word with the epoch before the last one.
    fn may_claim(&self, a: u32, g: u32) -> bool
        requires actor { a ≤ R.settings.workers }
        requires born { g < births (now (code_of R.program) R.settings self.now) }
        ensures { result ≡ test.may_claim (now (code_of R.program) R.settings self.now) self.now a g }
    {
        let last = self.machine.last_epoch();
        self.hand(a).is_none() && last >= 1 && self.word(g).is_home_of(last - 1)
    }

    // The actor holds it, and it is live and doesn't run.
    fn may_copy(&self, a: u32, g: u32) -> bool
        requires { a ≤ R.settings.workers }
        ensures { result ≡ test.may_copy (now (code_of R.program) R.settings self.now) self.now a g }
    {
        holds(self.hand(a), g) && lives(&self.machine, g) && stands(&self.machine, g)
    }

    // The actor has claimed it in the epoch that it has.
    fn may_satisfy(&self, a: u32, g: u32) -> bool
        requires { g < births (now (code_of R.program) R.settings self.now) }
        ensures { result ≡ test.may_satisfy (now (code_of R.program) R.settings self.now) self.now a g }
    {
        self.word(g).is_claim_of(self.machine.goroutine(g).epoch, a)
    }

    // The hand is free, and the word is a home word.
    fn may_take(&self, w: u32, g: u32) -> bool
        requires worker { w < R.settings.workers }
        requires born { g < births (now (code_of R.program) R.settings self.now) }
        ensures { result ≡ test.may_take self.now w g }
    {
        self.hand(w).is_none() && self.word(g).is_home()
    }

    // The worker has taken it. It may record it, with a copy, where it has to, else start it. A Start behind a Record is added
    // only where it is legal, so the first entry decides.
    fn may_begin(&self, w: u32, g: u32) -> bool
        requires { w < R.settings.workers }
        ensures { result ≡ test.may_begin R.settings (now (code_of R.program) R.settings self.now) self.now w g }
    {
        if !holds_by(self.hand(w), How::Take, g) {
            return false;
        }
        if is_needed(&self.machine, g) {
            has_copy(self.hand(w)) && may_record(&self.machine, self.workers, w, g)
        } else {
            may_start(&self.machine, w, g)
        }
    }

    // The actor has claimed it in the active epoch, has a copy, and may record it.
    fn may_commit_claim(&self, a: u32, g: u32) -> bool
        requires actor { a ≤ R.settings.workers }
        requires born { g < births (now (code_of R.program) R.settings self.now) }
        ensures { result ≡ test.may_commit_claim R.settings (now (code_of R.program) R.settings self.now) self.now a g }
    {
        holds_by(self.hand(a), How::Claim, g)
            && self.word(g).is_claim_of(self.machine.active(), a)
            && has_copy(self.hand(a))
            && may_record(&self.machine, self.workers, a, g)
    }

    // The actor has taken it, and runs it. Then an entry is due on it, and legal.
    fn may_commit_due(&self, a: u32, g: u32) -> bool
        requires { a ≤ R.settings.workers }
        ensures { result ≡ test.may_commit_due (now (code_of R.program) R.settings self.now) self.now a g }
    {
        holds_by(self.hand(a), How::Take, g) && runs(&self.machine, self.workers, a, g)
    }

    // The worker has taken it, and it is live and doesn't run.
    fn may_give(&self, w: u32, g: u32) -> bool
        requires { w < R.settings.workers }
        ensures { result ≡ test.may_give (now (code_of R.program) R.settings self.now) self.now w g }
    {
        holds_by(self.hand(w), How::Take, g) && lives(&self.machine, g) && stands(&self.machine, g)
    }

    // It is live, and its cell is empty.
    fn may_bear(&self, g: u32) -> bool
        requires { g < births (now (code_of R.program) R.settings self.now) }
        ensures { result ≡ test.may_bear (now (code_of R.program) R.settings self.now) self.now g }
    {
        lives(&self.machine, g) && self.word(g).is_empty()
    }

    // The worker has taken it, and it is dead.
    fn may_bury(&self, w: u32, g: u32) -> bool
        requires { w < R.settings.workers }
        ensures { result ≡ test.may_bury (now (code_of R.program) R.settings self.now) self.now w g }
    {
        holds_by(self.hand(w), How::Take, g) && !lives(&self.machine, g)
    }

    // A profile is asked for, and nobody runs.
    fn may_open(&self) -> bool
        ensures { result ≡ test.may_open R.settings (now (code_of R.program) R.settings self.now) }
    {
        self.machine.asked() && self.machine.running() == 0
    }

    // Whether an event is enabled.
    pub(crate) fn admits(&self, event: CoreEvent) -> bool
        ensures { result ≡ test.admits (code_of R.program) R.settings self.now event }
    {
        match event {
            CoreEvent::Claim { a, g } => self.is_pair(a, g) && self.may_claim(a, g),
            CoreEvent::Copy { a, g } => self.is_pair(a, g) && self.may_copy(a, g),
            CoreEvent::Satisfy { a, g } => self.is_pair(a, g) && self.may_satisfy(a, g),
            CoreEvent::Take { w, g } => self.is_workers_pair(w, g) && self.may_take(w, g),
            CoreEvent::Begin { w, g } => self.is_workers_pair(w, g) && self.may_begin(w, g),
            CoreEvent::Commit { a, g } => {
                self.is_pair(a, g) && (self.may_commit_claim(a, g) || self.may_commit_due(a, g))
            }
            CoreEvent::Give { w, g } => self.is_workers_pair(w, g) && self.may_give(w, g),
            CoreEvent::Bear { w, g } => self.is_workers_pair(w, g) && self.may_bear(g),
            CoreEvent::Bury { w, g } => self.is_workers_pair(w, g) && self.may_bury(w, g),
            CoreEvent::OpenAll => self.may_open(),
            CoreEvent::CloseAll => may_close(&self.machine),
        }
    }
}
