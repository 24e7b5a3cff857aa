ghost use Rattle.std.specs.Prelude.{◌≡◌, ◌<◌, ◌+◌, ◌^◌};
ghost use Rattle.gp_journal.specs.Settings.{AreInRange};
ghost use Rattle.gp_journal.specs.State.{code_of, goroutine};
ghost use Rattle.gp_journal.specs.Effect.{effect, after, is_over_after};
ghost use Rattle.gp_journal.specs.May.{May, MayStart, IsDue, MayOpen, MayRefuse, MayRecord, MayClose};
ghost use Rattle.gp_journal.specs.Answer.{applied};
ghost use Rattle.gp_journal.specs.Reached.{IsReached};
ghost use Rattle.gp_journal.specs.Shown.{IsGiven};
ghost use Rattle.gp_journal.specs.declared.entry.Entry.TheVariants as entry;

use crate::present::Present;
use gp_journal::{Applied, Entry, Run, SharedPoint};

impl<R: Run> Present<R> {
    // The options of the run lie in their ranges.
    fn is_in_range(&self)
        ensures { AreInRange R.settings }
    {
        // (it has no effect, but brings the invariant, which the clause tells)
        let _ = &self.plan;
    }

    // w begins to run g.
    fn enter_start(&mut self, w: u32, g: u32)
        requires reached { IsReached (code_of R.program) R.settings self.old }
        requires may { MayStart R.settings self.old w g }
        ensures { self.new ≡ effect (code_of R.program) R.settings (entry.Start w g) self.old }
    {
        self.is_in_range();
        self.starts(w, g);
    }

    // g passes n local points on w.
    fn enter_run(&mut self, w: u32, g: u32, n: u64) -> bool
        requires reached { IsReached (code_of R.program) R.settings self.old }
        requires may { IsDue (code_of R.program) R.settings self.old w g (entry.Run w g n) }
        ensures state { self.new ≡ effect (code_of R.program) R.settings (entry.Run w g n) self.old }
        ensures died { result ≡ is_over_after (code_of R.program) n (goroutine self.old g) }
    {
        self.is_in_range();
        self.passes(w, g, n)
    }

    // A CPU sample of g is offered on w.
    fn enter_tick(&mut self, w: u32, g: u32)
        requires reached { IsReached (code_of R.program) R.settings self.old }
        requires may { IsDue (code_of R.program) R.settings self.old w g (entry.Tick w g) }
        ensures { self.new ≡ effect (code_of R.program) R.settings (entry.Tick w g) self.old }
    {
        self.is_in_range();
        self.ticks(w);
    }

    // w puts g back.
    fn enter_park(&mut self, w: u32, g: u32)
        requires reached { IsReached (code_of R.program) R.settings self.old }
        requires may { IsDue (code_of R.program) R.settings self.old w g (entry.Park w g) }
        ensures { self.new ≡ effect (code_of R.program) R.settings (entry.Park w g) self.old }
    {
        self.is_in_range();
        self.parks(w, g);
    }

    // A profile is opened.
    fn enter_open(&mut self, epoch: u32, room: u32)
        requires reached { IsReached (code_of R.program) R.settings self.old }
        requires may { MayOpen R.settings self.old epoch room }
        ensures { self.new ≡ effect (code_of R.program) R.settings (entry.Open epoch room) self.old }
    {
        self.serves();
        self.opens(epoch);
    }

    // A profile is refused.
    fn enter_refuse(&mut self, room: u32, n: u32)
        requires may { MayRefuse R.settings self.old room n }
        ensures { self.new ≡ effect (code_of R.program) R.settings (entry.Refuse room n) self.old }
    {
        self.serves();
    }

    // An actor records g.
    fn enter_record(&mut self, actor: u32, g: u32)
        requires may { MayRecord R.settings self.old actor g }
        ensures { self.new ≡ effect (code_of R.program) R.settings (entry.Record actor g) self.old }
    {
        self.records(g);
    }

    // The active profile is closed.
    fn enter_close(&mut self, epoch: u32)
        requires may { MayClose self.old epoch }
        ensures { self.new ≡ effect (code_of R.program) R.settings (entry.Close epoch) self.old }
    {
        self.closes();
    }

    // Makes an entry, but for counting it.
    fn enters(&mut self, made: Entry, point: Option<SharedPoint>) -> Applied
        requires reached { IsReached (code_of R.program) R.settings self.old }
        requires may { May (code_of R.program) R.settings self.old made }
        requires point { IsGiven (code_of R.program) self.old made point }
        ensures state { self.new ≡ effect (code_of R.program) R.settings made self.old }
        ensures answer { result ≡ applied (code_of R.program) R.settings self.old made }
    {
        match made {
            Entry::Start { w, g } => self.enter_start(w, g),
            Entry::Run { w, g, n } => {
                return Applied::Plain {
                    died: self.enter_run(w, g, n),
                };
            }
            Entry::Op { w, g } => match point {
                Some(point) => return self.acts(w, g, point),
                None => unreachable!(),
            },
            Entry::Tick { w, g } => self.enter_tick(w, g),
            Entry::Park { w, g } => self.enter_park(w, g),
            Entry::Open { epoch, room } => self.enter_open(epoch, room),
            Entry::Refuse { room, n } => self.enter_refuse(room, n),
            Entry::Record { actor, g } => self.enter_record(actor, g),
            Entry::Close { epoch } => self.enter_close(epoch),
        }
        Applied::Plain { died: false }
    }

    /// Makes an entry.
    pub fn apply(&mut self, made: Entry, point: Option<SharedPoint>) -> Applied
        requires reached { IsReached (code_of R.program) R.settings self.old }
        requires may { May (code_of R.program) R.settings self.old made }
        requires point { IsGiven (code_of R.program) self.old made point }
        requires room { self.old.entries + 1 < 2 ^ 32 }
        ensures state { self.new ≡ after (code_of R.program) R.settings self.old made }
        ensures answer { result ≡ applied (code_of R.program) R.settings self.old made }
    {
        let answer = self.enters(made, point);
        self.counts();
        answer
    }
}
