//! What the events do that add no entry.
ghost use Rattle.std.specs.Prelude.{◌≡◌, IfOk, OnOk, OnErr};
ghost use Rattle.gp_journal.specs.State.{code_of};
ghost use Rattle.gp_core.specs.declared.event.CoreEvent.TheVariants as event;
ghost use Rattle.gp_core.specs.CoreState.{now};
ghost use Rattle.gp_core.specs.Enabled.{IsEnabled};
ghost use Rattle.gp_core.specs.Stepped.{stepped, copy_of};

use crate::hold::{Hold, How, exchange_copy};
use crate::status_words::Core;
use crate::word::Word;
use gp_isa::{Memory, Program};
use gp_machine::Run;
use gp_stack::{Body, Record};
use std::alloc::Global;

impl<R: Run> Core<R> {
    // An actor claims g for the profile that was opened last.
    pub(crate) fn claim(&mut self, a: u32, g: u32)
        requires { IsEnabled (code_of R.program) R.settings self.old (event.Claim a g) }
        ensures { self.new ≡ stepped (code_of R.program) R.settings self.old (event.Claim a g) }
    {
        let epoch = self.machine.last_epoch();
        self.words[g as usize] = Word::Claimed { epoch, actor: a };
        self.hands[a as usize] = Some(Hold {
            g,
            how: How::Claim,
            copy: None,
        });
    }

    // The row of g, which an actor holds.
    fn row_of(&self, alloc: Global, program: &Program, a: u32, g: u32) -> Result<Record, Memory>
        requires program { program.now ≡ R.program }
        requires enabled { IsEnabled (code_of R.program) R.settings self.now (event.Copy a g) }
        ensures { IfOk result (λ row. row ≡ copy_of (code_of R.program) (now (code_of R.program) R.settings self.now) self.now g) }
    {
        match &self.bodies[g as usize] {
            Some(body) => body.record(alloc, program, g),
            None => unreachable!(),
        }
    }

    // An actor copies the row of g, which it holds.
    pub(crate) fn copy(
        &mut self,
        alloc: Global,
        program: &Program,
        a: u32,
        g: u32,
    ) -> Result<(), Memory>
        requires program { program.now ≡ R.program }
        requires enabled { IsEnabled (code_of R.program) R.settings self.old (event.Copy a g) }
        ensures ok { OnOk result (self.new ≡ stepped (code_of R.program) R.settings self.old (event.Copy a g)) }
        ensures err { OnErr result (self.new ≡ self.old) }
    {
        let copy = self.row_of(alloc, program, a, g)?;
        let _ = exchange_copy(&mut self.hands[a as usize], Some(copy));
        Ok(())
    }

    // An actor puts g back, which it has claimed.
    pub(crate) fn satisfy(&mut self, a: u32, g: u32)
        requires { IsEnabled (code_of R.program) R.settings self.old (event.Satisfy a g) }
        ensures { self.new ≡ stepped (code_of R.program) R.settings self.old (event.Satisfy a g) }
    {
        let recorded = self.machine.goroutine(g);
        self.words[g as usize] = Word::Home {
            epoch: recorded.epoch,
        };
        self.hands[a as usize] = None;
    }

    // A worker takes g.
    pub(crate) fn take(&mut self, w: u32, g: u32)
        requires { IsEnabled (code_of R.program) R.settings self.old (event.Take w g) }
        ensures { self.new ≡ stepped (code_of R.program) R.settings self.old (event.Take w g) }
    {
        let epoch = self.word(g).home_epoch();
        self.words[g as usize] = Word::Running { epoch, actor: w };
        self.hands[w as usize] = Some(Hold {
            g,
            how: How::Take,
            copy: None,
        });
    }

    // A worker puts g back, which it has taken.
    pub(crate) fn give(&mut self, w: u32, g: u32)
        requires { IsEnabled (code_of R.program) R.settings self.old (event.Give w g) }
        ensures { self.new ≡ stepped (code_of R.program) R.settings self.old (event.Give w g) }
    {
        let it = self.machine.goroutine(g);
        self.words[g as usize] = Word::Home { epoch: it.epoch };
        self.hands[w as usize] = None;
    }

    // A worker puts the body of g into its cell.
    pub(crate) fn bear(
        &mut self,
        alloc: Global,
        program: &Program,
        w: u32,
        g: u32,
    ) -> Result<(), Memory>
        requires program { program.now ≡ R.program }
        requires enabled { IsEnabled (code_of R.program) R.settings self.old (event.Bear w g) }
        ensures ok { OnOk result (self.new ≡ stepped (code_of R.program) R.settings self.old (event.Bear w g)) }
        ensures err { OnErr result (self.new ≡ self.old) }
    {
        // (it has no effect, but tells that the program lies in its limits and has a main)
        let _ = program.parts();
        let newborn = self.machine.goroutine(g);
        let mut body = Body::vacant(alloc, program)?;
        body.born(program, newborn.start, newborn.set);
        self.words[g as usize] = Word::Home {
            epoch: newborn.epoch,
        };
        self.bodies[g as usize] = Some(body);
        Ok(())
    }

    // A worker puts away the body of g, which is dead. It stays where it is, and nobody comes to it any more.
    pub(crate) fn bury(&mut self, w: u32, g: u32)
        requires { IsEnabled (code_of R.program) R.settings self.old (event.Bury w g) }
        ensures { self.new ≡ stepped (code_of R.program) R.settings self.old (event.Bury w g) }
    {
        self.words[g as usize] = Word::Dead;
        self.hands[w as usize] = None;
    }
}
