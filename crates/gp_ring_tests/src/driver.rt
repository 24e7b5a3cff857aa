//! A ring with what a caller of it has to know: how many offers were made, how many words they have, and whether a look was made.
ghost use Rattle.std.specs.Prelude.{◌≡◌};
ghost use Rattle.gp_ring_tests.specs.Driving.{Drives};

use crate::passed::Passed;
use gp_cases::{Page, Unanswered};
use gp_ring::{Ring, Wrote, law_ring};
use std::alloc::Global;
use std::marker::Model;

/// A ring that is driven by calls.
#[derive(Drop)]
pub struct Driver {
    ring: Ring,
    offers: usize,
    words: usize,
    looked: bool,
}

impl Model for Driver {
    ghost use Rattle.gp_ring.specs.PlainRing.{PlainRing};
    ghost use Rattle.gp_ring_tests.specs.Driving.{Drives};

    ghost Value = { PlainRing };

    ghost view = { λ x. x.ring };

    ghost invariant = { λ x. Drives x.ring x.offers x.words x.looked };
}

impl Driver {
    /// A new ring, if its sizes may be given.
    pub fn new(alloc: Global, hdrsize: u64, words: u64, tags: u64) -> Result<Driver, Unanswered> {
        if hdrsize == 0 || hdrsize > 64 || words >= 1 << 28 || tags == 0 || tags >= 1 << 28 {
            return Err(Unanswered::Form);
        }
        law_ring();
        Ok(Driver {
            ring: Ring::new(alloc, hdrsize as u32, words as u32, tags as u32)?,
            offers: 0,
            words: 0,
            looked: false,
        })
    }

    /// A write of a header and a stack, which stand behind each other, if it may be made. The first header word isn't 0.
    pub fn write(&mut self, tag: u64, time: u64, rest: &[u64]) -> Option<Wrote> {
        let hdrsize = self.ring.hdrsize() as usize;
        if self.ring.is_closed() || rest.len() < hdrsize || rest.len() > 1 << 20 {
            return None;
        }
        let (header, stack) = rest.split_at(hdrsize);
        if *header.first()? == 0 {
            return None;
        }
        let need = 2 + hdrsize + stack.len();
        let most = need.max(3 + hdrsize);
        if 2 * need > self.ring.len() as usize || self.offers >= 1 << 20 || self.words >= 1 << 29 {
            return None;
        }
        self.offers += 1;
        self.words += most;
        Some(self.ring.write(tag, time, header, stack))
    }

    /// The close.
    pub fn close(&mut self) {
        self.ring.close();
    }

    /// A look.
    pub fn look(&mut self) {
        self.ring.look();
        self.looked = true;
    }

    /// An act, if a look was made before.
    pub fn act(&mut self, page: &mut Page) -> Result<(), Unanswered> {
        if !self.looked {
            return Err(Unanswered::Form);
        }
        self.looked = false;
        let found = self.ring.act();
        page.debug("\n", &found)?;
        Ok(())
    }

    /// A look and an act. Tells what was found, as `act` does.
    pub fn read(&mut self, page: &mut Page) -> Result<(), Unanswered> {
        self.looked = false;
        let found = self.ring.read();
        page.debug("\n", &found)?;
        Ok(())
    }

    /// A look and an act. Gives what came in order behind this, with what was found, if that comes next.
    pub fn pass(&mut self, passed: Passed) -> Option<Passed> {
        self.looked = false;
        passed.with_taken(self.ring.read())
    }

    /// Tells `r` and `w`.
    pub fn counts(&self, page: &mut Page) -> Result<(), Unanswered> {
        page.number("\n", self.ring.read_word())?;
        page.number(" ", self.ring.written_word())?;
        Ok(())
    }

    /// Tells all that is kept.
    pub fn whole(&self, page: &mut Page) -> Result<(), Unanswered> {
        page.debug("\n", &self.ring)?;
        Ok(())
    }
}
