//! Calls of the actors of a world, one after another.
ghost use Rattle.std.specs.Prelude.{◌≡◌};
ghost use Rattle.gp_journal.specs.Settings.{AreInRange};

use crate::calls::call;
use crate::telling;
use gp_cases::{Page, Unanswered, number_32, word};
use gp_cpu::Collector;
use gp_isa::Program;
use gp_machine::{Run, Settings};
use gp_ring::Reader;
use gp_samples::take;
use gp_tally::Share;
use gp_world::World;
use std::alloc::Global;
use std::marker::Model;

/// A world, the reader of its ring, the shares of its actors, and the records that were read.
#[derive(Drop)]
pub struct Play<R: Run> {
    world: World<R>,
    reader: Reader,
    shares: Vec<Share>,
    cpu: Collector,
}

impl<R: Run> Model for Play<R> {
    ghost use Rattle.gp_world.specs.Scene.{Scene};
    ghost use Rattle.gp_world_tests.specs.Playing.{IsPlay};

    ghost Value = { Scene };

    ghost view = { λ p. p.world };

    ghost invariant = { λ p. IsPlay p.world p.reader p.shares.items };
}

impl<R: Run> Play<R> {
    /// A world as it begins.
    pub fn new(alloc: Global, program: &Program, settings: &Settings) -> Result<Play<R>, Unanswered>
        requires program { program.now ≡ R.program }
        requires settings { settings.now ≡ R.settings }
        requires range { AreInRange settings.now }
    {
        let cpu = Collector::new(alloc)?;
        let made = World::<R>::new(alloc, program, settings)?;
        Ok(Play {
            world: made.world,
            reader: made.reader,
            shares: made.shares,
            cpu,
        })
    }

    fn call(
        &mut self,
        alloc: Global,
        program: &Program,
        settings: &Settings,
        actor: &str,
        name: &str,
        page: &mut Page,
    ) -> Result<(), Unanswered>
        requires program { program.now ≡ R.program }
        requires settings { settings.now ≡ R.settings }
    {
        let at = number_32(actor)? as usize;
        if at >= self.shares.len() {
            return Err(Unanswered::Form);
        }
        let Play {
            world,
            reader,
            shares,
            ..
        } = self;
        let answer = call(
            alloc,
            program,
            settings,
            world,
            reader,
            &mut shares[at],
            name,
        )?;
        telling::tell(page, &answer)?;
        Ok(())
    }

    fn read(&mut self, alloc: Global, page: &mut Page) -> Result<(), Unanswered> {
        let before = self.cpu.records().len();
        let took = take(alloc, &mut self.reader, &mut self.cpu)?;
        telling::tell_read(page, took, self.cpu.records(), before)?;
        Ok(())
    }

    /// Plays a row: who makes which call, or what the world tells.
    pub fn play(
        &mut self,
        alloc: Global,
        program: &Program,
        settings: &Settings,
        row: &str,
        page: &mut Page,
    ) -> Result<(), Unanswered>
        requires program { program.now ≡ R.program }
        requires settings { settings.now ≡ R.settings }
    {
        let (first, rest) = word(row);
        match first {
            "journal" => telling::tell_journal(page, &self.world)?,
            "state" => telling::tell_state(page, &self.world)?,
            "records" => telling::tell_records(page, &self.world, number_32(rest)?)?,
            "sums" => telling::tell_sums(alloc, program, page, &self.world)?,
            "read" => self.read(alloc, page)?,
            "fail" => self.world.fail(),
            _ => self.call(alloc, program, settings, first, rest, page)?,
        }
        Ok(())
    }
}
