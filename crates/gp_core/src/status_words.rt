ghost use Rattle.std.specs.Prelude.{◌≡◌, ◌↔◌, None, replicate, IsTrue, IfOk, OnOk, OnErr};
ghost use Rattle.gp_journal.specs.Settings.{AreInRange};
ghost use Rattle.gp_journal.specs.State.{code_of};
ghost use Rattle.gp_core.specs.CoreState.{first_core};
ghost use Rattle.gp_core.specs.Enabled.{IsEnabled};
ghost use Rattle.gp_core.specs.Stepped.{stepped};

use crate::event::CoreEvent;
use crate::hold::Hold;
use crate::word::Word;
use gp_isa::{Memory, Program};
use gp_machine::{Entry, Machine, Run, Settings};
use gp_stack::{Body, Record};
use std::alloc::Global;
use std::marker::Model;

/// The core of one run: a machine, and beside it a word and a body for each cell, a hand for each actor, and the copies
/// recorded.
///
/// Its value is the state of the definitions. Some list of events, each enabled where it comes, leads to it from the first
/// one, so whatever the laws say holds of it.
#[derive(Drop)]
pub struct Core<R: Run> {
    pub(crate) machine: Machine<R>,
    // by goroutine: the word of its cell, and its body once that was borne
    pub(crate) words: Vec<Word>,
    pub(crate) bodies: Vec<Option<Body>>,
    // by actor
    pub(crate) hands: Vec<Option<Hold>>,
    pub(crate) copies: Vec<(u32, Record)>,
    // options: how many workers there are, and the room of a profile
    pub(crate) workers: u32,
    pub(crate) room: u32,
}

impl<R: Run> Model for Core<R> {
    ghost use Rattle.gp_core.specs.CoreState.{CoreState};
    ghost use Rattle.gp_core.specs.kept.Core.{core_of, IsReachedBy};

    ghost Value = { CoreState };

    ghost view = { λ c. core_of c.machine c.words.items c.bodies.items c.hands.items c.copies.items };

    ghost invariant = { λ c. IsReachedBy R.program R.settings c.workers c.room c.bodies.items
        (core_of c.machine c.words.items c.bodies.items c.hands.items c.copies.items) };
}

// So many places with nothing in them.
fn vacant<T: Drop>(alloc: Global, count: u32) -> Result<Vec<Option<T>>, Memory>
    ensures { IfOk result (λ places. places.items ≡ replicate count None) }
{
    let mut places = Vec::new(alloc);
    for _ in 0..count {
        places.push(None)?;
    }
    Ok(places)
}

// So many words of cells with no body in them.
fn dead_words(alloc: Global, count: u32) -> Result<Vec<Word>, Memory>
    ensures { IfOk result (λ words. words.items ≡ replicate count Word.Dead) }
{
    let mut words = Vec::new(alloc);
    for _ in 0..count {
        words.push(Word::Dead)?;
    }
    Ok(words)
}

impl<R: Run> Core<R> {
    /// The core of a run as it begins: no event was made.
    pub fn first(alloc: Global, program: &Program, settings: &Settings) -> Result<Core<R>, Memory>
        requires program { program.now ≡ R.program }
        requires settings { settings.now ≡ R.settings }
        requires range { AreInRange settings.now }
        ensures { IfOk result (λ core. core ≡ first_core R.settings) }
    {
        Ok(Core {
            machine: Machine::new(alloc, program, settings)?,
            words: dead_words(alloc, settings.cells)?,
            bodies: vacant(alloc, settings.cells)?,
            hands: vacant(alloc, settings.workers + 1)?,
            copies: Vec::new(alloc),
            workers: settings.workers,
            room: settings.room,
        })
    }

    /// The entries that its events have added.
    pub fn journal(&self) -> &[Entry]
        ensures { result.now ≡ self.now.journal }
    {
        self.machine.journal()
    }

    /// The copies that were recorded, each with its profile's epoch.
    pub fn copies(&self) -> &[(u32, Record)]
        ensures { result.now ≡ self.now.copies }
    {
        self.copies.as_slice()
    }

    /// Whether an event is enabled. What it asks of bodies the machine tells, so it doesn't look at the program.
    pub fn enabled(&self, _program: &Program, event: &CoreEvent) -> bool
        ensures { IsTrue result ↔ IsEnabled (code_of R.program) R.settings self.now event.now }
    {
        self.admits(*event)
    }

    /// Makes an event, which has to be enabled. `Copy` and `Bear` take memory, and those that record a copy may; where there is
    /// none all is as before.
    pub fn step(&mut self, alloc: Global, program: &Program, event: CoreEvent) -> Result<(), Memory>
        requires program { program.now ≡ R.program }
        requires enabled { IsEnabled (code_of R.program) R.settings self.old event }
        ensures ok { OnOk result (self.new ≡ stepped (code_of R.program) R.settings self.old event) }
        ensures err { OnErr result (self.new ≡ self.old) }
    {
        match event {
            CoreEvent::Claim { a, g } => self.claim(a, g),
            CoreEvent::Copy { a, g } => self.copy(alloc, program, a, g)?,
            CoreEvent::Satisfy { a, g } => self.satisfy(a, g),
            CoreEvent::Take { w, g } => self.take(w, g),
            CoreEvent::Begin { w, g } => self.begin(w, g)?,
            CoreEvent::Commit { a, g } => self.commit(program, a, g)?,
            CoreEvent::Give { w, g } => self.give(w, g),
            CoreEvent::Bear { w, g } => self.bear(alloc, program, w, g)?,
            CoreEvent::Bury { w, g } => self.bury(w, g),
            CoreEvent::OpenAll => self.open_all(),
            CoreEvent::CloseAll => self.close_all(),
        }
        Ok(())
    }
}
