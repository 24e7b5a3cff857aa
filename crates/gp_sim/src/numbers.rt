ghost use Rattle.std.specs.Prelude.{◌≡◌, ◌<◌, ◌≤◌, ◌+◌, ◌-◌, ◌^◌, length};
ghost use Rattle.rand_pcg.specs.Lcg.{advance};
ghost use Rattle.rand_pcg.specs.Pcg.{multiplier_64};
ghost use Rattle.gp_sim.specs.Choice.{seeded, number};
ghost use Rattle.gp_sim.specs.kept.Numbers.{drawn_of};

use gp_machine::{Entry, Run, Settings};
use rand_core::utils::NextWord;
use rand_pcg::Pcg32;
use std::marker::{Model, PhantomData};

/// What an actor does in its turn.
#[derive(Clone, Copy)]
pub enum Act {
    /// A worker or the profiler makes an entry.
    Make { entry: Entry },
    /// The reader reads the ring of samples.
    Read,
}

/// A turn: what is done in it, and how many numbers were taken once it is done.
#[derive(Clone, Copy)]
pub struct Turn {
    pub act: Act,
    pub taken: usize,
}

/// Which of those that can act does, by its place among them, and how many numbers were taken once its turn is done.
#[derive(Clone, Copy)]
pub(crate) struct Draw {
    pub(crate) place: u32,
    pub(crate) taken: usize,
}

/// The numbers by which a run's turns are chosen: its picks, and then the words of the generator at its seed, on
/// stream 1. The value is how many were taken. The next one is at hand, so that a turn which can't be made takes none.
#[derive(Drop)]
pub(crate) struct Numbers<R: Run> {
    taken: usize,
    next: u32,
    // behind the next number
    generator: Pcg32,
    of: PhantomData<R>,
}

impl<R: Run> Model for Numbers<R> {
    ghost use Rattle.std.specs.Prelude.{ℕ};
    ghost use Rattle.gp_sim.specs.kept.Numbers.{AreAtHand};

    ghost Value = { ℕ };

    ghost view = { λ n. n.taken };

    ghost invariant = { λ n. AreAtHand R.settings n.taken n.next n.generator };
}

// Number k of a run, counted from 0: a pick where there is one, and else the generator's next word.
fn drawn(settings: &Settings, k: usize, generator: &mut Pcg32) -> u32
    requires { generator.old ≡ advance 64 multiplier_64 (k - length settings.now.picks) (seeded settings.now) }
    ensures number { result ≡ number settings.now k }
    ensures behind { generator.new ≡ advance 64 multiplier_64 (k + 1 - length settings.now.picks) (seeded settings.now) }
{
    match settings.picks.get(k).copied() {
        Some(pick) => pick,
        None => generator.next_word(),
    }
}

impl<R: Run> Numbers<R> {
    /// The numbers of a run, none of which was taken.
    pub fn new(settings: &Settings) -> Numbers<R>
        requires { settings.now ≡ R.settings }
        ensures { result ≡ 0 }
    {
        let mut generator = Pcg32::new(settings.seed, 1);
        let next = drawn(settings, 0, &mut generator);
        Numbers {
            taken: 0,
            next,
            generator,
            of: PhantomData,
        }
    }

    /// The place of one of so many, counted from 0: where there is but one, that one's, and no number is taken; else the
    /// next number modulo how many there are. Nothing is taken yet.
    pub fn choose(&self, among: u32) -> Option<Draw>
        requires { self.now + 1 < 2 ^ 64 }
        ensures { result ≡ drawn_of R.settings self.now among }
    {
        if among == 0 {
            return None;
        }
        if among == 1 {
            return Some(Draw {
                place: 0,
                taken: self.taken,
            });
        }
        Some(Draw {
            place: self.next % among,
            taken: self.taken + 1,
        })
    }

    /// So many are taken now: as many as before, or one more.
    pub fn take(&mut self, settings: &Settings, taken: usize)
        requires settings { settings.now ≡ R.settings }
        requires before { self.old ≤ taken }
        requires one { taken ≤ self.old + 1 }
        ensures { self.new ≡ taken }
    {
        if taken > self.taken {
            self.next = drawn(settings, taken, &mut self.generator);
            self.taken = taken;
        }
    }
}
