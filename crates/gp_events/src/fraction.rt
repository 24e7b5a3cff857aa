ghost use Rattle.std.specs.Prelude.{◌≡◌, ◌<◌};
ghost use Rattle.gp_events.specs.Fraction.{choice_after, keeps_next, behind_next};

use rand_core::utils::NextWord;
use rand_pcg::Pcg32;
use std::marker::Model;

// The stream of the generator.
const STREAM: u64 = 54;

/// Which events are kept, where one in so many is to be, on average: the words of a generator tell, one for each event.
#[derive(Debug, Drop)]
pub struct Fraction {
    f: u32,
    // of the next event
    word: u32,
    // behind that word
    generator: Pcg32,
}

impl Model for Fraction {
    ghost use Rattle.gp_events.specs.Fraction.{Choice};

    ghost Value = { Choice };

    ghost view = { λ choice. record { f = choice.f; word = choice.word; behind = choice.generator } };
}

impl Fraction {
    /// The choice of one event in `f`, before the first.
    pub fn new(seed: u64, f: u32) -> Fraction
        ensures { result ≡ choice_after seed f 0 }
    {
        let mut generator = Pcg32::new(seed, STREAM);
        let word = generator.next_word();
        Fraction { f, word, generator }
    }

    /// Whether the next event is kept. It counts as come.
    pub fn keep(&mut self) -> bool
        requires { 0 < self.old.f }
        ensures kept { result ≡ keeps_next self.old }
        ensures behind { self.new ≡ behind_next self.old }
    {
        let kept = self.ahead();
        self.word = self.generator.next_word();
        kept
    }

    /// What the next `keep` will answer.
    pub fn ahead(&self) -> bool
        requires { 0 < self.now.f }
        ensures { result ≡ keeps_next self.now }
    {
        self.word % self.f == 0
    }
}
