ghost use Rattle.std.specs.Prelude.{◌≡◌, ◌<◌, ◌≤◌, false, true, length, replicate, set, IfOk};
ghost use Rattle.gp_isa.specs.Limits.{most_cells};
ghost use Rattle.gp_machine.specs.kept.IdSet.{first_place};

use gp_isa::Memory;
use std::alloc::Global;
use std::marker::Model;

// How many numbers a word keeps. As many words have place for 16,384 numbers, and one more word tells which of them
// aren't 0.
const BITS: u32 = u128::BITS;

/// A set of numbers below a room, which tells its least.
///
/// A call takes constant time, however many numbers are in it, and only `new` takes memory.
#[derive(Debug, Drop)]
pub struct IdSet {
    room: u32,
    // bit i of word w tells whether BITS * w + i is in the set
    words: Vec<u128>,
    // bit w tells whether word w has any bit
    some: u128,
}

impl Model for IdSet {
    ghost use Rattle.std.specs.Prelude.{Bool, List};
    ghost use Rattle.gp_machine.specs.kept.IdSet.{ids_of, IsKept};

    ghost Value = { List Bool };

    ghost view = { λ s. ids_of s.room s.words.items };

    ghost invariant = { λ s. IsKept s.room s.words.items s.some };
}

impl IdSet {
    /// The empty set of numbers below a room. Nothing that is done with it takes memory after.
    pub fn new(alloc: Global, room: u32) -> Result<IdSet, Memory>
        requires { room ≤ most_cells }
        ensures { IfOk result (λ ids. ids ≡ replicate room false) }
    {
        let words = vec![in alloc; 0; room.div_ceil(BITS) as usize]?;
        Ok(IdSet {
            room,
            words,
            some: 0,
        })
    }

    /// Puts a number into the set, if it isn't there.
    pub fn insert(&mut self, id: u32)
        requires { id < length self.old }
        ensures { self.new ≡ set self.old id true }
    {
        let at = id / BITS;
        self.words[at as usize] |= 1 << (id % BITS);
        self.some |= 1 << at;
    }

    /// Takes a number from the set, if it is there.
    pub fn remove(&mut self, id: u32)
        requires { id < length self.old }
        ensures { self.new ≡ set self.old id false }
    {
        let at = id / BITS;
        let word = &mut self.words[at as usize];
        *word &= !(1 << (id % BITS));
        if *word == 0 {
            self.some &= !(1 << at);
        }
    }

    /// The least number in the set, if there is any.
    pub fn least(&self) -> Option<u32>
        ensures { result ≡ first_place self.now }
    {
        if self.some == 0 {
            return None;
        }
        let at = self.some.trailing_zeros();
        Some(at * BITS + self.words[at as usize].trailing_zeros())
    }
}
