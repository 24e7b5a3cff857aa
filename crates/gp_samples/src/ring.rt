ghost use Rattle.std.specs.Prelude.{◌≡◌, ◌≤◌, IfOk};
ghost use Rattle.gp_isa.specs.Limits as limit;
ghost use Rattle.gp_journal.specs.Settings.{AreInRange};
ghost use Rattle.gp_samples.specs.RunRing.{ring_words, begun_ring};

use gp_isa::{Memory, Program, limits};
use gp_journal::Settings;
use gp_ring::Ring;
use std::alloc::Global;

// How many header words the record of a sample has.
pub(crate) const HEADER_WORDS: u32 = 1;

// The words that the ring of a run is to have.
pub(crate) fn ring_words(program: &Program, settings: &Settings) -> u32
    requires { settings.now.ring ≤ limit.most_ring_words }
    ensures words { result ≡ ring_words program.now settings.now }
    ensures few { result ≤ limit.most_ring_words }
{
    let frames = limits::CPU_FRAMES.min(program.depth());
    settings.ring.max(2 * (2 + HEADER_WORDS + frames))
}

/// The ring of a run as it begins: the rate record was offered. All memory that it ever needs is taken here.
pub fn begun_ring(alloc: Global, program: &Program, settings: &Settings) -> Result<Ring, Memory>
    requires { AreInRange settings.now }
    ensures { IfOk result (λ ring. ring ≡ begun_ring program.now settings.now) }
{
    let words = ring_words(program, settings);
    let mut ring = Ring::new(alloc, HEADER_WORDS, words, settings.tags)?;
    ring.write(0, 0, &[settings.hz as u64], &[]);
    Ok(ring)
}
