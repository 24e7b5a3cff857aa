ghost use Rattle.std.specs.Prelude.{◌≡◌, [], IfOk};
ghost use Rattle.gp_journal.specs.Settings.{AreInRange};
ghost use Rattle.gp_samples.specs.RunEnds.{AreOffers, IsBegunReader};

use crate::ring::{HEADER_WORDS, ring_words};
use gp_isa::{Memory, Program};
use gp_journal::Settings;
use gp_ring::{Reader, Writer, new};
use std::alloc::Global;

/// The two ends of the ring of a run as it begins, for two threads: the rate record was offered. All memory that they ever need
/// is taken here.
pub fn begun_ends(
    alloc: Global,
    program: &Program,
    settings: &Settings,
) -> Result<(Writer, Reader), Memory>
    requires { AreInRange settings.now }
    ensures writer { IfOk result (λ ends. AreOffers program.now settings.now [] ends.0.ring ends.0.offers) }
    ensures reader { IfOk result (λ ends. IsBegunReader program.now settings.now ends.1) }
    ensures ring { IfOk result (λ ends. ends.1.ring ≡ ends.0.ring) }
{
    let words = ring_words(program, settings);
    let (mut writer, reader) = new(alloc, HEADER_WORDS, words, settings.tags)?;
    writer.write(0, 0, &[settings.hz as u64], &[]);
    Ok((writer, reader))
}
