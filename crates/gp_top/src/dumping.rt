ghost use Rattle.std.specs.Prelude.{◌≡◌, IfOk, IfErr, OnOk, OnErr};
ghost use Rattle.gp_top.specs.Asked.{IsReadTo, profile_bytes};
ghost use Rattle.gp_top.specs.kept.Steps.{IsDump, ProfileStops};

use crate::finish::tell;
use crate::load::load_profile;
use crate::status::DONE;
use crate::stop::Stop;
use gp_build::meaning;
use gp_io::{Sink, Source};
use gp_report::dump;
use std::alloc::Global;

/// Writes the text of what the profile means that the source holds. Answers the exit status.
pub(crate) fn dumped<S: Source, O: Sink>(
    alloc: Global,
    source: &mut S,
    out: &mut O,
) -> Result<u8, Stop>
    ensures dump { IfOk result (IsDump (S.left source.old)
        (O.written out.old, O.faults out.old) (O.written out.new, O.faults out.new)) }
    ensures whole { OnOk result (IsReadTo profile_bytes (S.left source.old) (S.left source.new)) }
    ensures read_well { OnOk result (S.faults source.new ≡ S.faults source.old) }
    ensures nothing_written { OnErr result (out.new ≡ out.old) }
    ensures stopped { IfErr result (ProfileStops S.left S.faults source.old source.new) }
{
    let profile = load_profile(alloc, source)?;
    let meant = meaning(alloc, &profile)?;
    let text = dump(alloc, &meant)?;
    Ok(tell(text.as_bytes(), DONE, out))
}
