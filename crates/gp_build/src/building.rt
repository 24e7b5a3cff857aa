ghost use Rattle.std.specs.Prelude.{◌≡◌, IfOk};
ghost use Rattle.gp_wire.specs.RoundTrip.{Fits, IsValid};
ghost use Rattle.gp_build.specs.Message.{profile_of, profile_with};

use crate::lines::Lines;
use crate::messages;
use crate::sample::{Header, StackSample};
use crate::tables::Tables;
use gp_isa::{Memory, Parts, Program};
use gp_wire::Profile;
use std::alloc::Global;

// The profile with these tables.
fn from_tables<'a>(
    alloc: Global,
    parts: &'a Parts,
    file: &'a str,
    header: &'a Header,
    samples: &'a [StackSample],
    all: &Tables<'a>,
    lines: &Lines,
) -> Result<Profile, Memory>
    ensures profile { let t = all.now in
        IfOk result (λ profile. profile ≡ profile_with parts.now file.now header.now samples.now
        t.strings.keys t.locations.keys t.functions.keys) }
    ensures fits { IfOk result (λ profile. Fits profile) }
{
    Ok(Profile {
        sample_types: messages::kinds(alloc, &all.strings, header.types.as_slice())?,
        samples: messages::samples(alloc, parts, &all.strings, &all.locations, lines, samples)?,
        locations: messages::locations(alloc, &all.locations, &all.functions)?,
        functions: messages::functions(alloc, parts, file, &all.strings, &all.functions)?,
        strings: messages::strings(alloc, &all.strings)?,
        period_type: messages::period_type(&all.strings, &header.period_type),
        period: header.period,
        duration: header.duration,
    })
}

/// The profile of samples, which stand in it in their order, as Go's `runtime/pprof` makes it. `file` is the name of the
/// program's file, which all its functions have as filename. A function that the program doesn't have shows as one
/// without a name at line 0, and a label set that it doesn't have as the empty one. The profile is valid, so that what is
/// written of it is read again.
pub fn profile<'a>(
    alloc: Global,
    program: &'a Program,
    file: &'a str,
    header: &'a Header,
    samples: &'a [StackSample],
) -> Result<Profile, Memory>
    ensures profile { IfOk result (λ profile. profile ≡ profile_of program.now file.now header.now samples.now) }
    ensures valid { IfOk result (λ profile. IsValid profile) }
{
    let parts = program.parts();
    let mut lines = Lines::new(alloc, parts)?;
    let all = Tables::new(alloc, parts, file, header, samples, &mut lines)?;
    from_tables(alloc, parts, file, header, samples, &all, &lines)
}
