ghost use Rattle.std.specs.Prelude.{◌≡◌, ◌++◌, string_bytes, OnOk, IfOk};
ghost use Rattle.std.specs.List.{flat_map};
ghost use Rattle.gp_report.specs.Dump.{type_line, period_line, duration_line, sample_line, dump_text};

use crate::pieces::{
    push_frames, push_kind, push_labels, push_number, push_period_kind, push_text, push_values,
};
use gp_build::{Kind, Meaning, MeantSample};
use gp_isa::{Memory, Text};
use std::alloc::Global;

fn push_type(out: &mut String, kind: &Kind) -> Result<(), Memory>
    ensures { OnOk result (string_bytes out.new ≡ string_bytes out.old ++ type_line kind.now) }
{
    push_text(out, "type ")?;
    push_kind(out, kind)?;
    push_text(out, "\n")
}

fn push_types(out: &mut String, types: &[Kind]) -> Result<(), Memory>
    ensures { OnOk result (string_bytes out.new ≡ string_bytes out.old ++ flat_map type_line types.now) }
{
    for kind in types {
        push_type(out, kind)?;
    }
    Ok(())
}

fn push_period(out: &mut String, kind: &Option<Kind>, period: i64) -> Result<(), Memory>
    ensures { OnOk result (string_bytes out.new ≡ string_bytes out.old ++ period_line kind.now period) }
{
    push_text(out, "period ")?;
    push_period_kind(out, kind)?;
    push_text(out, " ")?;
    push_number(out, period)?;
    push_text(out, "\n")
}

fn push_duration(out: &mut String, duration: i64) -> Result<(), Memory>
    ensures { OnOk result (string_bytes out.new ≡ string_bytes out.old ++ duration_line duration) }
{
    push_text(out, "duration ")?;
    push_number(out, duration)?;
    push_text(out, "\n")
}

#[tactic(auto, unfolding(crate::specs::Dump::sample_line))]
fn push_sample(out: &mut String, sample: &MeantSample) -> Result<(), Memory>
    ensures { OnOk result (string_bytes out.new ≡ string_bytes out.old ++ sample_line sample.now) }
{
    push_text(out, "sample")?;
    push_values(out, sample.values.as_slice())?;
    push_text(out, " |")?;
    push_frames(out, sample.frames.as_slice())?;
    push_text(out, " |")?;
    push_labels(out, sample.labels.as_slice())?;
    push_text(out, "\n")
}

fn push_samples(out: &mut String, samples: &[MeantSample]) -> Result<(), Memory>
    ensures { OnOk result (string_bytes out.new ≡ string_bytes out.old ++ flat_map sample_line samples.now) }
{
    for sample in samples {
        push_sample(out, sample)?;
    }
    Ok(())
}

/// The text of a profile's meaning. The time grows with its length.
#[tactic(auto, unfolding(crate::specs::Dump::dump_text))]
pub fn dump(alloc: Global, meaning: &Meaning) -> Result<Text, Memory>
    ensures { IfOk result (λ text. text ≡ dump_text meaning.now) }
{
    let mut out = String::new(alloc);
    push_types(&mut out, meaning.types.as_slice())?;
    push_period(&mut out, &meaning.period_type, meaning.period)?;
    push_duration(&mut out, meaning.duration)?;
    push_samples(&mut out, meaning.samples.as_slice())?;
    Ok(Text::from_string(out))
}
