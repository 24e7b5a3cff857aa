ghost use Rattle.std.specs.Prelude.{◌≡◌, ◌++◌, string_bytes, OnOk};
ghost use Rattle.std.specs.List.{flat_map};
ghost use Rattle.std.specs.Fmt.{signed_decimal};
ghost use Rattle.gp_report.specs.Dump.{or_dash, kind_text, period_kind, value_text, frame_text, unit_text, label_text};

use crate::escape::push_escaped;
use gp_build::{Kind, MeantFrame, MeantLabel};
use gp_isa::{Memory, Text};
use std::fmt::Write;

/// Appends a text as it is.
pub(crate) fn push_text(out: &mut String, text: &str) -> Result<(), Memory>
    ensures { OnOk result (string_bytes out.new ≡ string_bytes out.old ++ text.now) }
{
    out.push_str(text)?;
    Ok(())
}

/// Appends a number in decimal digits.
pub(crate) fn push_number(out: &mut String, number: i64) -> Result<(), Memory>
    ensures { OnOk result (string_bytes out.new ≡ string_bytes out.old ++ signed_decimal number) }
{
    write!(out, "{number}")?;
    Ok(())
}

fn push_or_dash(out: &mut String, text: &Text) -> Result<(), Memory>
    ensures { OnOk result (string_bytes out.new ≡ string_bytes out.old ++ or_dash text.now) }
{
    if text.len() == 0 {
        push_text(out, "-")
    } else {
        push_escaped(out, text.as_str())
    }
}

pub(crate) fn push_kind(out: &mut String, kind: &Kind) -> Result<(), Memory>
    ensures { OnOk result (string_bytes out.new ≡ string_bytes out.old ++ kind_text kind.now) }
{
    push_or_dash(out, &kind.name)?;
    push_text(out, " ")?;
    push_or_dash(out, &kind.unit)
}

pub(crate) fn push_period_kind(out: &mut String, kind: &Option<Kind>) -> Result<(), Memory>
    ensures { OnOk result (string_bytes out.new ≡ string_bytes out.old ++ period_kind kind.now) }
{
    match kind {
        Some(kind) => push_kind(out, kind),
        None => push_text(out, "- -"),
    }
}

pub(crate) fn push_values(out: &mut String, values: &[i64]) -> Result<(), Memory>
    ensures { OnOk result (string_bytes out.new ≡ string_bytes out.old ++ flat_map value_text values.now) }
{
    for value in values {
        push_text(out, " ")?;
        push_number(out, *value)?;
    }
    Ok(())
}

fn push_frame(out: &mut String, frame: &MeantFrame) -> Result<(), Memory>
    ensures { OnOk result (string_bytes out.new ≡ string_bytes out.old ++ frame_text frame.now) }
{
    push_text(out, " ")?;
    push_escaped(out, frame.name.as_str())?;
    push_text(out, "@")?;
    push_escaped(out, frame.file.as_str())?;
    push_text(out, ":")?;
    push_number(out, frame.line)
}

pub(crate) fn push_frames(out: &mut String, frames: &[MeantFrame]) -> Result<(), Memory>
    ensures { OnOk result (string_bytes out.new ≡ string_bytes out.old ++ flat_map frame_text frames.now) }
{
    for frame in frames {
        push_frame(out, frame)?;
    }
    Ok(())
}

fn push_unit(out: &mut String, unit: &Text) -> Result<(), Memory>
    ensures { OnOk result (string_bytes out.new ≡ string_bytes out.old ++ unit_text unit.now) }
{
    if unit.len() == 0 {
        return Ok(());
    }
    push_text(out, ":")?;
    push_escaped(out, unit.as_str())
}

fn push_label(out: &mut String, label: &MeantLabel) -> Result<(), Memory>
    ensures { OnOk result (string_bytes out.new ≡ string_bytes out.old ++ label_text label.now) }
{
    push_text(out, " ")?;
    match label {
        MeantLabel::Said { key, value } => {
            push_escaped(out, key.as_str())?;
            push_text(out, "=")?;
            push_escaped(out, value.as_str())
        }
        MeantLabel::Number { key, number, unit } => {
            push_escaped(out, key.as_str())?;
            push_text(out, "=#")?;
            push_number(out, *number)?;
            push_unit(out, unit)
        }
    }
}

pub(crate) fn push_labels(out: &mut String, labels: &[MeantLabel]) -> Result<(), Memory>
    ensures { OnOk result (string_bytes out.new ≡ string_bytes out.old ++ flat_map label_text labels.now) }
{
    for label in labels {
        push_label(out, label)?;
    }
    Ok(())
}
