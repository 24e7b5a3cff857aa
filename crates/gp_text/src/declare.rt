//! The declarations of channels, mutexes and label sets, made of the lines that declare them.
ghost use Rattle.std.specs.Prelude.{◌≡◌, ◌<◌, ◌+◌, ◌^◌, ℕ, Option, length, map, true, All, IfOk};
ghost use Rattle.std.specs.Str.{IsUtf8};
ghost use Rattle.gp_labels.specs.LabelSet.{canonical_of};
ghost use Rattle.gp_text.specs.declared.said.Said.{Said};
ghost use Rattle.gp_text.specs.Line.{is_name, pair_of};
ghost use Rattle.gp_text.specs.Reading.{channel_of, mutex_of, label_set_of, each_at};
ghost use Rattle.gp_text.specs.CanBuild.{CanBuild};

use crate::marks::cut_pair;
use crate::said::{Declared, Name, Said};
use crate::words::Words;
use gp_isa::{ChannelDecl, LabelSet, Memory, MutexDecl, Pair, Pairs, Sequence, Text};
use gp_labels::canonical;
use std::alloc::Global;
use std::str;

// A copy of bytes that are text.
fn copied(alloc: Global, bytes: &[u8]) -> Result<Text, Memory>
    requires { IsUtf8 bytes.now }
    ensures { IfOk result (λ text. text ≡ bytes.now) }
{
    Text::from_str(alloc, str::from_utf8(bytes).unwrap())
}

/// A copy of the name.
pub(crate) fn text(alloc: Global, name: &Name) -> Result<Text, Memory>
    requires { is_name name.now ≡ true }
    ensures { IfOk result (λ text. text ≡ name.now) }
{
    copied(alloc, name.bytes())
}

// The label that a word writes.
fn pair(alloc: Global, word: &[u8]) -> Result<Pair, Memory>
    requires { IsUtf8 word.now }
    ensures { IfOk result (λ pair. pair ≡ pair_of word.now) }
{
    let (key, value) = cut_pair(word);
    Ok(Pair {
        key: copied(alloc, key)?,
        value: copied(alloc, value)?,
    })
}

// The label set that words write.
fn pairs(alloc: Global, words: Words) -> Result<Pairs, Memory>
    requires { All IsUtf8 words }
    ensures { IfOk result (λ pairs. pairs ≡ canonical_of (map pair_of words.entry)) }
{
    let mut words = words;
    let mut pairs = Pairs::new(alloc);
    while let Some(word) = words.next() {
        pairs.push(pair(alloc, word)?)?;
    }
    canonical(alloc, pairs)
}

/// What a line outside functions may declare.
pub(crate) trait Declaration: Drop {
    ghost declared_by: { ℕ → Said → Option Self };

    /// The declaration of a line, where the line is one of this kind.
    fn of_line(alloc: Global, line: u32, said: &Said) -> Result<Option<Self>, Memory>
    where
        Self: Sized,
        requires { CanBuild said.now }
        ensures { IfOk result (λ declaration. declaration ≡ declared_by line said.now) };
}

impl Declaration for ChannelDecl {
    ghost declared_by = { channel_of };

    fn of_line(alloc: Global, line: u32, said: &Said) -> Result<Option<ChannelDecl>, Memory> {
        match said {
            Said::Declares { name, declared } => match declared {
                Declared::Channel { capacity } => Ok(Some(ChannelDecl {
                    name: text(alloc, name)?,
                    line,
                    capacity: *capacity as u32,
                })),
                Declared::Function | Declared::Mutex | Declared::LabelSet { .. } => Ok(None),
            },
            Said::NotUtf8
            | Said::Nonsense
            | Said::Silent
            | Said::Loop { .. }
            | Said::Work { .. }
            | Said::Use { .. }
            | Said::Close => Ok(None),
        }
    }
}

impl Declaration for MutexDecl {
    ghost declared_by = { mutex_of };

    fn of_line(alloc: Global, line: u32, said: &Said) -> Result<Option<MutexDecl>, Memory> {
        match said {
            Said::Declares { name, declared } => match declared {
                Declared::Mutex => Ok(Some(MutexDecl {
                    name: text(alloc, name)?,
                    line,
                })),
                Declared::Function | Declared::Channel { .. } | Declared::LabelSet { .. } => Ok(
                    None,
                ),
            },
            Said::NotUtf8
            | Said::Nonsense
            | Said::Silent
            | Said::Loop { .. }
            | Said::Work { .. }
            | Said::Use { .. }
            | Said::Close => Ok(None),
        }
    }
}

impl Declaration for LabelSet {
    ghost declared_by = { label_set_of };

    fn of_line(alloc: Global, line: u32, said: &Said) -> Result<Option<LabelSet>, Memory> {
        match said {
            Said::Declares { name, declared } => match declared {
                Declared::LabelSet { pairs: words } => Ok(Some(LabelSet {
                    name: text(alloc, name)?,
                    line,
                    pairs: pairs(alloc, words.again())?,
                })),
                Declared::Function | Declared::Channel { .. } | Declared::Mutex => Ok(None),
            },
            Said::NotUtf8
            | Said::Nonsense
            | Said::Silent
            | Said::Loop { .. }
            | Said::Work { .. }
            | Said::Use { .. }
            | Said::Close => Ok(None),
        }
    }
}

/// What the lines of a file declare of one kind.
pub(crate) fn each<D: Declaration>(alloc: Global, said: &[Said]) -> Result<Sequence<D>, Memory>
    requires short { length said.now < 2 ^ 32 }
    requires can { All CanBuild said.now }
    ensures { IfOk result (λ all. all ≡ each_at D.declared_by 1 said.now) }
{
    let mut all = Sequence::new(alloc);
    for (at, line) in said.iter().enumerate() {
        if let Some(declaration) = D::of_line(alloc, at as u32 + 1, line)? {
            all.push(declaration)?;
        }
    }
    Ok(all)
}
