ghost use Rattle.std.specs.Prelude.{◌≡◌, ◌<◌, ◌≤◌, ◌^◌, [], length, None, OnOk, IfOk, IfErr};
ghost use Rattle.gp_text.specs.Line.{deep_after};
ghost use Rattle.gp_text.specs.Fault.{known_of, pair_fits, pairs_fit, fits, is_count, declaration_fault, fault, first_fault};
ghost use Rattle.gp_text.specs.Spaces.{kept, with_declared};
ghost use Rattle.gp_text.specs.declared.space.Space.{Space};
ghost use Rattle.gp_text.specs.Refused.{IsRefusal};

use crate::cause::Cause;
use crate::error::TextError;
use crate::lines::deep_after;
use crate::marks::cut_pair;
use crate::said::{Declared, Said, kind};
use crate::spaces::Spaces;
use crate::words::Words;
use gp_isa::{Memory, limits};
use std::alloc::Global;

// What the lines before a line said.
#[derive(Drop)]
struct Before<'a> {
    // How many bodies are open: that of a function, and one for each loop.
    deep: usize,
    spaces: Spaces<'a>,
}

fn pair_fits(word: &[u8]) -> bool
    ensures { result ≡ pair_fits word.now }
{
    let (key, value) = cut_pair(word);
    key.len() <= limits::NAME_BYTES && value.len() <= limits::NAME_BYTES
}

// Whether there are so many pairs at most, and each fits.
fn pairs_fit(pairs: Words, most: usize) -> bool
    ensures { result ≡ pairs_fit most pairs.entry }
{
    let mut pairs = pairs;
    let mut count = 0;
    while let Some(word) = pairs.next() {
        if count == most || !pair_fits(word) {
            return false;
        }
        count += 1;
    }
    true
}

fn fits(declared: &Declared) -> bool
    ensures { result ≡ fits declared.now }
{
    match declared {
        Declared::Channel { capacity } => *capacity <= limits::CAPACITY as u128,
        Declared::LabelSet { pairs } => pairs_fit(pairs.again(), limits::PAIRS),
        Declared::Function | Declared::Mutex => true,
    }
}

// The fault of a line that declares a name.
#[tactic(auto, unfolding(crate::specs::Fault::declaration_fault))]
fn declaration_fault(before: &Before, name: &[u8], declared: &Declared) -> Option<Cause>
    ensures { result ≡ declaration_fault (kept before.now.spaces) name.now declared.now }
{
    let space = kind(declared);
    let names = before.spaces.of(space);
    if !fits(declared) || names.len() >= space.most() {
        Some(Cause::OutOfRange)
    } else if names.place(name).is_some() {
        Some(Cause::Twice)
    } else {
        None
    }
}

// Whether a number may be that of instructions, or of turns.
fn is_count(n: u128) -> bool
    ensures { result ≡ is_count n }
{
    n >= 1 && n <= limits::COUNT as u128
}

// The fault of a line behind these.
#[tactic(auto, unfolding(crate::specs::Fault::fault))]
fn fault(before: &Before, said: &Said) -> Option<Cause>
    ensures { result ≡ fault before.now.deep (kept before.now.spaces) said.now }
{
    match said {
        Said::NotUtf8 => Some(Cause::NotUtf8),
        Said::Nonsense => Some(Cause::BadLine),
        Said::Declares { name, declared } => declaration_fault(before, name.bytes(), declared),
        Said::Loop { turns } => {
            if is_count(*turns) && before.deep <= limits::LOOPS as usize {
                None
            } else {
                Some(Cause::OutOfRange)
            }
        }
        Said::Work { n } => {
            if is_count(*n) {
                None
            } else {
                Some(Cause::OutOfRange)
            }
        }
        Said::Silent | Said::Use { .. } | Said::Close => None,
    }
}

impl<'a> Before<'a> {
    fn new(alloc: Global) -> Before<'a>
        ensures outside { result.deep ≡ 0 }
        ensures names { kept result.spaces ≡ known_of [] }
    {
        Before {
            deep: 0,
            spaces: Spaces::new(alloc),
        }
    }

    // Goes on behind a line.
    fn pass(&mut self, said: &Said<'a>) -> Result<(), Memory>
        requires { self.old.deep < 2 ^ 32 }
        ensures deep { OnOk result (self.new.deep ≡ deep_after self.old.deep said.now) }
        ensures names { OnOk result ((space : Space) → kept self.new.spaces space ≡ with_declared (kept self.old.spaces) said.now space) }
    {
        self.spaces.add(said)?;
        self.deep = deep_after(self.deep, said);
        Ok(())
    }
}

/// The first pass, from line to line: the names that the lines declare, or the first fault.
pub(crate) fn declared<'a>(alloc: Global, said: &[Said<'a>]) -> Result<Spaces<'a>, TextError>
    requires short { length said.now < 2 ^ 32 }
    ensures sound { OnOk result (first_fault [] said.now ≡ None) }
    ensures names { IfOk result (λ spaces. kept spaces ≡ known_of said.now) }
    ensures refused { IfErr result (IsRefusal (first_fault [] said.now)) }
{
    let mut before = Before::new(alloc);
    for (at, line) in said.iter().enumerate() {
        if let Some(cause) = fault(&before, line) {
            return Err(TextError::Refused {
                line: at as u32 + 1,
                cause,
            });
        }
        before.pass(line)?;
    }
    let Before { deep, spaces } = before;
    if deep > 0 {
        return Err(TextError::Refused {
            line: said.len() as u32,
            cause: Cause::NotClosed,
        });
    }
    Ok(spaces)
}
