//! What lines say, each at its place: its first word tells which form it has, and the words behind it are looked at.
ghost use Rattle.std.specs.Prelude.{◌≡◌, ◌≤◌, ◌<◌, ◌+◌, ◌^◌, [], None, Some, length, take, drop, position, nat_lt, IfOk, IfSome, MatchOption};
ghost use Rattle.std.specs.List.{list_all};
ghost use Rattle.std.specs.Str.{is_utf8};
ghost use Rattle.gp_text.specs.Pieces.{is_lf, lines_of};
ghost use Rattle.gp_text.specs.Line.{is_pair, one, two, is_open, header_of, capacity_of, channel_of, mutex_of, label_set_of, count_of, work_of, turns_of, loop_of, close_of, verb_of, name_of, use_of, outside, inside, is_comment, spoken, said_of, deep_after, said_from};

use crate::marks::{is_name, is_pair, number};
use crate::said::{Declared, Name, Said};
use crate::verb::Verb;
use crate::words::Words;
use gp_isa::Memory;
use std::alloc::Global;
use std::str;

// The place of the first LF.
fn lf_place(bytes: &[u8]) -> Option<usize>
    ensures place { result ≡ position is_lf bytes.now }
    ensures within { IfSome result (λ at. at < length bytes.now) }
{
    bytes.iter().position(|b| *b == b'\n')
}

// What stands before a place, and behind it.
fn cut_at(bytes: &[u8], at: usize) -> (&[u8], &[u8])
    requires { at < length bytes.now }
    ensures head { result.0.now ≡ take at bytes.now }
    ensures rest { result.1.now ≡ drop (at + 1) bytes.now }
{
    (&bytes[..at], &bytes[at + 1..])
}

// The one word that there is.
fn one<'a>(words: Words<'a>) -> Option<&'a [u8]>
    ensures { MatchOption result (one words.entry ≡ None) (λ word. one words.entry ≡ Some word.now) }
{
    let mut words = words;
    match words.next() {
        Some(word) => match words.next() {
            Some(_) => None,
            None => Some(word),
        },
        None => None,
    }
}

// The two words that there are.
fn two<'a>(words: Words<'a>) -> Option<(&'a [u8], &'a [u8])>
    ensures { MatchOption result (two words.entry ≡ None) (λ both. two words.entry ≡ Some (both.0.now, both.1.now)) }
{
    let mut words = words;
    match words.next() {
        Some(first) => match one(words) {
            Some(second) => Some((first, second)),
            None => None,
        },
        None => None,
    }
}

fn is_open(word: &[u8]) -> bool
    ensures { result ≡ is_open word.now }
{
    word == b"{".as_slice()
}

// `func NAME {`
fn header(words: Words<'_>) -> Said<'_>
    ensures { result ≡ header_of (two words.entry) }
{
    match two(words) {
        Some((name, brace)) => {
            if is_name(name) && is_open(brace) {
                Said::Declares {
                    name: Name::new(name),
                    declared: Declared::Function,
                }
            } else {
                Said::Nonsense
            }
        }
        None => Said::Nonsense,
    }
}

fn capacity(name: &[u8], capacity: Option<u128>) -> Said<'_>
    ensures { result ≡ capacity_of name.now capacity }
{
    match capacity {
        Some(capacity) => Said::Declares {
            name: Name::new(name),
            declared: Declared::Channel { capacity },
        },
        None => Said::Nonsense,
    }
}

// `chan NAME NUM`
fn channel(words: Words<'_>) -> Said<'_>
    ensures { result ≡ channel_of (two words.entry) }
{
    match two(words) {
        Some((name, digits)) => {
            if is_name(name) {
                capacity(name, number(digits))
            } else {
                Said::Nonsense
            }
        }
        None => Said::Nonsense,
    }
}

// `mutex NAME`
fn mutex(words: Words<'_>) -> Said<'_>
    ensures { result ≡ mutex_of (one words.entry) }
{
    match one(words) {
        Some(name) => {
            if is_name(name) {
                Said::Declares {
                    name: Name::new(name),
                    declared: Declared::Mutex,
                }
            } else {
                Said::Nonsense
            }
        }
        None => Said::Nonsense,
    }
}

// Whether all words are pairs.
fn are_pairs(words: Words) -> bool
    ensures { result ≡ list_all is_pair words.entry }
{
    let mut words = words;
    while let Some(word) = words.next() {
        if !is_pair(word) {
            return false;
        }
    }
    true
}

// `labels NAME PAIR..`
fn label_set(words: Words<'_>) -> Said<'_>
    ensures { result ≡ label_set_of words.entry }
{
    let mut words = words;
    match words.next() {
        Some(name) => {
            if is_name(name) && are_pairs(words.again()) {
                Said::Declares {
                    name: Name::new(name),
                    declared: Declared::LabelSet { pairs: words },
                }
            } else {
                Said::Nonsense
            }
        }
        None => Said::Nonsense,
    }
}

// What a word says outside functions, with the words behind it.
#[tactic(auto, unfolding(crate::specs::Line::outside))]
fn outside<'a>(word: &[u8], after: Words<'a>) -> Said<'a>
    ensures { result ≡ outside word.now after.entry }
{
    if word == b"func".as_slice() {
        header(after)
    } else if word == b"chan".as_slice() {
        channel(after)
    } else if word == b"mutex".as_slice() {
        mutex(after)
    } else if word == b"labels".as_slice() {
        label_set(after)
    } else {
        Said::Nonsense
    }
}

fn count<'a>(n: Option<u128>) -> Said<'a>
    ensures { result ≡ count_of n }
{
    match n {
        Some(n) => Said::Work { n },
        None => Said::Nonsense,
    }
}

// `work NUM`
fn work(words: Words<'_>) -> Said<'_>
    ensures { result ≡ work_of (one words.entry) }
{
    match one(words) {
        Some(digits) => count(number(digits)),
        None => Said::Nonsense,
    }
}

fn turns<'a>(turns: Option<u128>) -> Said<'a>
    ensures { result ≡ turns_of turns }
{
    match turns {
        Some(turns) => Said::Loop { turns },
        None => Said::Nonsense,
    }
}

// `loop NUM {`
fn begin_loop(words: Words<'_>) -> Said<'_>
    ensures { result ≡ loop_of (two words.entry) }
{
    match two(words) {
        Some((digits, brace)) => {
            if is_open(brace) {
                turns(number(digits))
            } else {
                Said::Nonsense
            }
        }
        None => Said::Nonsense,
    }
}

// `}`
fn close(words: Words<'_>) -> Said<'_>
    ensures { result ≡ close_of words.entry }
{
    let mut words = words;
    match words.next() {
        Some(_) => Said::Nonsense,
        None => Said::Close,
    }
}

#[tactic(auto, unfolding(crate::specs::Line::verb_of))]
fn verb(word: &[u8]) -> Option<Verb>
    ensures { result ≡ verb_of word.now }
{
    if word == b"call".as_slice() {
        Some(Verb::Call)
    } else if word == b"spawn".as_slice() {
        Some(Verb::Spawn)
    } else if word == b"send".as_slice() {
        Some(Verb::Send)
    } else if word == b"recv".as_slice() {
        Some(Verb::Recv)
    } else if word == b"lock".as_slice() {
        Some(Verb::Lock)
    } else if word == b"unlock".as_slice() {
        Some(Verb::Unlock)
    } else if word == b"labels".as_slice() {
        Some(Verb::Labels)
    } else {
        None
    }
}

// `call NAME` and the like.
fn named<'a>(verb: Option<Verb>, words: Words<'a>) -> Said<'a>
    ensures { result ≡ use_of verb (one words.entry) }
{
    match verb {
        Some(verb) => match one(words) {
            Some(name) => {
                if is_name(name) {
                    Said::Use {
                        verb,
                        name: Name::new(name),
                    }
                } else {
                    Said::Nonsense
                }
            }
            None => Said::Nonsense,
        },
        None => Said::Nonsense,
    }
}

// What a word says inside a function, with the words behind it.
#[tactic(auto, unfolding(crate::specs::Line::inside))]
fn inside<'a>(word: &[u8], after: Words<'a>) -> Said<'a>
    ensures { result ≡ inside word.now after.entry }
{
    match word {
        b"work" => work(after),
        b"loop" => begin_loop(after),
        b"}" => close(after),
        _ => named(verb(word), after),
    }
}

fn is_comment(word: &[u8]) -> bool
    ensures { result ≡ is_comment word.now }
{
    match word {
        [] => false,
        [first, ..] => *first == b'#',
    }
}

fn spoken(within: bool, words: Words<'_>) -> Said<'_>
    ensures { result ≡ spoken within words.entry }
{
    let mut words = words;
    match words.next() {
        Some(word) => {
            if is_comment(word) {
                Said::Silent
            } else if within {
                inside(word, words)
            } else {
                outside(word, words)
            }
        }
        None => Said::Silent,
    }
}

fn is_text(line: &[u8]) -> bool
    ensures { result ≡ is_utf8 line.now }
{
    match str::from_utf8(line) {
        Ok(_) => true,
        Err(_) => false,
    }
}

#[tactic(auto, unfolding(crate::specs::Line::said_of))]
fn said(within: bool, line: &[u8]) -> Said<'_>
    ensures { result ≡ said_of within line.now }
{
    if is_text(line) {
        spoken(within, Words::new(line))
    } else {
        Said::NotUtf8
    }
}

/// How many bodies are open behind a line.
pub(crate) fn deep_after(deep: usize, said: &Said) -> usize
    requires { deep < 2 ^ 32 }
    ensures { result ≡ deep_after deep said.now }
{
    match said {
        Said::Declares { declared, .. } => match declared {
            Declared::Function => deep + 1,
            Declared::Channel { .. } | Declared::Mutex | Declared::LabelSet { .. } => deep,
        },
        Said::Loop { .. } => deep + 1,
        Said::Close => deep.saturating_sub(1),
        Said::NotUtf8 | Said::Nonsense | Said::Silent | Said::Work { .. } | Said::Use { .. } =>
            deep,
    }
}

/// What the lines of a file say, one after another.
pub(crate) fn said_lines(alloc: Global, bytes: &[u8]) -> Result<Vec<Said<'_>>, Memory>
    requires { length bytes.now < 2 ^ 32 }
    ensures lines { IfOk result (λ said. said.items ≡ said_from 0 (lines_of bytes.now)) }
    ensures few { IfOk result (λ said. length said.items ≤ length bytes.now) }
{
    let mut all = Vec::new(alloc);
    let mut deep = 0;
    let mut rest = bytes;
    while let Some(at) = lf_place(rest) {
        let (line, after) = cut_at(rest, at);
        let said = said(deep > 0, line);
        deep = deep_after(deep, &said);
        all.push(said)?;
        rest = after;
    }
    if !rest.is_empty() {
        all.push(said(deep > 0, rest))?;
    }
    Ok(all)
}
