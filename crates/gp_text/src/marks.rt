//! What names, numbers and pairs look like.
ghost use Rattle.std.specs.Prelude.{◌≡◌, ◌<◌, length, position, true, Some, IsTrue, IfSome};
ghost use Rattle.std.specs.Str.Parse.{digits_value};
ghost use Rattle.std.specs.List.{list_all, list_any};
ghost use Rattle.std.specs.Char.{is_ascii_digit};
ghost use Rattle.gp_text.specs.Line.{begins_name, continues_name, has_length, is_name, is_numeral, number, is_equals, is_pair, pair_of};

use gp_isa::limits;
use std::str;

fn begins_name(b: u8) -> bool
    ensures { result ≡ begins_name b }
{
    b.is_ascii_alphabetic() || b == b'_'
}

fn continues_name(b: u8) -> bool
    ensures { result ≡ continues_name b }
{
    b.is_ascii_alphanumeric() || b == b'_' || b == b'.'
}

fn has_length(most: usize, bytes: &[u8]) -> bool
    ensures value { result ≡ has_length most bytes.now }
    ensures some { IsTrue result → 0 < length bytes.now }
{
    !bytes.is_empty() && bytes.len() <= most
}

fn all_continue(bytes: &[u8]) -> bool
    ensures { result ≡ list_all continues_name bytes.now }
{
    bytes.iter().all(|b| continues_name(*b))
}

/// Whether the bytes are a name.
#[tactic(auto, unfolding(crate::specs::Line::is_name))]
pub(crate) fn is_name(bytes: &[u8]) -> bool
    ensures { result ≡ is_name bytes.now }
{
    has_length(limits::NAME_BYTES, bytes) && begins_name(bytes[0]) && all_continue(bytes)
}

fn all_digits(bytes: &[u8]) -> bool
    ensures { result ≡ list_all is_ascii_digit bytes.now }
{
    bytes.iter().all(|b| b.is_ascii_digit())
}

#[tactic(auto, unfolding(crate::specs::Line::is_numeral))]
fn is_numeral(bytes: &[u8]) -> bool
    ensures { result ≡ is_numeral bytes.now }
{
    has_length(limits::NUMBER_DIGITS, bytes) && all_digits(bytes)
}

// The value of a number's digits.
fn value(digits: &[u8]) -> Option<u128>
    requires { is_numeral digits.now ≡ true }
    ensures { result ≡ Some (digits_value 10 digits.now) }
{
    match str::from_utf8(digits) {
        Ok(text) => text.parse::<u128>().ok(),
        Err(_) => None,
    }
}

/// The number that the bytes are.
pub(crate) fn number(bytes: &[u8]) -> Option<u128>
    ensures { result ≡ number bytes.now }
{
    if is_numeral(bytes) {
        value(bytes)
    } else {
        None
    }
}

fn has_equals(word: &[u8]) -> bool
    ensures { result ≡ list_any is_equals word.now }
{
    word.iter().any(|b| *b == b'=')
}

/// Whether a word is a pair of a label set: a key of at least one byte, `=` and a value.
#[tactic(auto, unfolding(crate::specs::Line::is_pair))]
pub(crate) fn is_pair(word: &[u8]) -> bool
    ensures { result ≡ is_pair word.now }
{
    match word {
        [] => false,
        [first, ..] => *first != b'=' && has_equals(word),
    }
}

// The place of the first `=`.
fn equals_place(word: &[u8]) -> Option<usize>
    ensures place { result ≡ position is_equals word.now }
    ensures within { IfSome result (λ at. at < length word.now) }
{
    word.iter().position(|b| *b == b'=')
}

/// The key and the value of a pair.
pub(crate) fn cut_pair(word: &[u8]) -> (&[u8], &[u8])
    ensures key { result.0.now ≡ (pair_of word.now).key }
    ensures value { result.1.now ≡ (pair_of word.now).value }
{
    match equals_place(word) {
        Some(at) => (&word[..at], &word[at + 1..]),
        None => (word, &word[word.len()..]),
    }
}
