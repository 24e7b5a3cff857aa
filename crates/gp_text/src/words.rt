//! The words of a line.
ghost use Rattle.std.specs.Prelude.{◌≡◌, ◌<◌, ◌∷◌, [], false, length, position, not, MatchOption, IfSome, slice_index};
ghost use Rattle.gp_text.specs.Pieces.{is_blank, words_of};

use std::marker::Model;

/// The words that are left of a line, which contracts see as their list.
#[derive(Drop)]
pub(crate) struct Words<'a> {
    rest: &'a [u8],
}

impl<'a> Model for Words<'a> {
    ghost use Rattle.std.specs.Prelude.{List, ℕ};
    ghost use Rattle.std.specs.Coded.{coded_list, coded_ℕ};
    ghost use Rattle.gp_text.specs.Pieces.{words_of};

    ghost Value = { List (List ℕ) };

    ghost coded = { coded_list (coded_list coded_ℕ) };

    ghost view = { λ w. words_of w.rest.now };
}

fn is_blank(b: u8) -> bool
    ensures { result ≡ is_blank b }
{
    b == b' ' || b == b'\t' || b == b'\r'
}

// The place of the first byte of a word.
fn word_place(bytes: &[u8]) -> Option<usize>
    ensures place { result ≡ position (λ b. not (is_blank b)) bytes.now }
    ensures within { IfSome result (λ at. at < length bytes.now) }
{
    bytes.iter().position(|b| !is_blank(*b))
}

// The place of the first blank.
fn blank_place(bytes: &[u8]) -> Option<usize>
    ensures place { result ≡ position is_blank bytes.now }
    ensures within { IfSome result (λ at. at < length bytes.now) }
{
    bytes.iter().position(|b| is_blank(*b))
}

// The word that the bytes begin with, and what follows it.
fn cut(bytes: &[u8]) -> (&[u8], &[u8])
    requires some { 0 < length bytes.now }
    requires word { is_blank (slice_index bytes.now 0) ≡ false }
    ensures { words_of bytes.now ≡ result.0.now ∷ words_of result.1.now }
{
    match blank_place(bytes) {
        Some(end) => (&bytes[..end], &bytes[end..]),
        None => (bytes, &bytes[bytes.len()..]),
    }
}

// The first word, and what follows it.
fn first_word(bytes: &[u8]) -> Option<(&[u8], &[u8])>
    ensures { MatchOption result (words_of bytes.now ≡ []) (λ cut. words_of bytes.now ≡ cut.0.now ∷ words_of cut.1.now) }
{
    match word_place(bytes) {
        Some(start) => Some(cut(&bytes[start..])),
        None => None,
    }
}

impl<'a> Words<'a> {
    /// The words of a line.
    pub(crate) fn new(line: &'a [u8]) -> Words<'a>
        ensures { result ≡ words_of line.now }
    {
        Words { rest: line }
    }

    /// The same words once more.
    pub(crate) fn again(&self) -> Words<'a>
        ensures { result ≡ self.now }
    {
        Words { rest: self.rest }
    }

    /// Takes the next word.
    pub(crate) fn next(&mut self) -> Option<&'a [u8]>
        ensures { MatchOption result (self.old ≡ []) (λ word. self.old ≡ word.now ∷ self.new) }
    {
        match first_word(self.rest) {
            Some((word, rest)) => {
                self.rest = rest;
                Some(word)
            }
            None => None,
        }
    }
}
