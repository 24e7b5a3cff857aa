ghost use Rattle.std.specs.Prelude.{◌≡◌};
ghost use Rattle.std.specs.Str.{all_ascii_digits};
ghost use Rattle.gp_words.specs.Numbers.{is_number, number_in, divisor_in};

use gp_isa::limits;

fn are_digits(word: &[u8]) -> bool
    ensures { result ≡ all_ascii_digits word.now }
{
    word.iter().all(|byte| byte.is_ascii_digit())
}

/// Whether a word is one to twenty digits, leading zeros among them.
fn is_number(word: &str) -> bool
    ensures { result ≡ is_number word.now }
{
    let digits = word.as_bytes();
    if digits.is_empty() || digits.len() > limits::NUMBER_DIGITS {
        return false;
    }
    are_digits(digits)
}

/// The number that a word writes, where it lies from `least` to `most`.
pub(crate) fn number(word: &str, least: u64, most: u64) -> Option<u64>
    ensures { result ≡ number_in least most word.now }
{
    if !is_number(word) {
        return None;
    }
    let number = word.parse::<u64>().ok()?;
    if number < least || number > most {
        return None;
    }
    Some(number)
}

/// The number that a word writes, where it divides `whole`, from 1 on.
pub(crate) fn divisor(word: &str, whole: u64) -> Option<u64>
    ensures { result ≡ divisor_in whole word.now }
{
    let number = number(word, 1, whole)?;
    if whole % number == 0 {
        Some(number)
    } else {
        None
    }
}
