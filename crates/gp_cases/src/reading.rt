use crate::error::Unanswered;
use gp_isa::Sequence;
use std::alloc::Global;

/// The first word of a row, and what stands behind the blank after it.
pub fn word(row: &str) -> (&str, &str) {
    row.split_once(' ').unwrap_or((row, ""))
}

/// The words of a command line, behind the program's name. `''` stands for a word that is empty.
pub fn command_words(alloc: Global, line: &str) -> Result<Vec<String>, Unanswered> {
    let mut all = Vec::new(alloc);
    for word in words(alloc, line)?.iter().skip(1) {
        let word = if *word == "''" { "" } else { *word };
        all.push(word.to_string(alloc)?)?;
    }
    Ok(all)
}

/// What stands on both sides of the first such character.
pub fn halves(text: &str, by: char) -> Result<(&str, &str), Unanswered> {
    text.split_once(by).ok_or(Unanswered::Form)
}

/// The words of a text, without the blanks between them.
pub fn words(alloc: Global, text: &str) -> Result<Vec<&str>, Unanswered> {
    let mut words = Vec::new(alloc);
    for word in text.split_whitespace() {
        words.push(word)?;
    }
    Ok(words)
}

/// A text with a line feed in place of each semicolon.
pub fn lines(alloc: Global, text: &str) -> Result<String, Unanswered> {
    Ok(text.replace(alloc, ';', "\n")?)
}

/// A number of 8 bits.
pub fn number_8(word: &str) -> Result<u8, Unanswered> {
    Ok(word.parse()?)
}

/// A number of 32 bits.
pub fn number_32(word: &str) -> Result<u32, Unanswered> {
    Ok(word.parse()?)
}

/// A number of 64 bits.
pub fn number_64(word: &str) -> Result<u64, Unanswered> {
    Ok(word.parse()?)
}

/// A number of 64 bits with a sign.
pub fn integer(word: &str) -> Result<i64, Unanswered> {
    Ok(word.parse()?)
}

/// Numbers of 64 bits with signs, with blanks between them.
pub fn integers(alloc: Global, row: &str) -> Result<Sequence<i64>, Unanswered> {
    let mut numbers = Sequence::new(alloc);
    for word in words(alloc, row)? {
        numbers.push(integer(word)?)?;
    }
    Ok(numbers)
}

/// Bytes in hexadecimal digits.
pub fn bytes(alloc: Global, digits: &str) -> Result<Vec<u8>, Unanswered> {
    hex::decode(alloc, digits).ok().ok_or(Unanswered::Form)
}
