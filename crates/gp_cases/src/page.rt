use crate::error::Unanswered;
use std::alloc::{AllocError, Global};
use std::fmt::{Debug, Write};

/// A text that is written piece by piece, as what comes of a case: lines, each behind a line feed.
#[derive(Drop)]
pub struct Page {
    text: String,
}

impl Page {
    /// An empty text.
    pub fn new(alloc: Global) -> Page {
        Page {
            text: String::new(alloc),
        }
    }

    /// The text so far.
    pub fn as_str(&self) -> &str {
        self.text.as_str()
    }

    /// Begins a line with a text.
    pub fn line(&mut self, text: &str) -> Result<(), AllocError> {
        self.text.push_str("\n")?;
        self.text.push_str(text)
    }

    /// Goes on with a text.
    pub fn text(&mut self, text: &str) -> Result<(), AllocError> {
        self.text.push_str(text)
    }

    /// Goes on with a text and a number.
    pub fn number(&mut self, before: &str, number: u64) -> Result<(), AllocError> {
        self.text.push_str(before)?;
        write!(self.text, "{number}")
    }

    /// Goes on with a text and a value as it is shown for debugging.
    pub fn debug<T: Debug>(&mut self, before: &str, value: &T) -> Result<(), AllocError> {
        self.text.push_str(before)?;
        write!(self.text, "{value:?}")
    }

    /// Begins a line with bytes in hexadecimal digits.
    pub fn bytes(&mut self, alloc: Global, bytes: &[u8]) -> Result<(), Unanswered> {
        let digits = hex::encode(alloc, bytes)?;
        self.line(digits.as_str())?;
        Ok(())
    }

    /// Goes on with bytes that are a text: a blank, and the text with a `;` for each line feed. Without bytes, with nothing.
    pub fn written(&mut self, bytes: &[u8]) -> Result<(), AllocError> {
        if bytes.is_empty() {
            return Ok(());
        }
        let text = str::from_utf8(bytes).unwrap_or("no text");
        for (at, line) in text.split('\n').enumerate() {
            self.text.push_str(if at == 0 { " " } else { ";" })?;
            self.text.push_str(line)?;
        }
        Ok(())
    }
}
