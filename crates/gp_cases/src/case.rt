use crate::error::Unanswered;
use std::alloc::{AllocError, Global};

/// A case, as it stands in its file.
#[derive(Drop)]
pub(crate) struct Case<'a> {
    /// Its rows, the first of which is its kind with what that takes.
    pub(crate) rows: Vec<&'a str>,
    /// What has to come: lines, each behind a line feed.
    pub(crate) expected: String,
}

impl<'a> Case<'a> {
    /// The case of a block of lines. It has no row where there is none.
    pub(crate) fn read(alloc: Global, block: &'a str) -> Result<Case<'a>, Unanswered> {
        let mut case = Case {
            rows: Vec::new(alloc),
            expected: String::new(alloc),
        };
        for line in block.lines() {
            let (line, _) = line.split_once('#').unwrap_or((line, ""));
            case.add(line.trim())?;
        }
        Ok(case)
    }

    fn add(&mut self, line: &'a str) -> Result<(), Unanswered> {
        if let Some(more) = line.strip_prefix('+') {
            self.expected.push_str(more.trim())?;
        } else if let Some(comes) = line.strip_prefix('=') {
            self.expect(comes)?;
        } else if let Some((row, comes)) = line.split_once(" = ") {
            self.rows.push(row)?;
            self.expect(comes)?;
        } else if !line.is_empty() {
            self.rows.push(line)?;
        }
        Ok(())
    }

    fn expect(&mut self, line: &str) -> Result<(), AllocError> {
        self.expected.push_str("\n")?;
        self.expected.push_str(line.trim())
    }
}
