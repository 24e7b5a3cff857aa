use gp_cases::{Failing, Unanswered, number_64, word};

/// A call of the program.
#[derive(Clone, Copy)]
pub struct Call<'a> {
    pub failing: Failing,
    /// The words, behind the program's name.
    pub command: &'a str,
    pub file: &'a str,
}

/// A call that is made, and the one that it's held against: the same, or another, by which it has to be wrong.
#[derive(Clone, Copy)]
pub struct Case<'a> {
    /// Whether all numbers are told.
    pub is_whole: bool,
    /// Whether it's held against another call.
    pub is_other: bool,
    pub made: Call<'a>,
    pub wanted: Call<'a>,
}

fn parts(text: &str) -> Result<(&str, &str), Unanswered> {
    text.split_once(" : ").ok_or(Unanswered::Form)
}

impl<'a> Call<'a> {
    fn read(head: &'a str, file: &'a str) -> Result<Call<'a>, Unanswered> {
        let (read, rest) = word(head);
        let (put, rest) = word(rest);
        let (write, command) = word(rest);
        Ok(Call {
            failing: Failing {
                read: number_64(read)?,
                put: number_64(put)?,
                write: number_64(write)?,
            },
            command,
            file,
        })
    }
}

impl<'a> Case<'a> {
    /// The case of a line.
    pub fn read(line: &'a str) -> Result<Case<'a>, Unanswered> {
        let (head, rest) = parts(line)?;
        let (kind, head) = word(head);
        if kind == "other" {
            let (file, rest) = parts(rest)?;
            let (other, other_file) = parts(rest)?;
            return Ok(Case {
                is_whole: false,
                is_other: true,
                made: Call::read(head, file)?,
                wanted: Call::read(other, other_file)?,
            });
        }
        let made = Call::read(head, rest)?;
        Ok(Case {
            is_whole: kind == "whole",
            is_other: false,
            made,
            wanted: made,
        })
    }
}
