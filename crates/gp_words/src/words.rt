ghost use Rattle.std.specs.Prelude.{◌≡◌, ◌≤◌, IfOk, IfErr};
ghost use Rattle.gp_journal.specs.Settings.{AreInRange};
ghost use Rattle.gp_words.specs.Words.{texts, is_file_word, IsFileWord};
ghost use Rattle.gp_words.specs.Read.{Names, IsFault, Reads, value_or_fault};
ghost use Rattle.gp_words.specs.Numbers.{number_in};
ghost use Rattle.gp_words.specs.Job.{filed_of, gen_with, gen_of, dump_of, said_by, job_of, HasFileWord, HasRange};

use crate::cause::{BAD_COMMAND, BAD_NUMBER, EXTRA, MISSING};
use crate::command::Command;
use crate::error::WordError;
use crate::jobs::Job;
use crate::number::number;
use crate::settings::settings_said;
use gp_isa::Text;
use gp_journal::Settings;
use std::alloc::Global;

// The most turns of a generated program.
const MOST_TURNS: u64 = 63;

fn is_file_word(word: &str) -> bool
    ensures { result ≡ is_file_word word.now }
{
    match word.as_bytes() {
        [] => false,
        [first, ..] => *first != b'-',
    }
}

/// The file and the settings of the words after `run` and `sim`.
fn filed(alloc: Global, command: Command, words: &[String]) -> Result<(Text, Settings), WordError>
    ensures said { Reads result (filed_of command (texts words.now)) }
    ensures file { IfOk result (λ said. IsFileWord said.0) }
    ensures range { IfOk result (λ said. AreInRange said.1) }
{
    let Some((file, option_words)) = words.split_first() else {
        return Err(WordError::Usage {
            place: 1,
            cause: MISSING,
        });
    };
    let file = file.as_str();
    if !is_file_word(file) {
        return Err(WordError::Usage {
            place: 1,
            cause: EXTRA,
        });
    }
    let settings = settings_said(alloc, command, option_words)?;
    let file = Text::from_str(alloc, file)?;
    Ok((file, settings))
}

/// The number of a word at a place, from `least` to `most`.
fn number_at(place: u32, word: &str, least: u64, most: u64) -> Result<u64, WordError>
    ensures said { Reads result (value_or_fault place (number_in least most word.now)) }
    ensures range { IfOk result (λ n. (least ≤ n) × (n ≤ most)) }
{
    number(word, least, most).ok_or(WordError::Usage {
        place,
        cause: BAD_NUMBER,
    })
}

/// The job of the words after `gen` and its first number.
fn gen_with(alloc: Global, n: u64, words: &[String]) -> Result<Job, WordError>
    ensures said { Reads result (gen_with n (texts words.now)) }
    ensures file { IfOk result HasFileWord }
    ensures range { IfOk result HasRange }
{
    let Some((word, option_words)) = words.split_first() else {
        return Err(WordError::Usage {
            place: 2,
            cause: MISSING,
        });
    };
    let q = number_at(2, word.as_str(), 1, MOST_TURNS)?;
    let settings = settings_said(alloc, Command::Gen, option_words)?;
    Ok(Job::Gen {
        n,
        q: q as u32,
        settings,
    })
}

/// The job of the words after `gen`.
fn generated(alloc: Global, words: &[String]) -> Result<Job, WordError>
    ensures said { Reads result (gen_of (texts words.now)) }
    ensures file { IfOk result HasFileWord }
    ensures range { IfOk result HasRange }
{
    let Some((word, after)) = words.split_first() else {
        return Err(WordError::Usage {
            place: 1,
            cause: MISSING,
        });
    };
    let n = number_at(1, word.as_str(), 0, u64::MAX)?;
    gen_with(alloc, n, after)
}

/// The job of the words after `dump`.
fn dump(alloc: Global, words: &[String]) -> Result<Job, WordError>
    ensures said { Reads result (dump_of (texts words.now)) }
    ensures file { IfOk result HasFileWord }
    ensures range { IfOk result HasRange }
{
    let Some((profile, more)) = words.split_first() else {
        return Err(WordError::Usage {
            place: 1,
            cause: MISSING,
        });
    };
    let profile = profile.as_str();
    if !is_file_word(profile) {
        return Err(WordError::Usage {
            place: 1,
            cause: EXTRA,
        });
    }
    if !more.is_empty() {
        return Err(WordError::Usage {
            place: 2,
            cause: EXTRA,
        });
    }
    let file = Text::from_str(alloc, profile)?;
    Ok(Job::Dump { file })
}

/// The job of a command and the words after it.
fn said_by(alloc: Global, command: &str, words: &[String]) -> Result<Job, WordError>
    ensures said { Reads result (said_by command.now (texts words.now)) }
    ensures file { IfOk result HasFileWord }
    ensures range { IfOk result HasRange }
{
    match command {
        "run" => {
            let (file, settings) = filed(alloc, Command::Run, words)?;
            Ok(Job::Run { file, settings })
        }
        "sim" => {
            let (file, settings) = filed(alloc, Command::Sim, words)?;
            Ok(Job::Sim { file, settings })
        }
        "gen" => generated(alloc, words),
        "dump" => dump(alloc, words),
        _ => Err(WordError::Usage {
            place: 0,
            cause: BAD_COMMAND,
        }),
    }
}

/// The job that command words ask for, the words being the arguments after the program's name.
///
/// The words are read from left to right, and the first fault is answered, with its place and one of the causes in
/// [`crate::cause`].
pub fn job(alloc: Global, words: &[String]) -> Result<Job, WordError>
    // The job is exactly the one that the words name, and its parts are right.
    ensures ok { IfOk result (λ job. job_of (texts words.now) ≡ Names job) }
    ensures file { IfOk result HasFileWord }
    ensures range { IfOk result HasRange }

    // A fault is exactly the first one in the words.
    ensures usage { IfErr result (λ error. IsFault error (job_of (texts words.now))) }
{
    match words.split_first() {
        Some((command, after)) => said_by(alloc, command.as_str(), after),
        None => Err(WordError::Usage {
            place: 0,
            cause: BAD_COMMAND,
        }),
    }
}
