//! Cases of runs on threads: a command line, how often it is run, a program's file, and what each of the runs has to come to.
ghost use Rattle.std.specs.Prelude.{◌≡◌, IfOk};
ghost use Rattle.gp_journal.specs.Settings.{AreInRange};

use crate::gates::{Gates, How};
use crate::judge::judge;
use gp_cases::{Page, Unanswered, lines, number_32, word, words};
use gp_isa::Program;
use gp_machine::{Run, Settings};
use gp_text::read;
use gp_words::{Job, job};
use gp_workers::run_all;
use std::alloc::Global;
use std::marker::Brand;
use std::sync::Wait;
use std::thread::Threads;

/// A case.
#[derive(Clone, Copy)]
pub struct Case<'a> {
    pub times: u32,
    line: &'a str,
    file: &'a str,
    expected: &'a str,
}

impl<'a> Case<'a> {
    /// The case of a block of lines, if there is one.
    pub fn read(alloc: Global, block: &'a str) -> Result<Option<Case<'a>>, Unanswered> {
        let mut rows = Vec::new(alloc);
        for line in block.lines() {
            if !line.is_empty() && !line.starts_with('#') {
                rows.push(line)?;
            }
        }
        let [first, file, comes] = rows.as_slice() else {
            return if rows.is_empty() {
                Ok(None)
            } else {
                Err(Unanswered::Form)
            };
        };
        let (times, line) = word(first);
        Ok(Some(Case {
            times: number_32(times)?,
            line,
            file: *file,
            expected: word(comes).1,
        }))
    }
}

/// The program of a file that is told in one line.
pub fn program_in(alloc: Global, row: &str) -> Result<Program, Unanswered> {
    let file = lines(alloc, row)?;
    if file.len() > 65536 {
        return Err(Unanswered::Form);
    }
    read(alloc, file.as_bytes()).ok().ok_or(Unanswered::Form)
}

fn words_of(alloc: Global, line: &str) -> Result<Vec<String>, Unanswered> {
    let mut all = Vec::new(alloc);
    for word in words(alloc, line)?.iter() {
        all.push(word.to_string(alloc)?)?;
    }
    Ok(all)
}

/// The options of a command line that runs a program on threads.
pub fn settings_of(alloc: Global, line: &str) -> Result<Settings, Unanswered>
    ensures { IfOk result AreInRange }
{
    let words = words_of(alloc, line)?;
    match job(alloc, words.as_slice()) {
        Ok(Job::Run { settings, .. }) => Ok(settings),
        _ => Err(Unanswered::Form),
    }
}

// Whether what comes is what has to. A `-` stands for any word.
fn is_expected(alloc: Global, comes: &str, expected: &str) -> Result<bool, Unanswered> {
    let comes = words(alloc, comes)?;
    let expected = words(alloc, expected)?;
    let mut all = comes.len() == expected.len();
    for (come, expect) in comes.iter().zip(expected.iter()) {
        all = all && (*expect == "-" || come == expect);
    }
    Ok(all)
}

// A run through gates, judged.
fn run_once<R: Run + Send + Sync, T: Threads + Wait + Sync>(
    rt: &T,
    alloc: Global,
    program: &Program,
    settings: &Settings,
    how: How,
) -> Result<Page, Unanswered>
    requires program { program.now ≡ R.program }
    requires settings { settings.now ≡ R.settings }
    requires range { AreInRange settings.now }
{
    let gates = Gates::new(how);
    let run = run_all::<R, T, Gates>(rt, alloc, program, settings, &gates)?;
    let mut page = judge(alloc, program, settings, &run, how)?;
    if gates.gave_up() {
        page.text(" but a gate gave up")?;
    }
    Ok(page)
}

fn run_case<T: Threads + Wait + Sync>(
    rt: &T,
    alloc: Global,
    program: &Program,
    settings: &Settings,
    how: How,
) -> Result<Page, Unanswered>
    requires range { AreInRange settings.now }
{
    run_once::<Brand, T>(rt, alloc, program, settings, how)
}

/// Runs a case so often. It prints what a run comes to, where that isn't what has to come, and tells how often that was.
pub fn walk_case<T: Threads + Wait + Sync + Print>(
    rt: &T,
    alloc: Global,
    case: &Case,
    how: How,
) -> Result<u64, Unanswered> {
    let program = program_in(alloc, case.file)?;
    let settings = settings_of(alloc, case.line)?;
    let mut wrong = 0_u64;
    for _ in 0..case.times {
        let page = run_case(rt, alloc, &program, &settings, how)?;
        if !is_expected(alloc, page.as_str(), case.expected)? {
            wrong = wrong.saturating_add(1);
            rt.println(case.line)?;
            rt.println(page.as_str())?;
        }
    }
    Ok(wrong)
}
