//! Cases of the ring of samples, lists of calls in `data/rings.txt`, and of the two ends of a ring for two threads, in
//! `data/ends.txt`, each with what has to come of it, worked out by hand. Then samples go through a ring between two threads.
//!
//! With the words `ends WORDS TAGS SAMPLES` only these go through one, and it is told how many were lost and how long it took; with
//! a further word, SEED, both threads pause at random. With `locked WORDS TAGS SAMPLES` they go through a ring behind a lock.
#![tactic(auto)]

mod driver;
mod ends;
mod figures;
mod locked;
mod passed;
mod pauses;
mod two;

use driver::Driver;
use ends::{ClosedDriver, EndsDriver};
use figures::Figures;
use gp_cases::{Page, Teller, Unanswered, number_64, walk, word, words};
use locked::go_through_locked;
use passed::Passed;
use std::alloc::Global;
use std::env;
use std::rt::{Clock, Files};
use std::sync::Wait;
use std::thread::Threads;
use two::go_through;

/// How many samples go through a ring, of how many words and tags.
const SAMPLES: u64 = 1000;

const WORDS: u64 = 16;

const TAGS: u64 = 4;

/// Answers cases of rings.
struct OfRings;

// The numbers of a row.
fn numbers(alloc: Global, text: &str) -> Result<Vec<u64>, Unanswered> {
    let mut numbers = Vec::new(alloc);
    for word in words(alloc, text)? {
        numbers.push(number_64(word)?)?;
    }
    Ok(numbers)
}

// A ring, given as its header size, its words and its tags.
fn ring(alloc: Global, text: &str) -> Result<Driver, Unanswered> {
    let numbers = numbers(alloc, text)?;
    let &[hdrsize, words, tags] = numbers.as_slice() else {
        return Err(Unanswered::Form);
    };
    Driver::new(alloc, hdrsize, words, tags)
}

// A write, given as the tag, the time, the header and the stack.
fn write(
    alloc: Global,
    page: &mut Page,
    driver: &mut Driver,
    text: &str,
) -> Result<(), Unanswered> {
    let numbers = numbers(alloc, text)?;
    let &[tag, time, ref rest @ ..] = numbers.as_slice() else {
        return Err(Unanswered::Form);
    };
    let wrote = driver.write(tag, time, rest).ok_or(Unanswered::Form)?;
    page.debug("\n", &wrote)?;
    Ok(())
}

fn call(alloc: Global, page: &mut Page, driver: &mut Driver, row: &str) -> Result<(), Unanswered> {
    let (kind, rest) = word(row);
    match kind {
        "write" => write(alloc, page, driver, rest),
        "close" => {
            driver.close();
            Ok(())
        }
        "look" => {
            driver.look();
            Ok(())
        }
        "act" => driver.act(page),
        "read" => driver.read(page),
        "counts" => driver.counts(page),
        "whole" => driver.whole(page),
        _ => Err(Unanswered::Form),
    }
}

impl Teller for OfRings {
    fn tell(alloc: Global, page: &mut Page, rows: &[&str]) -> Result<(), Unanswered> {
        let (head, rows) = rows.split_first().ok_or(Unanswered::Form)?;
        let (_, sizes) = word(head);
        let mut driver = ring(alloc, sizes)?;
        for row in rows {
            call(alloc, page, &mut driver, row)?;
        }
        Ok(())
    }
}

/// Answers cases of the two ends.
struct OfEnds;

// A ring's two ends, given as its header size, its words and its tags.
fn two_ends(alloc: Global, text: &str) -> Result<EndsDriver, Unanswered> {
    let numbers = numbers(alloc, text)?;
    let &[hdrsize, words, tags] = numbers.as_slice() else {
        return Err(Unanswered::Form);
    };
    EndsDriver::new(alloc, hdrsize, words, tags)
}

// A write, given as the tag, the time, the header and the stack.
fn ends_write(
    alloc: Global,
    page: &mut Page,
    driver: &mut EndsDriver,
    text: &str,
) -> Result<(), Unanswered> {
    let numbers = numbers(alloc, text)?;
    let &[tag, time, ref rest @ ..] = numbers.as_slice() else {
        return Err(Unanswered::Form);
    };
    let wrote = driver.write(tag, time, rest).ok_or(Unanswered::Form)?;
    page.debug("\n", &wrote)?;
    Ok(())
}

fn open_call(
    alloc: Global,
    page: &mut Page,
    driver: &mut EndsDriver,
    row: &str,
) -> Result<(), Unanswered> {
    let (kind, rest) = word(row);
    match kind {
        "write" => ends_write(alloc, page, driver, rest),
        "look" => {
            driver.look();
            Ok(())
        }
        "act" => driver.act(page),
        "read" => driver.read(page),
        "counts" => driver.counts(page),
        _ => Err(Unanswered::Form),
    }
}

// The rows behind the close.
fn tell_closed(page: &mut Page, driver: ClosedDriver, rows: &[&str]) -> Result<(), Unanswered> {
    let mut driver = driver;
    for row in rows {
        match *row {
            "look" => driver.look(),
            "act" => driver.act(page)?,
            "read" => driver.read(page)?,
            "settle" => return driver.settle(),
            _ => return Err(Unanswered::Form),
        }
    }
    Ok(())
}

impl Teller for OfEnds {
    fn tell(alloc: Global, page: &mut Page, rows: &[&str]) -> Result<(), Unanswered> {
        let (head, rows) = rows.split_first().ok_or(Unanswered::Form)?;
        let (_, sizes) = word(head);
        let mut driver = two_ends(alloc, sizes)?;
        let mut rest = rows;
        while let Some((row, behind)) = rest.split_first() {
            rest = behind;
            if *row == "close" {
                return tell_closed(page, driver.close(), rest);
            }
            open_call(alloc, page, &mut driver, row)?;
        }
        Ok(())
    }
}

// Tells how many of so many samples came or were counted lost, in order.
fn tell_passed(rt: &impl Print, passed: Passed, samples: u64) -> Result<(), Unanswered> {
    let next = passed.next;
    println!(rt; "two threads: {next} of {samples} samples came or were lost, in order")?;
    if next != samples {
        return Err(Unanswered::Form);
    }
    Ok(())
}

// And how many were lost, and how long it took.
fn tell_figures(rt: &impl Print, figures: Figures, samples: u64) -> Result<(), Unanswered> {
    tell_passed(rt, figures.passed, samples)?;
    let Figures {
        passed,
        writes,
        whole,
    } = figures;
    println!(rt;
        "lost {}, writes {writes} ns, whole {whole} ns",
        passed.lost
    )?;
    Ok(())
}

// Samples go through a ring between two threads, which pause at random, by this seed, unless it is 0.
fn thread_two<R: Threads + Wait + Clock + Sync + AllocGlobal>(
    rt: &R,
    words: u64,
    tags: u64,
    samples: u64,
    seed: u64,
) -> Result<Figures, Unanswered> {
    if words < 8 || words >= 1 << 28 || tags == 0 || tags >= 1 << 28 || samples >= 1 << 28 {
        return Err(Unanswered::Form);
    }
    let crossing = go_through(rt, rt.alloc(), words as u32, tags as u32, samples, seed)?;
    Ok(crossing.figures)
}

// The cases, and then samples between two threads.
fn tell_all<R: Threads + Wait + Clock + Sync + Files + Print + AllocGlobal>(
    rt: &R,
) -> Result<(), Unanswered> {
    walk::<OfRings>(rt, "rings.txt")?;
    walk::<OfEnds>(rt, "ends.txt")?;
    let figures = thread_two(rt, WORDS, TAGS, SAMPLES, 0)?;
    tell_passed(rt, figures.passed, SAMPLES)
}

fn main(rt: HostRuntime) -> Result<(), Unanswered> {
    let words: Vec<String> = env::args(&rt)?.collect(rt.alloc())?;
    let (kind, given) = match words.as_slice() {
        [] | [_] => return tell_all(&rt),
        [_, kind, given @ ..] => (kind, given),
    };
    let mut numbers = Vec::new(rt.alloc());
    for word in given {
        numbers.push(number_64(word.as_str())?)?;
    }
    let &[words, tags, samples, ref seed @ ..] = numbers.as_slice() else {
        return Err(Unanswered::Form);
    };
    let figures = match (kind.as_str(), seed) {
        ("ends", []) => thread_two(&rt, words, tags, samples, 0)?,
        ("ends", &[seed]) => thread_two(&rt, words, tags, samples, seed)?,
        ("locked", []) => go_through_locked(&rt, rt.alloc(), words, tags, samples)?,
        _ => return Err(Unanswered::Form),
    };
    tell_figures(&rt, figures, samples)
}
