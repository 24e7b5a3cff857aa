//! Runs on threads through the top call.
use gp_cases::{Devices, Failing, Page, Unanswered, command_words};
use gp_telling::{tell_end, tell_names};
use gp_top::{Outcome, top};
use gp_workers::{Gate, Place};
use std::alloc::Global;
use std::sync::Wait;
use std::sync::atomic::{AtomicBool, Ordering};
use std::thread::Threads;

/// Command lines, how often each is called, and the program's file.
const CALLS: [(u32, &str, &str); 14] = [
    (200, "gp run a.gp --workers 2", CONTENDED),
    (
        20,
        "gp run a.gp --workers 16 --at 0 --at 3 --at 5 --at 7 --at 9 --at 900 --at end --at end",
        CONTENDED,
    ),
    (20, "gp run a.gp --workers 4 --at 3 --room 0", CONTENDED),
    (20, "gp run a.gp --workers 3 --at end", STUCK),
    (20, "gp run a.gp --workers 2 --cells 1", STUCK),
    (
        20,
        "gp run a.gp --workers 2 --at end",
        "text mutex m;func main {;work 3;unlock m;};",
    ),
    (
        20,
        "gp run a.gp --workers 16 --entries 16 --at end",
        "text func main {;work 20000;};",
    ),
    (1, "gp run", STUCK),
    (1, "gp run a.gp --picks 1", STUCK),
    (1, "gp run a.gp --room 1 --room 1", STUCK),
    (1, "gp run a.gp", "text func main {;work 0;};"),
    (1, "gp sim a.gp --hz 3", STUCK),
    (1, "gp dump p q", STUCK),
    (2, "gp sim a.gp --workers 1 --at end", STUCK),
];

/// Two goroutines wait for a mutex, which `main` holds for longer than a slice.
const CONTENDED: &str =
    "text mutex m;chan d 2;func main {;spawn b;spawn b;lock m;work 1002;unlock m;recv d;recv d;};func b {;lock m;unlock m;send d;};";

/// Two goroutines wait for ever.
const STUCK: &str = "text chan c 0;func main {;spawn f;recv c;};func f {;recv c;};";

fn line_feeds(text: &[u8]) -> u64 {
    text.iter().filter(|byte| **byte == b'\n').count() as u64
}

/// A gate that keeps whether a worker of a run on threads has made an entry.
#[derive(Drop)]
struct Entering {
    entered: AtomicBool,
}

impl Gate for Entering {
    fn pass(&self, place: Place) {
        if let Place::Entered { .. } = place {
            self.entered.store(true, Ordering::SeqCst);
        }
    }
}

// What comes of a command line, on threads that pass a gate.
fn call<R: Threads + Wait + Sync, G: Gate>(
    rt: &R,
    alloc: Global,
    devices: &mut Devices,
    line: &str,
    gate: &G,
) -> Result<Outcome, Unanswered> {
    let words = command_words(alloc, line)?;
    let Devices {
        source,
        store,
        sink,
    } = devices;
    Ok(top(rt, alloc, words.as_slice(), source, store, sink, gate))
}

// What comes of a command line that no schedule changes: the status; of the report the end, how many profiles were made and
// refused, and how many lines the summary has, or else what was written; the names of the files; and whether workers made entries.
fn called<R: Threads + Wait + Sync>(
    rt: &R,
    alloc: Global,
    line: &str,
    file: &str,
) -> Result<Page, Unanswered> {
    let mut devices = Devices::new(alloc, file, Failing::NONE)?;
    let gate = Entering {
        entered: AtomicBool::new(false),
    };
    let outcome = call(rt, alloc, &mut devices, line, &gate)?;
    let mut page = Page::new(alloc);
    page.number("", u64::from(outcome.status))?;
    let written = devices.sink.held.written().as_slice();
    match outcome.report.as_ref() {
        Some(report) => {
            tell_end(&mut page, report)?;
            page.number(" profiles ", report.goroutine_records.len() as u64)?;
            page.number(" refused ", report.refused.len() as u64)?;
            page.number(" lines ", line_feeds(written))?;
        }
        None => page.written(written)?,
    }
    tell_names(&mut page, devices.store.files())?;
    page.debug(", on threads: ", &gate.entered.load(Ordering::SeqCst))?;
    Ok(page)
}

// Calls a command line so many times, and tells what came of the first call and how often it came so.
fn tell<R: Threads + Wait + Sync>(
    rt: &R,
    alloc: Global,
    page: &mut Page,
    times: u32,
    line: &str,
    file: &str,
) -> Result<(), Unanswered> {
    let first = called(rt, alloc, line, file)?;
    let mut same = 0_u64;
    for _ in 0..times {
        let next = called(rt, alloc, line, file)?;
        if next.as_str() == first.as_str() {
            same = same.saturating_add(1);
        }
    }
    page.line(line)?;
    page.line("  ")?;
    page.text(first.as_str())?;
    page.number(", so many times: ", same)?;
    Ok(())
}

/// Tells what comes of them.
pub fn runs<R: Threads + Wait + Sync>(rt: &R, alloc: Global) -> Result<Page, Unanswered> {
    let mut page = Page::new(alloc);
    for (times, line, file) in CALLS {
        tell(rt, alloc, &mut page, times, line, file)?;
    }
    Ok(page)
}
