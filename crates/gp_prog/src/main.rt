//! The program `gp`: it takes its words from the command line, makes the outside, and hands both to the top call.
#![tactic(auto)]

use gp_io::{FileSource, FolderStore, StandardOutput};
use gp_top::{status, top};
use gp_workers::NoGate;
use std::env::Env;
use std::io::ErrorKind;
use std::process::ExitCode;
use std::{env, io};

// The status where an argument isn't text.
const NOT_TEXT: u8 = 11;

// The words behind the program's name.
fn words(rt: &(impl Env + AllocGlobal)) -> io::Result<Vec<String>> {
    let mut words = env::args(rt)?;
    let _ = words.next();
    Ok(words.collect(rt.alloc())?)
}

fn main(rt: HostRuntime) -> ExitCode {
    let words = match words(&rt) {
        Ok(words) => words,
        Err(error) if error.kind() == ErrorKind::OutOfMemory => {
            return ExitCode::from(status::MEMORY);
        }
        Err(_) => return ExitCode::from(NOT_TEXT),
    };
    let path = words.get(1).map_or("", |word| word.as_str());
    let mut source = FileSource::new(&rt, path);
    let mut store = FolderStore::new(&rt, rt.alloc());
    let mut out = StandardOutput::new(&rt);
    let outcome = top(
        &rt,
        rt.alloc(),
        words.as_slice(),
        &mut source,
        &mut store,
        &mut out,
        &NoGate,
    );
    ExitCode::from(outcome.status)
}
