ghost use Rattle.std.specs.Prelude.{◌≡◌, ◌≤◌, length, None, IfOk};

use crate::source::{Failed, Source};
use std::fs::File;
use std::io;
use std::io::Read;
use std::marker::Model;
use std::rt::Files;

/// A file of the system, which is opened at its first read. An opening that fails is a fault of that read, and is
/// tried again at the next. Contracts see its path and its count of faults.
#[derive(Drop)]
pub struct FileSource<'a, R: Files> {
    rt: &'a R,
    path: &'a str,
    file: Option<R::File>,
    faults: u64,
}

impl<'a, R: Files> Model for FileSource<'a, R> {
    ghost use Rattle.gp_io.specs.OfSystem.{SourceOfFile};

    ghost Value = { SourceOfFile };

    ghost view = { λ s. record { path = s.path.now; faults = s.faults } };
}

impl<'a, R: Files> FileSource<'a, R> {
    /// A source of the file under this path, whether there is one or not.
    pub fn new(rt: &'a R, path: &'a str) -> FileSource<'a, R>
        ensures { result ≡ record { path = path.now; faults = 0 } }
    {
        FileSource {
            rt,
            path,
            file: None,
            faults: 0,
        }
    }
}

// Reads a file that may have to be opened first.
fn read_opened<R: Files>(
    rt: &R,
    path: &str,
    file: &mut Option<R::File>,
    to: &mut [u8],
) -> io::Result<usize>
    ensures { IfOk result (λ n. n ≤ length to.old) }
{
    if let Some(file) = file {
        return file.read(to);
    }
    let mut opened = File::open(rt, path)?;
    let n = opened.read(to);
    *file = Some(opened);
    n
}

impl<'a, R: Files> Source for FileSource<'a, R> {
    ghost faults = { λ s. s.faults };

    ghost left = { λ _. None };

    fn read(&mut self, to: &mut [u8]) -> Result<usize, Failed> {
        match read_opened(self.rt, self.path, &mut self.file, to) {
            Ok(n) => Ok(n),
            Err(_) => {
                self.faults = self.faults.saturating_add(1);
                Err(Failed)
            }
        }
    }
}
