ghost use Rattle.std.specs.Prelude.{◌≡◌, None};

use crate::source::Failed;
use crate::store::Store;
use crate::system::folder::SystemFolder;
use crate::system::put_whole::put_whole;
use std::alloc::Global;
use std::marker::Model;
use std::rt::Files;

/// The current folder of the system, where each file is put whole: it is written under another name, and then
/// renamed. Contracts see its count of faults.
#[derive(Drop)]
pub struct FolderStore<'a, R: Files> {
    rt: &'a R,
    alloc: Global,
    faults: u64,
}

impl<'a, R: Files> Model for FolderStore<'a, R> {
    ghost use Rattle.std.specs.Prelude.{ℕ};

    ghost Value = { ℕ };

    ghost view = { λ s. s.faults };
}

impl<'a, R: Files> FolderStore<'a, R> {
    /// The folder that the program runs in. `alloc` serves the names of the files before they are renamed.
    pub fn new(rt: &'a R, alloc: Global) -> FolderStore<'a, R>
        ensures { result ≡ 0 }
    {
        FolderStore {
            rt,
            alloc,
            faults: 0,
        }
    }
}

impl<'a, R: Files> Store for FolderStore<'a, R> {
    ghost faults = { λ s. s };

    ghost files = { λ _. None };

    ghost asked = { λ _. None };

    fn put(&mut self, name: &str, bytes: &[u8]) -> Result<(), Failed> {
        let mut folder = SystemFolder { rt: self.rt };
        match put_whole(self.alloc, &mut folder, name, bytes) {
            Ok(()) => Ok(()),
            Err(Failed) => {
                self.faults = self.faults.saturating_add(1);
                Err(Failed)
            }
        }
    }
}
