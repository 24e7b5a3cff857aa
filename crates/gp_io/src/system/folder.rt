ghost use Rattle.std.specs.Prelude.{[], ◌∷◌, List, Option, None, OnOk, OnErr, IsErrOf};
ghost use Rattle.std.specs.Io.KnownBytes.{Appends};
ghost use Rattle.gp_io.specs.OfSystem.{Call, Made, Taken, NotMade as NotAllowed, Written, Cut, Renamed, NotRenamed, Removed, Makes};

use crate::source::Failed;
use std::fs::File;
use std::io::{ErrorKind, Write};
use std::rt::Files;

/// Why a new file was not made.
#[derive(Clone, Copy)]
pub(crate) enum NotMade {
    /// Something stands under this name.
    Taken,
    /// The system refused.
    Refused,
}

/// The calls of the system that a put makes.
pub(crate) trait Folder {
    /// A file that was made here, to be written.
    type File: Drop;

    /// The calls that were made, with their answers, where they are told.
    ghost calls: { Self → Option (List Call) };

    /// Makes a new file.
    fn create(&mut self, name: &str) -> Result<Self::File, NotMade>
        ensures made { OnOk result (Makes (calls self.old) (Made name.now ∷ []) (calls self.new)) }
        ensures taken { IsErrOf result NotMade.Taken → Makes (calls self.old) (Taken name.now ∷ []) (calls self.new) }
        ensures refused { IsErrOf result NotMade.Refused
            → Makes (calls self.old) (NotAllowed name.now ∷ []) (calls self.new) };

    /// Writes these bytes into a new file, and closes it. Ok where they were all written.
    fn write(&mut self, file: Self::File, bytes: &[u8]) -> Result<(), Failed>
        ensures written { OnOk result (Makes (calls self.old) (Written bytes.now ∷ []) (calls self.new)) }
        ensures cut { OnErr result (Makes (calls self.old) (Cut bytes.now ∷ []) (calls self.new)) };

    /// Gives a file another name, also one that is taken.
    fn rename(&mut self, from: &str, to: &str) -> Result<(), Failed>
        ensures renamed { OnOk result (Makes (calls self.old) (Renamed from.now to.now ∷ []) (calls self.new)) }
        ensures kept { OnErr result (Makes (calls self.old) (NotRenamed from.now to.now ∷ []) (calls self.new)) };

    /// Removes a file, where that can be done.
    fn remove(&mut self, name: &str)
        ensures { Makes (calls self.old) (Removed name.now ∷ []) (calls self.new) };
}

/// The folder that the program runs in. Each call is one of the system's.
#[derive(Drop)]
pub(crate) struct SystemFolder<'a, R: Files> {
    pub rt: &'a R,
}

// Writes these bytes behind those that the file holds.
fn write_whole<W: Write>(file: &mut W, bytes: &[u8]) -> Result<(), Failed>
    ensures { OnOk result (Appends (W.contents file.old) (W.contents file.new) bytes.now) }
{
    match file.write_all(bytes) {
        Ok(()) => Ok(()),
        Err(_) => Err(Failed),
    }
}

impl<'a, R: Files> Folder for SystemFolder<'a, R> {
    type File = R::File;

    ghost calls = { λ _. None };

    fn create(&mut self, name: &str) -> Result<R::File, NotMade> {
        match File::create_new(self.rt, name) {
            Ok(file) => Ok(file),
            Err(error) if error.kind() == ErrorKind::AlreadyExists => Err(NotMade::Taken),
            Err(_) => Err(NotMade::Refused),
        }
    }

    fn write(&mut self, file: R::File, bytes: &[u8]) -> Result<(), Failed> {
        let mut file = file;
        write_whole(&mut file, bytes)
    }

    fn rename(&mut self, from: &str, to: &str) -> Result<(), Failed> {
        match self.rt.rename(from, to) {
            Ok(()) => Ok(()),
            Err(_) => Err(Failed),
        }
    }

    fn remove(&mut self, name: &str) {
        let _ = self.rt.remove_file(name);
    }
}
