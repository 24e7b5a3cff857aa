ghost use Rattle.std.specs.Prelude.{◌≡◌, None};

use crate::sink::Sink;
use crate::source::Failed;
use std::marker::Model;

/// The standard output. Contracts see its count of faults.
#[derive(Drop)]
pub struct StandardOutput<'a, R: Print> {
    rt: &'a R,
    faults: u64,
}

impl<'a, R: Print> Model for StandardOutput<'a, R> {
    ghost use Rattle.std.specs.Prelude.{ℕ};

    ghost Value = { ℕ };

    ghost view = { λ s. s.faults };
}

impl<'a, R: Print> StandardOutput<'a, R> {
    /// The output of this runtime.
    pub fn new(rt: &'a R) -> StandardOutput<'a, R>
        ensures { result ≡ 0 }
    {
        StandardOutput { rt, faults: 0 }
    }
}

impl<'a, R: Print> Sink for StandardOutput<'a, R> {
    ghost faults = { λ s. s };

    ghost written = { λ _. None };

    /// A write that takes nothing of a piece that isn't empty is a fault.
    fn write(&mut self, piece: &[u8]) -> Result<usize, Failed> {
        match self.rt.write_some(piece) {
            Ok(n) if n > 0 || piece.is_empty() => Ok(n),
            _ => {
                self.faults = self.faults.saturating_add(1);
                Err(Failed)
            }
        }
    }
}
