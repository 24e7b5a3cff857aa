ghost use Rattle.std.specs.Prelude.{◌≡◌, ℕ, List, Option, OnOk, OnErr};
ghost use Rattle.gp_io.specs.Outside.{Rose, RoseBy, File, Puts, KeepsOthers};

use crate::source::Failed;

/// Files under names.
pub trait Store {
    /// How many calls failed.
    ghost faults: { Self → ℕ };

    /// The files in the order in which they were put, where they are told.
    ghost files: { Self → Option (List File) };

    /// How many puts it was asked for, where that is told.
    ghost asked: { Self → Option ℕ };

    /// Puts a file whole under its name, in place of one that stood there.
    fn put(&mut self, name: &str, bytes: &[u8]) -> Result<(), Failed>
        ensures put { OnOk result (Puts (files self.old) name.now bytes.now (files self.new)) }
        ensures others { OnErr result (KeepsOthers (files self.old) name.now (files self.new)) }
        ensures counted { RoseBy 1 (asked self.old) (asked self.new) }
        ensures well { OnOk result (faults self.new ≡ faults self.old) }
        ensures failed { OnErr result (Rose (faults self.old) (faults self.new)) };
}
