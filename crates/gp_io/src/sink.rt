ghost use Rattle.std.specs.Prelude.{◌≡◌, ℕ, ◌<◌, ◌≤◌, List, length, take, Option, IfOk, OnOk, OnErr};
ghost use Rattle.gp_io.specs.Outside.{Rose, Appends, AppendsSome};

use crate::source::Failed;

/// Where text goes.
pub trait Sink {
    /// How many calls failed.
    ghost faults: { Self → ℕ };

    /// The bytes that were taken, where they are told.
    ghost written: { Self → Option (List ℕ) };

    /// Appends the first bytes of the piece, and answers how many: at least one where the piece isn't empty.
    /// A call that fails may have appended a prefix of the piece, empty or not.
    fn write(&mut self, piece: &[u8]) -> Result<usize, Failed>
        ensures within { IfOk result (λ n. n ≤ length piece.now) }
        ensures some { IfOk result (λ n. 0 < length piece.now → 0 < n) }
        ensures appended { IfOk result (λ n. Appends (written self.old) (take n piece.now) (written self.new)) }
        ensures prefix { OnErr result (AppendsSome (written self.old) piece.now (written self.new)) }
        ensures well { OnOk result (faults self.new ≡ faults self.old) }
        ensures failed { OnErr result (Rose (faults self.old) (faults self.new)) };
}
