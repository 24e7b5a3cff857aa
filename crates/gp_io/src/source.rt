ghost use Rattle.std.specs.Prelude.{◌≡◌, ℕ, ◌<◌, ◌≤◌, List, [], length, take, Option, IfOk, IfSome, OnOk, OnErr};
ghost use Rattle.gp_io.specs.Outside.{Rose, Takes};

/// The outside refused a call.
#[derive(Clone, Copy, Debug, PartialEq, Eq)]
pub struct Failed;

/// Bytes that are read once, from front to back.
pub trait Source {
    /// How many calls failed.
    ghost faults: { Self → ℕ };

    /// The bytes that are left to read, where they are told.
    ghost left: { Self → Option (List ℕ) };

    /// Moves a prefix of what is left to the front of `to`, and answers its length. An answer of 0 at a `to`
    /// that isn't empty is the end.
    fn read(&mut self, to: &mut [u8]) -> Result<usize, Failed>
        ensures within { IfOk result (λ n. n ≤ length to.old) }
        ensures taken { IfOk result (λ n. Takes (left self.old) (take n to.new) (left self.new)) }
        ensures end { IfOk result (λ n. n ≡ 0 → 0 < length to.old → IfSome (left self.old) (λ held. held ≡ [])) }
        ensures well { OnOk result (faults self.new ≡ faults self.old) }
        ensures failed { OnErr result (Rose (faults self.old) (faults self.new)) };
}
