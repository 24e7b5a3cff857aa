ghost use Rattle.std.specs.Prelude.{◌≡◌, Some};

use gp_io::{Failed, MemSink, Sink};

/// A sink that takes one byte at a time.
#[derive(Drop)]
pub struct OneByte {
    pub held: MemSink,
}

impl Sink for OneByte {
    ghost faults = { λ s. s.held.plan.faults };

    ghost written = { λ s. Some s.held.written };

    fn write(&mut self, piece: &[u8]) -> Result<usize, Failed> {
        let first = piece.len().min(1);
        self.held.write(&piece[..first])
    }
}
