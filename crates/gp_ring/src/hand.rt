ghost use Rattle.std.specs.Prelude.{◌≡◌, ◌≤◌};
ghost use Rattle.gp_ring.specs.kept.Fields.{words_in, IsWithin};

// What a look saw: the end mark, the overflow word and `w`, loaded in this order.
#[derive(Clone, Copy, Debug)]
pub(crate) struct Look {
    pub(crate) ended: bool,
    pub(crate) overflow: u64,
    pub(crate) w: u64,
}

// A part of the ring's words, or of their copy.
#[derive(Clone, Copy, Debug)]
pub(crate) struct Part {
    pub(crate) copied: bool,
    pub(crate) from: usize,
    pub(crate) to: usize,
}

// What an act found, until the next call.
#[derive(Clone, Copy, Debug)]
pub(crate) enum Hand {
    Batch { words: Part, tags: Part },
    Lost { count: u64, time: u64 },
    Raced { was: u64, found: u64 },
    Nothing,
    End,
}

impl Part {
    pub(crate) fn of<'a>(&self, ring: &'a [u64], copy: &'a [u64]) -> &'a [u64]
        requires order { self.now.from ≤ self.now.to }
        requires within { IsWithin self.now ring.now copy.now }
        ensures { result.now ≡ words_in self.now ring.now copy.now }
    {
        if self.copied {
            &copy[self.from..self.to]
        } else {
            &ring[self.from..self.to]
        }
    }
}
