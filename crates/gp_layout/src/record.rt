ghost use Rattle.std.specs.Prelude.{◌≡◌, ◌+◌, slice_index};
ghost use Rattle.gp_layout.specs.Spelling.{StandsAt};

/// The parts of a record among words: its time, the places where its header and its stack begin, and where it ends.
#[derive(Clone, Copy, Debug, PartialEq, Eq)]
pub struct Laid {
    pub time: u64,
    pub header: usize,
    pub stack: usize,
    pub end: usize,
}

/// The parts of the record that stands at place `at`, whose header has `hdrsize` words.
pub fn decode_at(words: &[u64], at: usize, hdrsize: u32) -> Laid
    requires { StandsAt words.now at hdrsize }
    ensures time { result.time ≡ slice_index words.now (at + 1) }
    ensures header { result.header ≡ at + 2 }
    ensures stack { result.stack ≡ at + 2 + hdrsize }
    ensures end { result.end ≡ at + slice_index words.now at }
{
    let header = at + 2;
    Laid {
        time: words[at + 1],
        header,
        stack: header + hdrsize as usize,
        end: at + words[at] as usize,
    }
}
