ghost use Rattle.std.specs.Prelude.{◌≡◌, ◌<◌, ◌≤◌, ◌+◌};
ghost use Rattle.gp_layout.specs.Place.{skip_of, start_of};

/// Where a record comes: `skip` words are passed over, the first of which becomes the mark 0, and it starts at `start`.
#[derive(Clone, Copy, Debug, PartialEq, Eq)]
pub struct Placed {
    pub skip: u32,
    pub start: u32,
}

/// Where a record of `need` words comes whose next place is `at`, in a ring of `len` data words.
pub fn place(at: u32, len: u32, need: u32) -> Placed
    requires { at < len }
    ensures skip { result.skip ≡ skip_of at len need }
    ensures start { result.start ≡ start_of at len need }
    ensures within { need ≤ len → result.start + need ≤ len }
{
    if need > len - at {
        Placed {
            skip: len - at,
            start: 0,
        }
    } else {
        Placed { skip: 0, start: at }
    }
}
