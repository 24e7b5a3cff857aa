ghost use Rattle.std.specs.Prelude.{◌≡◌};
ghost use Rattle.gp_words.specs.declared.setting.Values.TheVariants.{Numbers};
ghost use Rattle.gp_words.specs.Table.{values_of, most_times, same};

use gp_isa::limits;

/// What an option sets.
#[derive(Clone, Copy, PartialEq, Eq)]
pub(crate) enum Setting {
    Workers,
    At,
    Room,
    Hz,
    Block,
    Mutex,
    Seed,
    Cells,
    Entries,
    Ring,
    Tags,
    Picks,
}

/// The values that an option may have.
#[derive(Clone, Copy)]
pub(crate) enum Values {
    /// A number from `least` to `most`.
    Numbers { least: u64, most: u64 },
    /// A number from 1 on that divides another.
    Divisors { whole: u64 },
    /// A clock up to 2^40 instructions, or `end`.
    Instants,
    /// One to 100,000 numbers below 2^32, joined by commas.
    Lists,
}

/// The numbers from `least` to `most`.
fn numbers(least: u32, most: u32) -> Values
    ensures { result ≡ Numbers least most }
{
    Values::Numbers {
        least: u64::from(least),
        most: u64::from(most),
    }
}

impl Setting {
    /// The values that it may have.
    pub fn values(self) -> Values
        ensures { result ≡ values_of self }
    {
        match self {
            Setting::Workers => numbers(1, limits::WORKERS),
            Setting::At => Values::Instants,
            Setting::Room => numbers(0, limits::ROOM),
            Setting::Hz => Values::Divisors {
                whole: u64::from(limits::INSTRUCTIONS_PER_SECOND),
            },
            Setting::Block => numbers(0, limits::BLOCK_RATE),
            Setting::Mutex => numbers(0, limits::MUTEX_FRACTION),
            Setting::Seed => Values::Numbers {
                least: 0,
                most: u64::MAX,
            },
            Setting::Cells => numbers(1, limits::CELLS),
            Setting::Entries => numbers(limits::LEAST_ENTRIES, limits::ENTRIES),
            Setting::Ring => numbers(limits::LEAST_RING_WORDS, limits::RING_WORDS),
            Setting::Tags => numbers(1, limits::TAGS),
            Setting::Picks => Values::Lists,
        }
    }

    /// How often it may be given.
    pub fn most_times(self) -> usize
        ensures { result ≡ most_times self }
    {
        if self.is(Setting::At) {
            limits::REQUESTS
        } else {
            1
        }
    }

    /// Whether two options set the same.
    pub fn is(self, other: Setting) -> bool
        ensures { result ≡ same self other }
    {
        self == other
    }
}
