use gp_isa::Sequence;

/// The goroutine profiles asked for, in the order in which they are served.
pub type Requests = Sequence<Request>;

/// Numbers by which a simulated run makes its choices.
pub type Picks = Sequence<u32>;

/// When a goroutine profile is asked for.
#[derive(Clone, Copy, Debug, PartialEq, Eq)]
pub enum Request {
    /// Once the clock, in instructions, is there.
    Clock { clock: u64 },
    /// Once the run is over.
    End,
}

/// The options of a run.
#[derive(Debug, Drop)]
pub struct Settings {
    /// How many workers there are.
    pub workers: u32,
    pub at: Requests,
    /// The most records of a goroutine profile.
    pub room: u32,
    /// CPU samples in a second, one instruction being 1,000 ns.
    pub hz: u32,
    /// 1 where block events are recorded.
    pub block: u32,
    /// One mutex event in so many is kept; 0 keeps none.
    pub mutex: u32,
    pub seed: u64,
    /// The most goroutines that are ever born.
    pub cells: u32,
    /// The number of entries at which the journal is full.
    pub entries: u32,
    /// Words of the ring for CPU samples.
    pub ring: u32,
    /// Tags of the ring.
    pub tags: u32,
    pub picks: Picks,
}
