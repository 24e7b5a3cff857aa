ghost use Rattle.std.specs.Prelude.{◌≡◌};
ghost use Rattle.gp_isa.specs.Limits as limit;

/// The most bytes of a program file.
pub const FILE_BYTES: usize = 1_048_576;

/// The most bytes of a profile that is read.
pub const PROFILE_BYTES: usize = 67_108_864;

/// The most bytes of a name, of a label's key and of its value.
pub const NAME_BYTES: usize = 64;

/// The most digits of a number in a file or among the command words.
pub const NUMBER_DIGITS: usize = 20;

/// The most functions of a program.
pub const FUNCTIONS: usize = 256;

/// The most channels of a program.
pub const CHANNELS: usize = 1024;

/// The most mutexes of a program.
pub const MUTEXES: usize = 1024;

/// The most label sets of a program, the empty set 0 not counted.
pub const LABEL_SETS: usize = 255;

/// The most pairs of a label set.
pub const PAIRS: usize = 16;

/// The most values that a channel holds.
pub const CAPACITY: u32 = 65_535;

/// The most instructions of one `work`, and turns of one `loop`.
pub const COUNT: u32 = 4_294_967_295;

/// The most loops that stand inside each other.
pub const LOOPS: u8 = 8;

/// The most points of a trace.
pub const POINTS: u64 = 1 << 40;

/// The most workers of a run.
pub const WORKERS: u32 = 16;

/// The most cells of a run: as many goroutines may be born.
pub const CELLS: u32 = 16_384;

/// The most goroutine profiles that are asked for.
pub const REQUESTS: usize = 8;

/// The largest room of a goroutine profile, in records.
pub const ROOM: u32 = 16_384;

/// The highest clock at which a profile is asked for, in instructions.
pub const INSTANT: u64 = 1 << 40;

/// The fewest entries at which a journal is full.
pub const LEAST_ENTRIES: u32 = 16;

/// The most entries at which a journal is full.
pub const ENTRIES: u32 = 4_194_304;

/// The instructions of a second.
pub const INSTRUCTIONS_PER_SECOND: u32 = 1_000_000;

/// The highest rate of the block profile.
pub const BLOCK_RATE: u32 = 1;

/// The highest fraction of the mutex profile.
pub const MUTEX_FRACTION: u32 = 1_000_000_000;

/// The fewest words of the ring of CPU samples.
pub const LEAST_RING_WORDS: u32 = 16;

/// The most words of the ring of CPU samples.
pub const RING_WORDS: u32 = 1_048_576;

/// The most tags of the ring of CPU samples.
pub const TAGS: u32 = 1_048_576;

/// The most numbers of `--picks`.
pub const PICKS: usize = 100_000;

/// The quantum: the most instructions that a goroutine runs before it makes way.
pub const QUANTUM: u64 = 1000;

/// The nanoseconds that an instruction counts as.
pub const INSTRUCTION_TIME: u64 = 1000;

/// The most frames of a stack in a goroutine profile, from the leaf on.
pub const GOROUTINE_FRAMES: u32 = 32;

/// The most frames of a stack in a block profile, from the leaf on.
pub const BLOCK_FRAMES: u32 = 32;

/// The most frames of a stack in a mutex profile, from the leaf on.
pub const MUTEX_FRAMES: u32 = 32;

/// The most frames of a stack in a CPU profile, from the leaf on.
pub const CPU_FRAMES: u32 = 64;

/// The constants are the limits of the definitions (`specs/Limits.antt`): neither can change alone. These are the
/// limits of files that are read, programs and profiles.
pub fn law_file_limits()
    ensures file_bytes { FILE_BYTES ≡ limit.file_bytes }
    ensures profile_bytes { PROFILE_BYTES ≡ limit.profile_bytes }
    ensures name_bytes { NAME_BYTES ≡ limit.name_bytes }
    ensures number_digits { NUMBER_DIGITS ≡ limit.number_digits }
    ensures functions { FUNCTIONS ≡ limit.most_functions }
    ensures channels { CHANNELS ≡ limit.most_channels }
    ensures mutexes { MUTEXES ≡ limit.most_mutexes }
    ensures label_sets { LABEL_SETS ≡ limit.most_label_sets }
    ensures pairs { PAIRS ≡ limit.most_pairs }
    ensures capacity { CAPACITY ≡ limit.most_capacity }
    ensures count { COUNT ≡ limit.most_count }
    ensures loops { LOOPS ≡ limit.most_loops }
    ensures points { POINTS ≡ limit.most_points }
{}

/// And these those of runs and of their profiles.
pub fn law_run_limits()
    ensures workers { WORKERS ≡ limit.most_workers }
    ensures cells { CELLS ≡ limit.most_cells }
    ensures requests { REQUESTS ≡ limit.most_requests }
    ensures room { ROOM ≡ limit.most_room }
    ensures instant { INSTANT ≡ limit.most_instant }
    ensures least_entries { LEAST_ENTRIES ≡ limit.least_entries }
    ensures entries { ENTRIES ≡ limit.most_entries }
    ensures second { INSTRUCTIONS_PER_SECOND ≡ limit.instructions_per_second }
    ensures block_rate { BLOCK_RATE ≡ limit.most_block_rate }
    ensures mutex_fraction { MUTEX_FRACTION ≡ limit.most_mutex_fraction }
    ensures least_ring_words { LEAST_RING_WORDS ≡ limit.least_ring_words }
    ensures ring_words { RING_WORDS ≡ limit.most_ring_words }
    ensures tags { TAGS ≡ limit.most_tags }
    ensures picks { PICKS ≡ limit.most_picks }
    ensures quantum { QUANTUM ≡ limit.quantum }
    ensures instruction_time { INSTRUCTION_TIME ≡ limit.instruction_time }
    ensures goroutine_frames { GOROUTINE_FRAMES ≡ limit.goroutine_frames }
    ensures block_frames { BLOCK_FRAMES ≡ limit.block_frames }
    ensures mutex_frames { MUTEX_FRAMES ≡ limit.mutex_frames }
    ensures cpu_frames { CPU_FRAMES ≡ limit.cpu_frames }
{}
