/// The run ended by `main`, no profile was refused, all files were put and the summary was written; or the text of a profile
/// was written.
pub const DONE: u8 = 0;

/// The words give no job.
pub const USAGE: u8 = 1;

/// The bytes are no program, or no profile for `dump`, or too many.
pub const REFUSED: u8 = 2;

/// The source failed.
pub const READ_FAULT: u8 = 3;

/// The store or the sink failed.
pub const PUT_FAULT: u8 = 4;

/// The run ended by a fault: an unlock of a free mutex, or no cell left for a goroutine to be born.
pub const FAULT: u8 = 5;

/// The run ended by deadlock.
pub const DEADLOCK: u8 = 6;

/// The run ended by `main`, and a profile was refused since its room was too small.
pub const PROFILE_REFUSED: u8 = 7;

/// The run ended with a full journal.
pub const FULL: u8 = 8;

/// Want of memory.
pub const MEMORY: u8 = 9;
