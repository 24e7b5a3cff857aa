/// Why a command did nothing.
#[derive(Clone, Copy, Debug, PartialEq, Eq)]
pub enum Fault {
    /// The words give no job: the place of a word, counted from 0, and the cause.
    Usage { place: u32, cause: u8 },
    /// The bytes are no program: the line, counted from 1, or 0 for the whole file, and the cause.
    Line { line: u32, cause: u8 },
    /// The bytes are no profile: an offset in them, and the cause.
    At { at: usize, cause: u8 },
    /// There are more bytes than are read.
    Long,
    /// The file could not be opened or read.
    Read,
}
