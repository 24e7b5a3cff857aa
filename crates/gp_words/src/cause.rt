/// There is no word, or the first is no command. The place is 0.
pub const BAD_COMMAND: u8 = 1;

/// A word is needed and there is none. The place is the number of words.
pub const MISSING: u8 = 2;

/// The word in an option's place is none of this command's options.
pub const UNKNOWN_OPTION: u8 = 3;

/// An option's value is outside its table. The place is the value's.
pub const BAD_NUMBER: u8 = 4;

/// An option was given before, or `--at` eight times before.
pub const TWICE: u8 = 5;

/// A word stands behind a whole command, or the word for a file is empty or begins with `-`.
pub const EXTRA: u8 = 6;
