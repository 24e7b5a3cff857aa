ghost use Rattle.std.specs.Prelude.{◌≡◌};
ghost use Rattle.gp_wire.specs.Cause.{number_of};

/// Why bytes are no profile.
#[derive(Clone, Copy, Debug, PartialEq, Eq)]
pub enum Cause {
    /// The bytes of a message end inside a key, a number or a part.
    Truncated,
    /// The tenth byte of a varint is above 1, so that the number takes more than 64 bits.
    LongVarint,
    /// Wire type 3, 4, 6 or 7.
    BadWireType,
    /// A field number that is 0 or above 2^29 - 1.
    BadKey,
    /// A text of the string table isn't UTF-8.
    BadUtf8,
    /// A place in the string table that is used is below 0 or behind the table's end.
    BadStringIndex,
    /// The id of a location or a function is 0 or stands twice, or an id that is named isn't there.
    BadId,
    /// The string table is empty, or its first text isn't.
    BadFirstString,
}

impl Cause {
    /// The cause's number in texts, from 1 to 8.
    pub fn number(self) -> u8
        ensures { result ≡ number_of self }
    {
        match self {
            Cause::Truncated => 1,
            Cause::LongVarint => 2,
            Cause::BadWireType => 3,
            Cause::BadKey => 4,
            Cause::BadUtf8 => 5,
            Cause::BadStringIndex => 6,
            Cause::BadId => 7,
            Cause::BadFirstString => 8,
        }
    }
}
