ghost use Rattle.std.specs.Prelude.{◌≡◌};
ghost use Rattle.gp_text.specs.Number.{number_of};

/// Why a file is refused.
#[derive(Clone, Copy, Debug, PartialEq, Eq)]
pub enum Cause {
    /// The words match no form that is allowed at this place.
    BadLine,
    /// A name that is used and nowhere declared.
    UnknownName,
    /// A name that was declared before, in the same space.
    Twice,
    /// A number or a count of declarations outside its limits.
    OutOfRange,
    /// The file ends inside a function.
    NotClosed,
    /// The line isn't UTF-8.
    NotUtf8,
    /// The function can call itself.
    Recursion,
    /// The function's trace has more than 2^40 points.
    TooLong,
    /// The function has no statement.
    Empty,
    /// There is no function `main`.
    NoMain,
}

impl Cause {
    /// The cause's number in texts, from 1 to 10.
    pub fn number(self) -> u8
        ensures { result ≡ number_of self }
    {
        match self {
            Cause::BadLine => 1,
            Cause::UnknownName => 2,
            Cause::Twice => 3,
            Cause::OutOfRange => 4,
            Cause::NotClosed => 5,
            Cause::NotUtf8 => 6,
            Cause::Recursion => 7,
            Cause::TooLong => 8,
            Cause::Empty => 9,
            Cause::NoMain => 10,
        }
    }
}
