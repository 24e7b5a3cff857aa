ghost use Rattle.std.specs.Prelude.{◌≡◌};
ghost use Rattle.gp_text.specs.Fault.{kind_of};

use crate::space::Space;
use crate::verb::Verb;
use crate::words::Words;
use std::marker::Model;

/// A name in the file's bytes, which contracts see as the list of its bytes.
#[derive(Drop)]
pub(crate) struct Name<'a> {
    bytes: &'a [u8],
}

impl<'a> Model for Name<'a> {
    ghost use Rattle.std.specs.Prelude.{List, ℕ};
    ghost use Rattle.std.specs.Coded.{coded_list, coded_ℕ};

    ghost Value = { List ℕ };

    ghost coded = { coded_list coded_ℕ };

    ghost view = { λ n. n.bytes.now };
}

impl<'a> Name<'a> {
    /// The name that these bytes are.
    pub(crate) fn new(bytes: &'a [u8]) -> Name<'a>
        ensures { result ≡ bytes.now }
    {
        Name { bytes }
    }

    /// The name's bytes, where they stand in the file.
    pub(crate) fn bytes(&self) -> &'a [u8]
        ensures { result.now ≡ self.now }
    {
        self.bytes
    }
}

/// What a line declares under a name.
#[derive(Drop)]
pub(crate) enum Declared<'a> {
    /// `func NAME {`
    Function,
    /// `chan NAME NUM`
    Channel { capacity: u128 },
    /// `mutex NAME`
    Mutex,
    /// `labels NAME PAIR..`, the pairs as they are written.
    LabelSet { pairs: Words<'a> },
}

/// What a line says at its place, inside a function or outside.
#[derive(Drop)]
pub(crate) enum Said<'a> {
    /// It isn't UTF-8.
    NotUtf8,
    /// It has no form that is allowed there.
    Nonsense,
    /// It has no words, or is a comment.
    Silent,
    /// It declares a name. A function is opened by it.
    Declares {
        name: Name<'a>,
        declared: Declared<'a>,
    },
    /// `loop NUM {`
    Loop {
        turns: u128,
    },
    /// `work NUM`
    Work {
        n: u128,
    },
    /// `call NAME` and the like.
    Use {
        verb: Verb,
        name: Name<'a>,
    },
    /// `}`
    Close,
}

/// The space of a declaration's name.
pub(crate) fn kind(declared: &Declared) -> Space
    ensures { result ≡ kind_of declared.now }
{
    match declared {
        Declared::Function => Space::Functions,
        Declared::Channel { .. } => Space::Channels,
        Declared::Mutex => Space::Mutexes,
        Declared::LabelSet { .. } => Space::LabelSets,
    }
}
