ghost use Rattle.std.specs.Prelude.{◌≡◌};

use std::marker::Model;

/// Bytes where they stand, which contracts see as their list.
#[derive(Drop)]
pub(crate) struct Bytes<'a> {
    inner: &'a [u8],
}

impl<'a> Model for Bytes<'a> {
    ghost use Rattle.std.specs.Prelude.{List, ℕ};
    ghost use Rattle.std.specs.Coded.{coded_list, coded_ℕ};

    ghost Value = { List ℕ };

    ghost coded = { coded_list coded_ℕ };

    ghost view = { λ b. b.inner.now };
}

impl<'a> Bytes<'a> {
    pub(crate) fn new(inner: &'a [u8]) -> Bytes<'a>
        ensures { result ≡ inner.now }
    {
        Bytes { inner }
    }

    pub(crate) fn as_slice(&self) -> &'a [u8]
        ensures { result.now ≡ self.now }
    {
        self.inner
    }
}

/// What stands under a field's number, by the wire type of the field's key.
#[derive(Drop)]
pub(crate) enum Value<'a> {
    /// Wire type 0: a varint.
    Number(u64),
    /// Wire type 2: a part of bytes, whose length stands before it.
    Part(Bytes<'a>),
    /// Wire type 1: eight bytes.
    Eight(Bytes<'a>),
    /// Wire type 5: four bytes.
    Four(Bytes<'a>),
}

/// A field of a message.
#[derive(Drop)]
pub(crate) struct Field<'a> {
    pub(crate) number: u32,
    pub(crate) value: Value<'a>,
}
