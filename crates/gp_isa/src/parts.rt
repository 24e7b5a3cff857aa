use crate::sequence::Sequence;
use crate::statement::Stmts;
use crate::text::Text;

/// The functions in file order. A statement names one by its index, counted from 0.
pub type Functions = Sequence<Function>;

/// The channels in file order. A statement names one by its index, counted from 0.
pub type Channels = Sequence<ChannelDecl>;

/// The mutexes in file order. A statement names one by its index, counted from 0.
pub type Mutexes = Sequence<MutexDecl>;

/// The label sets in file order. A statement names one by its index plus 1; set 0 is the empty one and isn't listed.
pub type LabelSets = Sequence<LabelSet>;

/// The pairs of a label set, sorted by the bytes of their keys.
pub type Pairs = Sequence<Pair>;

/// What a program file declares, each list in file order.
#[derive(Debug, Drop)]
pub struct Parts {
    pub functions: Functions,
    pub channels: Channels,
    pub mutexes: Mutexes,
    pub labels: LabelSets,
}

/// A function. `line` is that of its header, and `end` that of its closing brace, both counted from 1.
#[derive(Debug, Drop)]
pub struct Function {
    pub name: Text,
    pub line: u32,
    pub end: u32,
    pub body: Stmts,
}

/// A channel, which holds up to `capacity` values. `line` is that of its declaration, counted from 1.
#[derive(Debug, Drop)]
pub struct ChannelDecl {
    pub name: Text,
    pub line: u32,
    pub capacity: u32,
}

/// A mutex. `line` is that of its declaration, counted from 1.
#[derive(Debug, Drop)]
pub struct MutexDecl {
    pub name: Text,
    pub line: u32,
}

/// A label set, its pairs sorted by the bytes of their keys, no key twice. `line` is that of its declaration,
/// counted from 1.
#[derive(Debug, Drop)]
pub struct LabelSet {
    pub name: Text,
    pub line: u32,
    pub pairs: Pairs,
}

/// A label: its key of 1 to 64 bytes, and its value of at most 64.
#[derive(Debug, Drop)]
pub struct Pair {
    pub key: Text,
    pub value: Text,
}
