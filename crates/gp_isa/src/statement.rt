use sqlite_items::{Boxed, Items};

/// The statements of a function or a loop, in their order.
pub type Stmts = Items<Stmt>;

/// A statement and the line on which it stands, counted from 1. It takes 32 bytes, beside the body of a loop, which
/// stands in a box of its own.
#[cycle(statement)]
#[derive(Debug, Drop)]
pub struct Stmt {
    pub line: u32,
    pub what: What,
}

/// What a statement does. Numbers of functions, channels and mutexes count from 0 in file order, and label
/// sets from 1, set 0 being the empty one.
#[cycle(statement)]
#[derive(Debug, Drop)]
pub enum What {
    /// `n` instructions of work.
    Work {
        n: u32,
    },
    /// The points of function `f`.
    Call {
        f: u32,
    },
    /// The body `n` times; `end` is the line of the closing brace.
    Loop {
        n: u32,
        body: Boxed<Items<Stmt>>,
        end: u32,
    },
    /// A send into channel `c`.
    Send {
        c: u32,
    },
    /// A receive from channel `c`.
    Recv {
        c: u32,
    },
    /// The lock of mutex `m`.
    Lock {
        m: u32,
    },
    /// The unlock of mutex `m`.
    Unlock {
        m: u32,
    },
    /// A new goroutine that runs function `f`.
    Spawn {
        f: u32,
    },
    /// Label set `s` in place of the goroutine's labels.
    Labels {
        s: u8,
    },
}
