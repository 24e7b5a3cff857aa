/// Where a goroutine stands in one function: a line of function `function`, functions counted from 0 in file
/// order.
#[derive(Clone, Copy, Debug, PartialEq, Eq)]
pub struct Frame {
    pub function: u32,
    pub line: u32,
}
