/// What a book keeps under a number: four numbers, whose meaning is the caller's.
#[derive(Clone, Copy, Debug, PartialEq, Eq)]
pub struct Row {
    pub a: u64,
    pub b: u64,
    pub c: u64,
    pub d: u64,
}
