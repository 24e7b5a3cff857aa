/// The word of a statement that names a function, a channel, a mutex or a label set.
#[derive(Clone, Copy)]
pub(crate) enum Verb {
    Call,
    Spawn,
    Send,
    Recv,
    Lock,
    Unlock,
    Labels,
}
