/// One wait list of those of the channels and mutexes, by the number of its channel or mutex.
#[derive(Clone, Copy, Debug)]
pub enum WaitList {
    Senders(usize),
    Receivers(usize),
    /// Who waits for a mutex.
    Lockers(usize),
}
