//! What is done with a message that failed.

/// What is done with a message that failed.
#[derive(Clone, Copy, Debug, PartialEq, Eq)]
pub enum Move {
    /// It is tried again at once.
    Again,
    /// It is tried again after a delay in seconds, as this round.
    Later { round: u32, delay: u64 },
    /// It goes to the error queue.
    Error,
    /// It is given up, and noted.
    Discard,
}
