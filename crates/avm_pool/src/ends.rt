//! How attempts and threads end.

/// How an attempt of a call ends.
#[derive(Clone, Copy, Debug, PartialEq, Eq)]
pub(crate) enum AttemptEnd {
    Committed,
    /// A further attempt may end otherwise.
    Again,
    /// The call stays as it is: another thread has it or it is committed, or memory was refused to it.
    Skipped,
    /// The last timestamp was given.
    ClockEnd,
}

/// How threads end.
#[derive(Clone, Copy, Debug, PartialEq, Eq)]
pub(crate) enum ThreadEnd {
    /// No number was left.
    Over,
    /// A thread could not be started. Those that were started have ended.
    NotStarted,
    /// The last timestamp was given.
    ClockEnd,
}
