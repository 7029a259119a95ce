//! Where a worker may be held.

/// What a worker has come to.
#[derive(Clone, Copy, Debug, PartialEq, Eq)]
pub enum GateEvent {
    /// An attempt of its call has begun.
    Begun,
    /// It has read an item.
    Read,
    /// It is reading an item of the shard of this index, whose lock it holds.
    Inside(u8),
    /// The call has ended, and is about to be committed.
    BeforeCommit,
    /// The call is committed.
    Committed,
}

/// Whoever is told of each event, and may hold the worker there. A worker holds no lock while it tells of one, but for
/// [`GateEvent::Inside`].
pub trait Gate: Sync {
    /// A worker has come to an event of the call of this number, from 1, in its first, second or further attempt. The
    /// attempt is 0 for the one thread that runs what the workers left; it stays at the greatest number.
    fn pause(&self, number: u32, attempt: u32, event: GateEvent);
}

/// A gate that holds nobody.
#[derive(Clone, Copy, Debug, Default)]
pub struct OpenGate;

impl Gate for OpenGate {
    fn pause(&self, _number: u32, _attempt: u32, _event: GateEvent) {}
}
