//! Attempts whose calls have ended.

ghost use Rattle.std.specs.Prelude.{◌≡◌};
ghost use Rattle.mv_parts.specs.Commits.{IsOwnCall, reading};

use crate::naming::Naming;
use avm_items::ItemMap;
use avm_run::Finished;
use mv_shards::Attempt;
use std::marker::PhantomData;

/// An attempt whose own call has ended: that of its number, for the header of the run. What the attempt has read is what the
/// call was given, and its list is the call's.
#[derive(Drop)]
pub(crate) struct OwnCall<J: Naming> {
    attempt: Attempt,
    finished: Finished,
    of: PhantomData<J>,
    ghost own: { IsOwnCall J.calls J.header (reading attempt finished) finished },
}

impl<J: Naming> OwnCall<J> {
    /// An attempt and its own call.
    pub fn new(attempt: Attempt, finished: Finished) -> OwnCall<J>
        requires { IsOwnCall J.calls J.header (reading attempt finished) finished }
    {
        OwnCall {
            attempt,
            finished,
            of: PhantomData,
        }
    }

    /// The number of the call.
    pub fn number(&self) -> u32 {
        self.attempt.number()
    }

    /// What the attempt has read.
    pub fn reads(&self) -> &ItemMap {
        self.finished.reads()
    }

    /// What the call writes.
    pub fn writes(&self) -> &ItemMap {
        self.finished.writes()
    }

    /// The attempt alone.
    pub fn into_attempt(self) -> Attempt {
        self.attempt
    }

    /// The attempt and the call.
    pub fn into_parts(self) -> (Attempt, Finished)
        ensures { IsOwnCall J.calls J.header (reading result.0 result.1) result.1 }
    {
        (self.attempt, self.finished)
    }
}
