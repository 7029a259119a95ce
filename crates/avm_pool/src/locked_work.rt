//! A journal together with shards that are locked one after another.

ghost use Rattle.std.specs.Prelude.{◌≡◌, ◌<◌, ◌≤◌, IfSome, length};

use crate::logged_held::LoggedHeld;
use crate::logged_journal::LoggedJournal;
use crate::logged_shard::LoggedShard;
use crate::naming::Naming;
use crate::own_call::OwnCall;
use crate::waiting::lock_soon;
use mv_parts::RefusedCommit;
use mv_shards::Attempt;
use std::mem;
use std::sync::{Mutex, Wait};
use teal_value::Failure;

/// A shard, or nothing while it is held with others.
pub(crate) type ShardLock<J> = Mutex<Option<LoggedShard<J>>>;

/// What is done with a journal and the shards that are held. It is lent while they are locked, and taken once.
#[derive(Drop)]
pub(crate) enum LockedWork<J: Naming> {
    Commit(OwnCall<J>),
    Prune,
}

/// What came of it.
#[derive(Drop)]
pub(crate) enum CommitResult {
    /// The call is committed, or all was pruned as far as it could be.
    Done,
    /// Nothing was committed, and another attempt may be.
    Again(Attempt),
    /// Memory was refused to the commit.
    Memory(Attempt),
}

impl<J: Naming> LockedWork<J> {
    /// The work, which is left as one that does little.
    fn taken(&mut self) -> LockedWork<J>
        ensures { result ≡ self.old }
    {
        mem::replace(self, LockedWork::Prune)
    }

    /// Does it with all shards that are held. It is out of line, as is [`LockedWork::not_done`], so that whoever locks shards
    /// has no room for work among the own variables.
    #[inline(never)]
    fn done(&mut self, journal: &mut LoggedJournal<J>, held: &mut LoggedHeld<J>) -> CommitResult {
        match self.taken() {
            LockedWork::Commit(call) => commit(journal, held, call),
            LockedWork::Prune => {
                journal.prune(held);
                CommitResult::Done
            }
        }
    }

    /// What comes of it where a shard is not there.
    #[cold]
    #[inline(never)]
    fn not_done(&mut self) -> CommitResult {
        match self.taken() {
            LockedWork::Commit(call) => CommitResult::Again(call.into_attempt()),
            LockedWork::Prune => CommitResult::Done,
        }
    }
}

/// Commits a call whose shards are held.
fn commit<J: Naming>(
    journal: &mut LoggedJournal<J>,
    held: &mut LoggedHeld<J>,
    call: OwnCall<J>,
) -> CommitResult {
    let (attempt, finished) = call.into_parts();
    if !held.covers(finished.reads()) || !held.covers(finished.writes()) {
        return CommitResult::Again(attempt);
    }
    match journal.commit(held, attempt, finished) {
        Ok(_timestamp) => CommitResult::Done,
        Err(refused) => not_committed(refused),
    }
}

/// What comes of a commit that was refused.
fn not_committed(refused: RefusedCommit) -> CommitResult {
    let RefusedCommit {
        error,
        attempt,
        finished: _finished,
    } = refused;
    match error {
        Failure::Memory => CommitResult::Memory(attempt),
        Failure::Fault(_fault) => CommitResult::Again(attempt),
    }
}

/// The locks of all shards, which of them are wanted, by index, and the runtime in which a thread waits for them.
#[derive(Drop)]
pub(crate) struct Wanted<'a, J: Naming, R> {
    pub rt: &'a R,
    pub locks: &'a [ShardLock<J>],
    pub wanted: &'a [bool],
}

/// Locks the shards that are wanted, by rising index, and does the work while all of them are held. No lock is let go
/// before it is done; then each shard goes back behind its own.
pub(crate) fn work_with<J: Naming, R: Wait>(
    shards: &Wanted<J, R>,
    journal: &mut LoggedJournal<J>,
    held: &mut LoggedHeld<J>,
    work: &mut LockedWork<J>,
) -> CommitResult {
    work_from(shards, 0, journal, held, work)
}

/// Locks those from an index on too, and does the work.
fn work_from<J: Naming, R: Wait>(
    shards: &Wanted<J, R>,
    from: usize,
    journal: &mut LoggedJournal<J>,
    held: &mut LoggedHeld<J>,
    work: &mut LockedWork<J>,
) -> CommitResult {
    let Some(index) = next_wanted(shards.wanted, from) else {
        return work.done(journal, held);
    };
    let Some(lock) = shards.locks.get(index) else {
        return work.not_done();
    };
    let mut guard = lock_soon(shards.rt, lock);
    if !hold(held, &mut guard) {
        return work.not_done();
    }
    let worked = work_from(shards, index + 1, journal, held, work);
    give_back(held, &mut guard);
    worked
}

/// Holds the shard that is there with the others. It is out of line, so that whoever locks shards has no room for one among the
/// own variables.
#[inline(never)]
fn hold<J: Naming>(held: &mut LoggedHeld<J>, slot: &mut Option<LoggedShard<J>>) -> bool {
    let Some(shard) = slot.take() else {
        return false;
    };
    match held.add(shard) {
        Ok(()) => true,
        Err(shard) => {
            *slot = Some(shard);
            false
        }
    }
}

/// Puts the last of the shards that are held back. It is out of line, as [`hold`] is.
#[inline(never)]
fn give_back<J: Naming>(held: &mut LoggedHeld<J>, slot: &mut Option<LoggedShard<J>>) {
    *slot = held.take();
}

/// The least index of a shard that is wanted, from an index on.
fn next_wanted(wanted: &[bool], from: usize) -> Option<usize>
    ensures { IfSome result (λ index. (from ≤ index) × (index < length wanted.now)) }
{
    for index in from..wanted.len() {
        if wanted[index] {
            return Some(index);
        }
    }
    None
}
