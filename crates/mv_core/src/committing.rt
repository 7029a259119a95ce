//! Commits of the attempt in a slot.

ghost use Rattle.std.specs.Prelude.{◌≡◌, None, Some, IfErr, IfOk, IsSome, OnErr, get_or};
ghost use Rattle.mv_parts.specs.Agreeing.{AllAgree};
ghost use Rattle.mv_core.specs.Commits.{AreAllHeld, IsCommittedSlot, IsRefusedFor, store_error};

use crate::faults::{CommitError, CommitFault};
use avm_run::Finished;
use mv_parts::Journal;
use mv_shards::{Attempt, Held};
use teal_value::Failure;

/// A commit that the journal refused.
#[derive(Drop)]
pub(crate) struct RefusedAttempt {
    pub error: mv_parts::CommitError,
    pub finished: Finished,
}

/// Commits a finished call, for the attempt in a slot, which is then free.
pub(crate) fn commit_at(
    journal: &mut Journal,
    held: &mut Held,
    attempts: &mut Vec<Option<Attempt>>,
    index: usize,
    finished: Finished,
) -> Result<u64, RefusedAttempt>
    requires held { AreAllHeld held.old }
    requires agree { AllAgree journal.old held.old }
    requires there { IsSome (get_or attempts.old.items index None) }
    ensures ok { IfOk result (λ timestamp. IsCommittedSlot journal.old journal.new
        held.old held.new attempts.old.items attempts.new.items index finished timestamp) }
    ensures refused { IfErr result (λ refused. IsRefusedFor journal.old held.old
        (get_or attempts.old.items index None) finished refused.error) }
    ensures back { IfErr result (λ refused. refused.finished ≡ finished) }
    ensures unchanged { OnErr result ((journal.new ≡ journal.old)
        × (held.new ≡ held.old) × (attempts.new.items ≡ attempts.old.items)) }
{
    match attempts[index].take() {
        Some(attempt) => match journal.commit_agreeing(held, attempt, finished) {
            Ok(timestamp) => Ok(timestamp),
            Err(refused) => {
                attempts[index] = Some(refused.attempt);
                Err(RefusedAttempt {
                    error: refused.error,
                    finished: refused.finished,
                })
            }
        },
        None => unreachable!(),
    }
}

/// What a refusal by the journal is to a store: it never comes by a shard that does not agree with the journal.
pub(crate) fn store_error(error: mv_parts::CommitError) -> CommitError
    requires { IsSome (store_error error) }
    ensures { Some result ≡ store_error error }
{
    match error {
        Failure::Memory => Failure::Memory,
        Failure::Fault(mv_parts::CommitFault::Stranger) => Failure::Fault(CommitFault::Stranger),
        Failure::Fault(
            mv_parts::CommitFault::Late {
                item,
                version,
                mark,
            },
        ) => Failure::Fault(CommitFault::Late {
            item,
            version,
            mark,
        }),
        Failure::Fault(mv_parts::CommitFault::Unknown) => unreachable!(),
        Failure::Fault(mv_parts::CommitFault::Moved { item: _item }) => unreachable!(),
        Failure::Fault(mv_parts::CommitFault::Foreign { shard: _shard }) => unreachable!(),
    }
}
