//! What is tested before any thread starts.

ghost use Rattle.std.specs.Prelude.{IfNone, IfSome};
ghost use Rattle.avm_pool.specs.Refusals.{AreFull, IsFirstMissing, IsPoolTestRefusal, MayPropose};

use crate::pool_fault::PoolFault;
use avm_block::{MAX_ENTRIES, first_beyond};
use avm_call::Call;
use avm_ledger::Header;
use avm_ops::{Op, Ops};

/// How many workers there are at most.
const MAX_WORKERS: usize = 8;

/// Why nothing is proposed, whatever the threads would do.
pub(crate) fn pool_fault<O: Op>(
    sets: &[Ops<O>],
    own: &Ops<O>,
    header: &Header,
    calls: &[Call],
) -> Option<PoolFault>
    ensures some { IfSome result
        (IsPoolTestRefusal O.opcode sets.now own.now header.now calls.now) }
    ensures none { IfNone result (MayPropose O.opcode sets.now own.now header.now calls.now) }
{
    if sets.is_empty() || sets.len() > MAX_WORKERS || calls.len() > MAX_ENTRIES {
        return Some(PoolFault::Workers);
    }
    match missing(sets, own) {
        Some(code) => Some(PoolFault::OpMissing(code)),
        None => match first_beyond(header.profile, calls) {
            Some(number) => Some(PoolFault::Profile { number }),
            None => None,
        },
    }
}

/// The least code that the first set lacks which lacks one; the caller's own comes last.
fn missing<O: Op>(sets: &[Ops<O>], own: &Ops<O>) -> Option<u8>
    ensures some { IfSome result (IsFirstMissing O.opcode sets.now own.now) }
    ensures none { IfNone result (AreFull O.opcode sets.now own.now) }
{
    match sets.split_first() {
        None => own.missing(),
        Some((set, sets)) => match set.missing() {
            Some(code) => Some(code),
            None => missing(sets, own),
        },
    }
}
