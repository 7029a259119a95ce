//! What a debugger opens calls of, and its ledgers of the past.

ghost use Rattle.std.specs.Prelude.{◌≡◌, ◌↔◌, IfOk, IsErrOf};
ghost use Rattle.teal_value.specs.declared.failure.Failure.TheVariants.{Fault};
ghost use Rattle.avm_debug.specs.declared.faults.PastFault.TheVariants.{Pruned, WrongBase};
ghost use Rattle.avm_debug.specs.Sources.{HasWrongBase, IsPrunedSource, past_ledger};

use crate::faults::{PastError, PastFault};
use avm_block::Block;
use avm_ledger::Ledger;
use avm_ops::Op;
use avm_replay::state_at;
use avm_run::FullOps;
use mv_core::Store;
use std::alloc::Global;
use teal_value::Failure;

/// What calls are opened of.
#[derive(Clone, Copy)]
pub enum Source<'a> {
    /// A block, with the ledger that it stands over.
    Block(&'a Ledger, &'a Block),
    /// A store, by the calls that are committed so far.
    Live(&'a Store),
}

/// The ledger after the calls with timestamps up to this one. Of a block it is made by a replay of these calls.
///
/// A block that stands over another ledger has none, nor has a store below its low mark.
pub fn state_of<O: Op>(
    alloc: Global,
    source: Source<'_>,
    timestamp: u64,
    ops: &FullOps<O>,
) -> Result<Ledger, PastError>
    ensures ledger { IfOk result (λ ledger. ledger ≡ past_ledger source.entry timestamp) }
    ensures wrong_base { IsErrOf result (Fault WrongBase) → HasWrongBase source.entry }
    ensures same_base { IfOk result (λ _. HasWrongBase source.entry → ⊥) }
    ensures pruned { IsErrOf result (Fault Pruned) ↔ IsPrunedSource source.entry timestamp }
{
    match source {
        Source::Block(base, block) => match state_at(alloc, base, block, timestamp, ops) {
            Ok(ledger) => Ok(ledger),
            Err(Failure::Fault(_wrong)) => Err(Failure::Fault(PastFault::WrongBase)),
            Err(Failure::Memory) => Err(Failure::Memory),
        },
        Source::Live(store) => match store.state_at(alloc, timestamp) {
            Ok(ledger) => Ok(ledger),
            Err(Failure::Fault(_pruned)) => Err(Failure::Fault(PastFault::Pruned)),
            Err(Failure::Memory) => Err(Failure::Memory),
        },
    }
}
