//! The committed calls of a store, and the ledgers that they met.

ghost use Rattle.std.specs.Prelude.{◌≡◌, ◌<◌, ◌-◌, IfErr, IfOk};
ghost use Rattle.std.specs.Option.{option_map};
ghost use Rattle.avm_debug.specs.LiveOpening.{IsBelowLow, IsLiveRefusal, IsOpenedLive, ledger_of_store, met_live};

use avm_call::Call;
use avm_ledger::Ledger;
use avm_ops::Op;
use avm_run::FullOps;
use avm_stepper::{OpenError, OpenFault, Stepper};
use mv_core::Store;
use std::alloc::Global;
use teal_value::Failure;

/// The call of a committed entry, before the first instruction of its program, over the store's ledger before the
/// entry's timestamp. What the store commits later does not show.
///
/// Entries are numbered from 1, in ascending order of timestamp. The low watermark leaves no ledger before an entry at or
/// below it.
pub(crate) fn open_live<O: Op>(
    alloc: Global,
    store: &Store,
    entry: usize,
    ops: &FullOps<O>,
) -> Result<Stepper, OpenError>
    ensures opened { IfOk result (λ stepper. IsOpenedLive store.now entry stepper) }
    ensures refused { IfErr result (IsLiveRefusal store.now entry) }
{
    match live_call(store, entry) {
        None => Err(Failure::Fault(OpenFault::NoEntry)),
        Some((timestamp, call)) => match live_ledger_before(alloc, store, timestamp) {
            Ok(ledger) => Stepper::open(alloc, ledger, call, store.header(), ops),
            Err(refused) => Err(refused),
        },
    }
}

/// The timestamp and the call of a committed entry, counted from 1.
fn live_call(store: &Store, number: usize) -> Option<(u64, &Call)>
    ensures { option_map (λ met. (met.0, met.1.now)) result ≡ met_live store.now number }
{
    if number == 0 {
        return None;
    }
    let entry = store.entries().get(number - 1)?;
    let call = store.call(entry.number())?;
    Some((entry.timestamp(), call))
}

/// The ledger of a store before a timestamp.
fn live_ledger_before(alloc: Global, store: &Store, timestamp: u64) -> Result<Ledger, OpenError>
    ensures ledger { IfOk result (λ ledger. ledger ≡ ledger_of_store store.now (timestamp - 1)) }
    ensures kept { IfOk result (λ _. store.now.world.low < timestamp) }
    ensures refused { IfErr result (IsBelowLow store.now timestamp) }
{
    if timestamp <= store.low() {
        return Err(Failure::Fault(OpenFault::Pruned));
    }
    match store.state_at(alloc, timestamp - 1) {
        Ok(ledger) => Ok(ledger),
        Err(Failure::Fault(_pruned)) => Err(Failure::Fault(OpenFault::Pruned)),
        Err(Failure::Memory) => Err(Failure::Memory),
    }
}
