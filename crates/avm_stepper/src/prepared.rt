//! The items that a call has written, and the local states that they set.

ghost use Rattle.std.specs.Prelude.{◌≡◌, IfOk, Some};
ghost use Rattle.std.specs.Option.{option_copied};
ghost use Rattle.avm_ledger.specs.Ledgers.{empty_ledger, local_state_at};
ghost use Rattle.avm_items.specs.LedgerItems.{put};
ghost use Rattle.avm_stepper.specs.Stepping.{ShowsWrites};
ghost use Rattle.avm_stepper.specs.WrittenStates.{local_state_over};

use avm_items::{Item, ItemMap, ItemValue, put_open};
use avm_ledger::{Ledger, OpenLedger};
use avm_run::CallRun;
use avm_states::SharedState;
use std::alloc::{AllocError, Global};
use teal_value::Address;

/// A copy of items with their values.
fn copied(alloc: Global, items: &ItemMap) -> Result<ItemMap, AllocError>
    ensures { IfOk result (λ copy. copy ≡ items.now) }
{
    let mut copy = ItemMap::new(alloc);
    for (item, value) in items.as_slice() {
        copy.insert(item.copied(), value.clone()?)?;
    }
    Ok(copy)
}

/// What the call of a run has written so far.
pub(crate) fn writes_of(alloc: Global, run: &CallRun) -> Result<ItemMap, AllocError>
    ensures { IfOk result (λ items. ShowsWrites run.now items) }
{
    match run.shown() {
        Some(shown) => copied(alloc, shown.writes),
        None => Ok(ItemMap::new(alloc)),
    }
}

/// The ledger that has what items set, and nothing else.
pub(crate) fn ledger_of(alloc: Global, items: &ItemMap) -> Result<OpenLedger, AllocError>
    ensures { IfOk result (λ ledger. ledger ≡ put empty_ledger items.now) }
{
    let mut ledger = Ledger::new(alloc).open();
    put_open(alloc, &mut ledger, copied(alloc, items)?)?;
    Ok(ledger)
}

/// The local state that the value of its item sets, or else the one of before.
fn set_over<'a>(value: &'a ItemValue, before: Option<&'a SharedState>) -> Option<&'a SharedState>
    ensures { option_copied result
        ≡ local_state_over (Some value.now) (option_copied before.entry) }
{
    match value {
        ItemValue::Local(state) => Some(state),
        ItemValue::Absent => None,
        _ => before,
    }
}

/// An account's local state of an application, in a ledger with items set.
pub(crate) fn local_state_with<'a>(
    ledger: &'a Ledger,
    items: &'a ItemMap,
    who: &Address,
    id: u64,
) -> Option<&'a SharedState>
    ensures { option_copied result ≡ local_state_at (put ledger.now items.now) who.now id }
{
    // The ledger's maps are in order, and so are the items.
    ledger.holds();
    let _items = items.as_slice();
    let before = ledger.local_state(who, id);
    match items.get(&Item::Local(*who, id)) {
        Some(value) => set_over(value, before),
        None => before,
    }
}
