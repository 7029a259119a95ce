//! What has changed in the states of an application.

ghost use Rattle.std.specs.Prelude.{◌≡◌, ◌++◌, [], IfOk, OnOk, unwrap_or};
ghost use Rattle.std.specs.Option.{option_copied};
ghost use Rattle.avm_states.specs.Entries.{value_of_key};
ghost use Rattle.avm_ledger.specs.Ledgers.{application_at};
ghost use Rattle.avm_items.specs.LedgerItems.{put};
ghost use Rattle.avm_call.specs.Views.{state_changes};
ghost use Rattle.avm_stepper.specs.Changes.{change_of_key, changes_seen, gathered, global_entries, is_same_option, local_changes_along, local_seen, of_account, account_changes};

use crate::prepared::{ledger_of, local_state_with};
use crate::view::{KeyChange, LocalChange};
use crate::written_state::{copy_of, with_items_set};
use avm_items::ItemMap;
use avm_ledger::Ledger;
use avm_states::State;
use std::alloc::{AllocError, Global};
use std::collections::BTreeMap;
use teal_value::{Address, StateKey, Value};

/// Whether a key has the same value in two states, or none in both.
fn is_same_at(before: &State, after: &State, key: &StateKey) -> bool
    ensures { result ≡ is_same_option before.now after.now key.now }
{
    match (before.get(key), after.get(key)) {
        (Some(value), Some(other)) => value == other,
        (None, None) => true,
        _ => false,
    }
}

/// A copy of the value of a key.
fn value_at(state: &State, key: &StateKey) -> Result<Option<Value>, AllocError>
    ensures { IfOk result (λ value. value ≡ value_of_key state.now key.now) }
{
    match state.get(key) {
        Some(value) => Ok(Some(value.clone()?)),
        None => Ok(None),
    }
}

/// Appends the change of a key, if there is one.
fn push_change(
    changes: &mut Vec<KeyChange>,
    before: &State,
    after: &State,
    key: &StateKey,
) -> Result<(), AllocError>
    ensures { OnOk result (changes_seen changes.new.items
        ≡ changes_seen changes.old.items ++ change_of_key before.now after.now key.now) }
{
    if is_same_at(before, after, key) {
        return Ok(());
    }
    let now = value_at(after, key)?;
    changes.push(KeyChange {
        key: key.copied(),
        now,
    })?;
    Ok(())
}

/// Adds the keys of a state to those that were gathered.
fn gather(keys: &mut BTreeMap<StateKey, ()>, state: &State) -> Result<(), AllocError>
    ensures { OnOk result (keys.new.entries ≡ gathered state.now keys.old.entries) }
{
    for (key, _value) in state.as_slice() {
        keys.insert(key.copied(), ())?;
    }
    Ok(())
}

/// The keys whose values differ between two states, by rising key.
fn key_changes(alloc: Global, before: &State, after: &State) -> Result<Vec<KeyChange>, AllocError>
    ensures { IfOk result
        (λ changes. changes_seen changes.items ≡ state_changes before.now after.now) }
{
    let mut keys = BTreeMap::new(alloc);
    gather(&mut keys, after)?;
    gather(&mut keys, before)?;
    let mut changes = Vec::new(alloc);
    for (key, _one) in keys.iter() {
        push_change(&mut changes, before, after, key)?;
    }
    Ok(changes)
}

/// The keys whose values differ between two states; where there is no state, there are no keys.
fn option_changes(
    alloc: Global,
    before: Option<&State>,
    after: Option<&State>,
) -> Result<Vec<KeyChange>, AllocError>
    ensures { IfOk result (λ changes. changes_seen changes.items
        ≡ state_changes (unwrap_or (option_copied before.entry) []) (unwrap_or (option_copied after.entry) [])) }
{
    let none = State::new(alloc);
    let old = match before {
        Some(state) => state,
        None => &none,
    };
    let new = match after {
        Some(state) => state,
        None => &none,
    };
    key_changes(alloc, old, new)
}

/// The keys of an application's global state whose values differ between a ledger with items prepared and the same one
/// with items written.
pub(crate) fn global_changes(
    alloc: Global,
    ledger: &Ledger,
    prepared: &ItemMap,
    writes: &ItemMap,
    id: u64,
) -> Result<Vec<KeyChange>, AllocError>
    ensures { IfOk result (λ changes. let before = put ledger.now prepared.now in
        changes_seen changes.items ≡ state_changes (global_entries (application_at before id))
        (global_entries (application_at (put before writes.now) id))) }
{
    // The ledger's maps are in order.
    ledger.holds();
    let before = with_items_set(alloc, id, copy_of(ledger.global_state(id))?, prepared)?;
    let after = with_items_set(alloc, id, copy_of(before.as_ref())?, writes)?;
    option_changes(alloc, before.as_ref(), after.as_ref())
}

/// Appends changes as those of an account.
fn push_all(
    changes: &mut Vec<LocalChange>,
    account: &Address,
    found: Vec<KeyChange>,
) -> Result<(), AllocError>
    ensures { OnOk result (local_seen changes.new.items
        ≡ local_seen changes.old.items ++ of_account account.now (changes_seen found.items)) }
{
    for change in found {
        let KeyChange { key, now } = change;
        changes.push(LocalChange {
            account: *account,
            key,
            now,
        })?;
    }
    Ok(())
}

/// Appends what has changed in one local state, if it is the application's.
fn push_account(
    alloc: Global,
    changes: &mut Vec<LocalChange>,
    ledger: &Ledger,
    prepared: &ItemMap,
    id: u64,
    place: &(Address, u64),
    state: &State,
) -> Result<(), AllocError>
    ensures { OnOk result (local_seen changes.new.items ≡ local_seen changes.old.items
        ++ account_changes (put ledger.now prepared.now) id (place.now, state.now)) }
{
    let (account, application) = *place;
    if application != id {
        return Ok(());
    }
    let found = match local_state_with(ledger, prepared, &account, id) {
        Some(old) => key_changes(alloc, old.get(), state)?,
        None => key_changes(alloc, &State::new(alloc), state)?,
    };
    push_all(changes, &account, found)
}

/// The keys of an application's local states whose values differ between a ledger with items prepared and the same one
/// with items written, of the states that the second has. Only those that were written are looked at.
pub(crate) fn local_changes(
    alloc: Global,
    ledger: &Ledger,
    prepared: &ItemMap,
    writes: &ItemMap,
    id: u64,
) -> Result<Vec<LocalChange>, AllocError>
    ensures { IfOk result (λ changes. let before = put ledger.now prepared.now in
        local_seen changes.items
        ≡ local_changes_along before id (put before writes.now).local_states) }
{
    // The ledger's maps are in order.
    ledger.holds();
    let written = ledger_of(alloc, writes)?;
    let mut changes = Vec::new(alloc);
    for (place, state) in written.local_states() {
        push_account(
            alloc,
            &mut changes,
            ledger,
            prepared,
            id,
            place,
            state.get(),
        )?;
    }
    Ok(changes)
}
