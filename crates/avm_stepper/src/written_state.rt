//! The global state of an application with written items set.

ghost use Rattle.std.specs.Prelude.{◌≡◌, IfOk};
ghost use Rattle.std.specs.Option.{option_copied};
ghost use Rattle.avm_stepper.specs.WrittenStates.{with_item_set, with_items_set, with_key_set, with_row_set};

use avm_items::{Item, ItemMap, ItemValue};
use avm_states::State;
use std::alloc::{AllocError, Global};
use teal_value::StateKey;

/// A copy of a state, if there is one.
pub(crate) fn copy_of(state: Option<&State>) -> Result<Option<State>, AllocError>
    ensures { IfOk result (λ copy. copy ≡ option_copied state.entry) }
{
    match state {
        Some(state) => Ok(Some(state.clone()?)),
        None => Ok(None),
    }
}

/// The state where its application is set or taken out.
fn with_row_set(alloc: Global, state: Option<State>, value: &ItemValue) -> Option<State>
    ensures { result ≡ with_row_set state value.now }
{
    match (state, value) {
        (_, ItemValue::Absent) => None,
        (None, ItemValue::App(_)) => Some(State::new(alloc)),
        (state, _) => state,
    }
}

/// The state where a key of it is set or taken out.
fn with_key_set(
    state: Option<State>,
    key: &StateKey,
    value: &ItemValue,
) -> Result<Option<State>, AllocError>
    ensures { IfOk result (λ after. after ≡ with_key_set state key.now value.now) }
{
    let Some(state) = state else {
        return Ok(None);
    };
    let mut state = state;
    match value {
        ItemValue::Key(value) => {
            let _old = state.insert(key.copied(), value.clone()?)?;
        }
        ItemValue::Absent => {
            let _old = state.remove(key);
        }
        _ => {}
    }
    Ok(Some(state))
}

/// The state where an item is set or taken out, which may be of another application.
fn with_item_set(
    alloc: Global,
    id: u64,
    state: Option<State>,
    item: &Item,
    value: &ItemValue,
) -> Result<Option<State>, AllocError>
    ensures { IfOk result (λ after. after ≡ with_item_set id state item.now value.now) }
{
    match item {
        Item::App(other) => {
            if *other == id {
                Ok(with_row_set(alloc, state, value))
            } else {
                Ok(state)
            }
        }
        Item::Key(other, key) => {
            if *other == id {
                with_key_set(state, key, value)
            } else {
                Ok(state)
            }
        }
        _ => Ok(state),
    }
}

/// The global state of an application with items set; none where the application doesn't stand.
pub(crate) fn with_items_set(
    alloc: Global,
    id: u64,
    state: Option<State>,
    items: &ItemMap,
) -> Result<Option<State>, AllocError>
    ensures { IfOk result (λ after. after ≡ with_items_set id state items.now) }
{
    let mut state = state;
    for (item, value) in items.as_slice() {
        state = with_item_set(alloc, id, state, item, value)?;
    }
    Ok(state)
}
