//! Items read from a ledger.

ghost use Rattle.std.specs.Prelude.{◌≡◌, IfOk};
ghost use Rattle.avm_items.specs.LedgerItems.{at};
ghost use Rattle.avm_items.specs.SameValues.{is_same_value};

use crate::item::Item;
use crate::item_value::{ItemValue, is_same_application, is_same_counts};
use avm_ledger::Ledger;
use std::alloc::AllocError;

/// The value of an item in a ledger, which shares an application or a local state with it. It is found in logarithmic
/// time; the calls of [`Ledger`] lend what needs no copy.
#[inline(always)]
pub fn item_of(ledger: &Ledger, item: &Item) -> Result<ItemValue, AllocError>
    ensures { IfOk result (λ value. value ≡ at ledger.now item.now) }
{
    match item {
        Item::NextApp => Ok(ItemValue::NextApp(ledger.next_id())),
        Item::App(id) => match ledger.application(*id) {
            Some(row) => Ok(ItemValue::App(row.clone()?)),
            None => Ok(ItemValue::Absent),
        },
        Item::Counts(id) => match ledger.global_state(*id) {
            Some(state) => Ok(ItemValue::Counts(state.counts())),
            None => Ok(ItemValue::Absent),
        },
        Item::Key(id, key) => match ledger.global_value(*id, key) {
            Some(value) => Ok(ItemValue::Key(value.clone()?)),
            None => Ok(ItemValue::Absent),
        },
        Item::Local(who, id) => match ledger.local_state(who, *id) {
            Some(state) => Ok(ItemValue::Local(state.clone()?)),
            None => Ok(ItemValue::Absent),
        },
    }
}

/// Whether an item has this value in a ledger. Nothing is copied.
pub fn is_value_in(ledger: &Ledger, item: &Item, value: &ItemValue) -> bool
    ensures { result ≡ is_same_value (at ledger.now item.now) value.now }
{
    match item {
        Item::NextApp => match value {
            ItemValue::NextApp(id) => ledger.next_id() == *id,
            _ => false,
        },
        Item::App(id) => match (ledger.application(*id), value) {
            (Some(row), ItemValue::App(other)) => is_same_application(row.get(), other.get()),
            (None, ItemValue::Absent) => true,
            _ => false,
        },
        Item::Counts(id) => match (ledger.global_state(*id), value) {
            (Some(state), ItemValue::Counts(other)) => is_same_counts(state.counts(), *other),
            (None, ItemValue::Absent) => true,
            _ => false,
        },
        Item::Key(id, key) => match (ledger.global_value(*id, key), value) {
            (Some(found), ItemValue::Key(other)) => found == other,
            (None, ItemValue::Absent) => true,
            _ => false,
        },
        Item::Local(who, id) => match (ledger.local_state(who, *id), value) {
            (Some(state), ItemValue::Local(other)) => state == other,
            (None, ItemValue::Absent) => true,
            _ => false,
        },
    }
}
