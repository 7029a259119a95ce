//! Lists of items with their values, read from bytes.

ghost use Rattle.std.specs.Prelude.{◌≡◌, []};
ghost use Rattle.teal_value.specs.Answer.{Gives};
ghost use Rattle.avm_item_codec.specs.ItemReader.{item_entry_front, items_at, items_front, more_items_at, new_entry_at};

use crate::item_reading::item_of;
use crate::value_reading::item_value_of;
use avm_items::{Item, ItemMap, ItemValue};
use avm_ledger::{Fields, LedgerError, LedgerFault};
use std::alloc::Global;
use teal_value::Failure;

/// The items with their values that the bytes are.
pub(crate) fn items_alone(alloc: Global, bytes: &[u8]) -> Result<ItemMap, LedgerError>
    ensures { Gives (λ items. items) result (items_at bytes.now) }
{
    let (items, rest) = front_of(alloc, Fields::new(bytes))?;
    if !rest.is_empty() {
        return Err(Failure::Fault(LedgerFault::Rest));
    }
    Ok(items)
}

fn front_of(alloc: Global, fields: Fields<'_>) -> Result<(ItemMap, Fields<'_>), LedgerError>
    ensures { Gives (λ x. x) result (items_front fields.entry) }
{
    let (count, rest) = fields.u32(LedgerFault::Truncated)?;
    many_of(alloc, count, rest)
}

fn many_of(
    alloc: Global,
    count: u32,
    fields: Fields<'_>,
) -> Result<(ItemMap, Fields<'_>), LedgerError>
    ensures { Gives (λ x. x) result (more_items_at [] count fields.entry) }
{
    let mut items = ItemMap::new(alloc);
    let mut rest = fields;
    for _ in 0..count {
        let ((item, value), next) = new_entry_of(alloc, &items, rest)?;
        items.insert(item, value)?;
        rest = next;
    }
    Ok((items, rest))
}

/// An item that is not known yet, with its value.
fn new_entry_of<'a>(
    alloc: Global,
    known: &ItemMap,
    fields: Fields<'a>,
) -> Result<((Item, ItemValue), Fields<'a>), LedgerError>
    ensures { Gives (λ x. x) result (new_entry_at known.now fields.entry) }
{
    let (entry, rest) = entry_of(alloc, fields)?;
    if known.get(&entry.0).is_some() {
        return Err(Failure::Fault(LedgerFault::Malformed));
    }
    Ok((entry, rest))
}

fn entry_of(
    alloc: Global,
    fields: Fields<'_>,
) -> Result<((Item, ItemValue), Fields<'_>), LedgerError>
    ensures { Gives (λ x. x) result (item_entry_front fields.entry) }
{
    let (item, rest) = item_of(fields)?;
    let (value, rest) = item_value_of(alloc, &item, rest)?;
    Ok(((item, value), rest))
}
