//! Items and their values, written one after another.

ghost use Rattle.std.specs.Prelude.{◌≡◌, ◌++◌, OnOk};
ghost use Rattle.avm_ledger.specs.Encodings.{schema_bytes, u64_bytes, u8_bytes};
ghost use Rattle.avm_item_codec.specs.ItemEncoding.{item_bytes, item_entry_bytes, item_value_bytes, items_bytes};

use avm_items::{Item, ItemValue};
use avm_ledger::encoding::{
    put_long_count, put_row, put_short_count, put_short_string, put_state, put_u64, put_value,
};
use avm_states::EntryCounts;
use std::alloc::AllocError;

/// Appends a list of items with their values.
pub(crate) fn put_items(bytes: &mut Vec<u8>, items: &[(Item, ItemValue)]) -> Result<(), AllocError>
    ensures { OnOk result (bytes.new.items ≡ bytes.old.items ++ items_bytes items.now) }
{
    put_long_count(bytes, items.len())?;
    for entry in items {
        put_entry(bytes, entry)?;
    }
    Ok(())
}

fn put_entry(bytes: &mut Vec<u8>, entry: &(Item, ItemValue)) -> Result<(), AllocError>
    ensures { OnOk result (bytes.new.items ≡ bytes.old.items ++ item_entry_bytes entry.now) }
{
    put_item(bytes, &entry.0)?;
    put_item_value(bytes, &entry.1)
}

/// Appends an item.
pub(crate) fn put_item(bytes: &mut Vec<u8>, item: &Item) -> Result<(), AllocError>
    ensures { OnOk result (bytes.new.items ≡ bytes.old.items ++ item_bytes item.now) }
{
    match item {
        Item::NextApp => put_short_count(bytes, 0),
        Item::App(id) => put_numbered(bytes, 1, *id),
        Item::Counts(id) => put_numbered(bytes, 2, *id),
        Item::Key(id, key) => {
            put_numbered(bytes, 3, *id)?;
            put_short_string(bytes, key.as_slice())
        }
        Item::Local(who, id) => {
            put_short_count(bytes, 4)?;
            bytes.extend_from_slice(&who.0)?;
            put_u64(bytes, *id)
        }
    }
}

/// Appends a kind, and an id behind it.
fn put_numbered(bytes: &mut Vec<u8>, kind: usize, id: u64) -> Result<(), AllocError>
    ensures { OnOk result (bytes.new.items ≡ bytes.old.items ++ (u8_bytes kind ++ u64_bytes id)) }
{
    put_short_count(bytes, kind)?;
    put_u64(bytes, id)
}

fn put_item_value(bytes: &mut Vec<u8>, value: &ItemValue) -> Result<(), AllocError>
    ensures { OnOk result (bytes.new.items ≡ bytes.old.items ++ item_value_bytes value.now) }
{
    match value {
        ItemValue::Absent => put_short_count(bytes, 0),
        ItemValue::NextApp(id) => put_u64(bytes, *id),
        ItemValue::App(row) => {
            bytes.push(1)?;
            put_row(bytes, row.get())
        }
        ItemValue::Counts(counts) => {
            bytes.push(1)?;
            put_counts(bytes, *counts)
        }
        ItemValue::Key(value) => {
            bytes.push(1)?;
            put_value(bytes, value)
        }
        ItemValue::Local(state) => {
            bytes.push(1)?;
            put_state(bytes, state.get())
        }
    }
}

fn put_counts(bytes: &mut Vec<u8>, counts: EntryCounts) -> Result<(), AllocError>
    ensures { OnOk result (bytes.new.items ≡ bytes.old.items ++ schema_bytes counts) }
{
    put_short_count(bytes, counts.uints())?;
    put_short_count(bytes, counts.bytes())
}
