//! Values of items read from bytes, each tested by itself.

ghost use Rattle.std.specs.Prelude.{◌≡◌};
ghost use Rattle.teal_value.specs.Answer.{Gives};
ghost use Rattle.avm_item_codec.specs.ItemReader.{counts_value_at, item_value_at, key_value_at, local_value_at, maybe_at, next_value_at, row_value_at};

use avm_items::{Item, ItemValue};
use avm_ledger::reading::{next_id_of, row_of, schema_of, shared_state_of, value_of};
use avm_ledger::{Fields, LedgerError, LedgerFault, SharedApplication};
use avm_states::{EntryCounts, MAX_GLOBAL_ENTRIES, MAX_LOCAL_ENTRIES, Schema};
use std::alloc::Global;
use teal_value::Failure;

/// The value of an item that the bytes begin with, and the bytes behind it. A program is decoded and checked.
///
/// What two items say together is not looked at, as a local state over its application's schema.
pub fn item_value_of<'a>(
    alloc: Global,
    item: &Item,
    fields: Fields<'a>,
) -> Result<(ItemValue, Fields<'a>), LedgerError>
    ensures { Gives (λ x. x) result (item_value_at item.now fields.entry) }
{
    match item {
        Item::NextApp => next_value_of(fields),
        Item::App(_) => maybe_row(alloc, fields),
        Item::Counts(_) => maybe_counts(fields),
        Item::Key(..) => maybe_key(alloc, fields),
        Item::Local(..) => maybe_local(alloc, fields),
    }
}

fn next_value_of(fields: Fields<'_>) -> Result<(ItemValue, Fields<'_>), LedgerError>
    ensures { Gives (λ x. x) result (next_value_at fields.entry) }
{
    let (id, rest) = next_id_of(fields)?;
    Ok((ItemValue::NextApp(id), rest))
}

fn maybe_row(alloc: Global, fields: Fields<'_>) -> Result<(ItemValue, Fields<'_>), LedgerError>
    ensures { Gives (λ x. x) result (maybe_at row_value_at fields.entry) }
{
    let (there, rest) = fields.u8(LedgerFault::Truncated)?;
    match there {
        0 => Ok((ItemValue::Absent, rest)),
        1 => row_value_of(alloc, rest),
        _ => Err(Failure::Fault(LedgerFault::Malformed)),
    }
}

fn maybe_counts(fields: Fields<'_>) -> Result<(ItemValue, Fields<'_>), LedgerError>
    ensures { Gives (λ x. x) result (maybe_at counts_value_at fields.entry) }
{
    let (there, rest) = fields.u8(LedgerFault::Truncated)?;
    match there {
        0 => Ok((ItemValue::Absent, rest)),
        1 => counts_value_of(rest),
        _ => Err(Failure::Fault(LedgerFault::Malformed)),
    }
}

fn maybe_key(alloc: Global, fields: Fields<'_>) -> Result<(ItemValue, Fields<'_>), LedgerError>
    ensures { Gives (λ x. x) result (maybe_at key_value_at fields.entry) }
{
    let (there, rest) = fields.u8(LedgerFault::Truncated)?;
    match there {
        0 => Ok((ItemValue::Absent, rest)),
        1 => key_value_of(alloc, rest),
        _ => Err(Failure::Fault(LedgerFault::Malformed)),
    }
}

fn maybe_local(alloc: Global, fields: Fields<'_>) -> Result<(ItemValue, Fields<'_>), LedgerError>
    ensures { Gives (λ x. x) result (maybe_at local_value_at fields.entry) }
{
    let (there, rest) = fields.u8(LedgerFault::Truncated)?;
    match there {
        0 => Ok((ItemValue::Absent, rest)),
        1 => local_value_of(alloc, rest),
        _ => Err(Failure::Fault(LedgerFault::Malformed)),
    }
}

fn row_value_of(alloc: Global, fields: Fields<'_>) -> Result<(ItemValue, Fields<'_>), LedgerError>
    ensures { Gives (λ x. x) result (row_value_at fields.entry) }
{
    let (row, rest) = row_of(alloc, None, fields)?;
    let row = SharedApplication::new(alloc, row)?;
    Ok((ItemValue::App(row), rest))
}

fn counts_value_of(fields: Fields<'_>) -> Result<(ItemValue, Fields<'_>), LedgerError>
    ensures { Gives (λ x. x) result (counts_value_at fields.entry) }
{
    let (counts, rest) = schema_of(MAX_GLOBAL_ENTRIES, fields)?;
    Ok((ItemValue::Counts(EntryCounts::from_schema(counts)), rest))
}

fn key_value_of(alloc: Global, fields: Fields<'_>) -> Result<(ItemValue, Fields<'_>), LedgerError>
    ensures { Gives (λ x. x) result (key_value_at fields.entry) }
{
    let one_of_each = Schema { uints: 1, bytes: 1 };
    let (value, rest) = value_of(alloc, one_of_each, fields)?;
    Ok((ItemValue::Key(value), rest))
}

fn local_value_of(alloc: Global, fields: Fields<'_>) -> Result<(ItemValue, Fields<'_>), LedgerError>
    ensures { Gives (λ x. x) result (local_value_at fields.entry) }
{
    let kinds = Schema {
        uints: MAX_LOCAL_ENTRIES as u8,
        bytes: MAX_LOCAL_ENTRIES as u8,
    };
    let (state, rest) = shared_state_of(alloc, MAX_LOCAL_ENTRIES, kinds, fields)?;
    Ok((ItemValue::Local(state), rest))
}
