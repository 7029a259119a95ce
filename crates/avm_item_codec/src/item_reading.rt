//! Items read from bytes.

ghost use Rattle.std.specs.Prelude.{◌≡◌};
ghost use Rattle.teal_value.specs.Answer.{Gives};
ghost use Rattle.avm_item_codec.specs.ItemReader.{app_item_at, counts_item_at, item_front, item_of_kind, key_item_at, local_item_at, short_key_at};

use avm_items::Item;
use avm_ledger::{Fields, LedgerError, LedgerFault};
use teal_value::{Failure, MAX_KEY_BYTES, StateKey};

/// The item that the bytes begin with, and the bytes behind it. It takes no memory.
pub fn item_of(fields: Fields<'_>) -> Result<(Item, Fields<'_>), LedgerError>
    ensures { Gives (λ x. x) result (item_front fields.entry) }
{
    let (kind, rest) = fields.u8(LedgerFault::Truncated)?;
    of_kind(kind, rest)
}

fn of_kind(kind: u8, fields: Fields<'_>) -> Result<(Item, Fields<'_>), LedgerError>
    ensures { Gives (λ x. x) result (item_of_kind (kind, fields.entry)) }
{
    match kind {
        0 => Ok((Item::NextApp, fields)),
        1 => app_of(fields),
        2 => counts_of(fields),
        3 => key_of(fields),
        4 => local_of(fields),
        _ => Err(Failure::Fault(LedgerFault::Malformed)),
    }
}

fn app_of(fields: Fields<'_>) -> Result<(Item, Fields<'_>), LedgerError>
    ensures { Gives (λ x. x) result (app_item_at fields.entry) }
{
    let (id, rest) = fields.u64(LedgerFault::Truncated)?;
    Ok((Item::App(id), rest))
}

fn counts_of(fields: Fields<'_>) -> Result<(Item, Fields<'_>), LedgerError>
    ensures { Gives (λ x. x) result (counts_item_at fields.entry) }
{
    let (id, rest) = fields.u64(LedgerFault::Truncated)?;
    Ok((Item::Counts(id), rest))
}

fn key_of(fields: Fields<'_>) -> Result<(Item, Fields<'_>), LedgerError>
    ensures { Gives (λ x. x) result (key_item_at fields.entry) }
{
    let (id, rest) = fields.u64(LedgerFault::Truncated)?;
    let (key, rest) = short_key_of(rest)?;
    Ok((Item::Key(id, key), rest))
}

/// A key that is not too long.
fn short_key_of(fields: Fields<'_>) -> Result<(StateKey, Fields<'_>), LedgerError>
    ensures { Gives (λ x. x) result (short_key_at fields.entry) }
{
    let (bytes, rest) = fields.short_string(LedgerFault::Truncated)?;
    if bytes.len() > MAX_KEY_BYTES {
        return Err(Failure::Fault(LedgerFault::Malformed));
    }
    match StateKey::of(bytes) {
        Some(key) => Ok((key, rest)),
        None => Err(Failure::Fault(LedgerFault::Malformed)),
    }
}

fn local_of(fields: Fields<'_>) -> Result<(Item, Fields<'_>), LedgerError>
    ensures { Gives (λ x. x) result (local_item_at fields.entry) }
{
    let (who, rest) = fields.address(LedgerFault::Truncated)?;
    let (id, rest) = rest.u64(LedgerFault::Truncated)?;
    Ok((Item::Local(who, id), rest))
}
