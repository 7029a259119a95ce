//! States read from bytes.

ghost use Rattle.std.specs.Prelude.{◌≡◌, None};
ghost use Rattle.std.specs.Option.{option_copied};
ghost use Rattle.teal_value.specs.Answer.{Gives};
ghost use Rattle.avm_states.specs.Schemas.{count_without};
ghost use Rattle.avm_ledger.specs.LedgerReader.{bytes_value_at, entries_at, key_at, rises_from_key, state_at, value_at};

use crate::fields::Fields;
use crate::ledger_fault::{LedgerError, LedgerFault};
use avm_states::{MAX_VALUE_BYTES, Schema, SharedState, State};
use std::alloc::Global;
use std::cmp::Ordering;
use teal_value::{ByteString, Failure, MAX_KEY_BYTES, StateKey, Value};

/// The state that the bytes begin with, of at most so many entries, and so many of each kind.
pub(crate) fn state_of(
    alloc: Global,
    most: u16,
    kinds: Schema,
    fields: Fields<'_>,
) -> Result<(State, Fields<'_>), LedgerError>
    ensures { Gives (λ x. x) result
        (state_at (record { entries = most; kinds = kinds }) fields.entry) }
{
    let (count, rest) = fields.u8(LedgerFault::Truncated)?;
    if u16::from(count) > most {
        return Err(Failure::Fault(LedgerFault::Malformed));
    }
    entries_of(alloc, count, kinds, rest)
}

/// The state that the bytes begin with, of at most so many entries, and so many of each kind, to be shared.
pub fn shared_state_of(
    alloc: Global,
    most: u16,
    kinds: Schema,
    fields: Fields<'_>,
) -> Result<(SharedState, Fields<'_>), LedgerError>
    ensures { Gives (λ x. x) result
        (state_at (record { entries = most; kinds = kinds }) fields.entry) }
{
    let (state, rest) = state_of(alloc, most, kinds, fields)?;
    Ok((SharedState::new(alloc, state)?, rest))
}

/// So many entries, at most as many as a schema allows, in room for just these.
fn entries_of(
    alloc: Global,
    count: u8,
    kinds: Schema,
    fields: Fields<'_>,
) -> Result<(State, Fields<'_>), LedgerError>
    ensures { Gives (λ x. x) result (entries_at count None kinds fields.entry) }
{
    let mut state = State::with_room(alloc, usize::from(count))?;
    let mut before = None;
    let mut left = kinds;
    let mut rest = fields;
    for _ in 0..count {
        let (bytes, next) = key_of(before, rest)?;
        let (value, next) = value_of(alloc, left, next)?;
        let Some(key) = StateKey::of(bytes) else {
            return Err(Failure::Fault(LedgerFault::Malformed));
        };
        left = without(left, &value);
        state.insert(key, value)?;
        before = Some(bytes);
        rest = next;
    }
    Ok((state, rest))
}

/// A key above the one before.
fn key_of<'a>(
    before: Option<&[u8]>,
    fields: Fields<'a>,
) -> Result<(&'a [u8], Fields<'a>), LedgerError>
    ensures { Gives (λ x. (x.0.now, x.1)) result
        (key_at (option_copied before.entry) fields.entry) }
{
    let (key, rest) = fields.short_string(LedgerFault::Truncated)?;
    if key.len() > MAX_KEY_BYTES || !rises_from(before, key) {
        return Err(Failure::Fault(LedgerFault::Malformed));
    }
    Ok((key, rest))
}

fn rises_from(before: Option<&[u8]>, key: &[u8]) -> bool
    ensures { result ≡ rises_from_key (option_copied before.entry) key.now }
{
    match before {
        None => true,
        Some(before) => before.cmp(key) == Ordering::Less,
    }
}

/// A value behind its kind, while there is room for one of the kind.
pub fn value_of(
    alloc: Global,
    left: Schema,
    fields: Fields<'_>,
) -> Result<(Value, Fields<'_>), LedgerError>
    ensures { Gives (λ x. x) result (value_at left fields.entry) }
{
    let (kind, rest) = fields.u8(LedgerFault::Truncated)?;
    if kind == 1 && left.uints > 0 {
        let (number, rest) = rest.u64(LedgerFault::Truncated)?;
        return Ok((Value::Uint(number), rest));
    }
    if kind == 2 && left.bytes > 0 {
        return bytes_value_of(alloc, rest);
    }
    Err(Failure::Fault(LedgerFault::Malformed))
}

fn bytes_value_of(alloc: Global, fields: Fields<'_>) -> Result<(Value, Fields<'_>), LedgerError>
    ensures { Gives (λ x. x) result (bytes_value_at fields.entry) }
{
    let (bytes, rest) = fields.short_string(LedgerFault::Truncated)?;
    if bytes.len() > MAX_VALUE_BYTES {
        return Err(Failure::Fault(LedgerFault::Malformed));
    }
    Ok((Value::Bytes(ByteString::from_slice(alloc, bytes)?), rest))
}

/// The room that is left behind a value.
fn without(left: Schema, value: &Value) -> Schema
    ensures { result ≡ count_without value.now left }
{
    let Schema { uints, bytes } = left;
    match value {
        Value::Uint(_) => Schema {
            uints: uints.saturating_sub(1),
            bytes,
        },
        Value::Bytes(_) => Schema {
            uints,
            bytes: bytes.saturating_sub(1),
        },
    }
}
