//! Fields and states appended to bytes, in their one encoding. Where memory is refused, the bytes hold what they held.

ghost use Rattle.std.specs.Prelude.{◌≡◌, ◌++◌, OnErr, OnOk, take};
ghost use Rattle.teal_code.specs.Encoding.{Continues};
ghost use Rattle.avm_ledger.specs.Encodings.{entry_bytes, local_state_bytes, row_bytes, schema_bytes, short_string_bytes, state_bytes, string_bytes, u16_bytes, u32_bytes, u64_bytes, u8_bytes, value_bytes};

use crate::application::Application;
use avm_states::{Schema, State};
use std::alloc::AllocError;
use teal_value::{Address, StateKey, Value};

/// Appends the low byte of a count.
pub fn put_short_count(bytes: &mut Vec<u8>, count: usize) -> Result<(), AllocError>
    ensures written { OnOk result (bytes.new.items ≡ bytes.old.items ++ u8_bytes count) }
    ensures unchanged { OnErr result (bytes.new.items ≡ bytes.old.items) }
{
    bytes.extend_from_slice(&(count as u64).to_be_bytes()[7..])
}

/// Appends the two low bytes of a count.
pub fn put_count(bytes: &mut Vec<u8>, count: usize) -> Result<(), AllocError>
    ensures written { OnOk result (bytes.new.items ≡ bytes.old.items ++ u16_bytes count) }
    ensures unchanged { OnErr result (bytes.new.items ≡ bytes.old.items) }
{
    bytes.extend_from_slice(&(count as u64).to_be_bytes()[6..])
}

/// Appends the four low bytes of a count.
pub fn put_long_count(bytes: &mut Vec<u8>, count: usize) -> Result<(), AllocError>
    ensures written { OnOk result (bytes.new.items ≡ bytes.old.items ++ u32_bytes count) }
    ensures unchanged { OnErr result (bytes.new.items ≡ bytes.old.items) }
{
    bytes.extend_from_slice(&(count as u64).to_be_bytes()[4..])
}

/// Appends a number of eight bytes.
pub fn put_u64(bytes: &mut Vec<u8>, number: u64) -> Result<(), AllocError>
    ensures written { OnOk result (bytes.new.items ≡ bytes.old.items ++ u64_bytes number) }
    ensures unchanged { OnErr result (bytes.new.items ≡ bytes.old.items) }
{
    bytes.extend_from_slice(&number.to_be_bytes())
}

/// Appends a byte string behind its length of one byte.
pub fn put_short_string(bytes: &mut Vec<u8>, string: &[u8]) -> Result<(), AllocError>
    ensures written { OnOk result
        (bytes.new.items ≡ bytes.old.items ++ short_string_bytes string.now) }
    ensures unchanged { OnErr result (bytes.new.items ≡ bytes.old.items) }
{
    let start = bytes.len();
    put_short_count(bytes, string.len())?;
    let appended = bytes.extend_from_slice(string);
    cut_if_refused(bytes, start, appended)
}

/// Appends a byte string behind its length of two bytes.
pub fn put_string(bytes: &mut Vec<u8>, string: &[u8]) -> Result<(), AllocError>
    ensures written { OnOk result (bytes.new.items ≡ bytes.old.items ++ string_bytes string.now) }
    ensures unchanged { OnErr result (bytes.new.items ≡ bytes.old.items) }
{
    let start = bytes.len();
    put_count(bytes, string.len())?;
    let appended = bytes.extend_from_slice(string);
    cut_if_refused(bytes, start, appended)
}

/// Appends a schema.
pub fn put_schema(bytes: &mut Vec<u8>, schema: Schema) -> Result<(), AllocError>
    ensures written { OnOk result (bytes.new.items ≡ bytes.old.items ++ schema_bytes schema) }
    ensures unchanged { OnErr result (bytes.new.items ≡ bytes.old.items) }
{
    bytes.extend_from_slice(&[schema.uints, schema.bytes])
}

/// Appends a state: the count of its entries, and each by rising key.
pub fn put_state(bytes: &mut Vec<u8>, state: &State) -> Result<(), AllocError>
    ensures written { OnOk result (bytes.new.items ≡ bytes.old.items ++ state_bytes state.now) }
    ensures unchanged { OnErr result (bytes.new.items ≡ bytes.old.items) }
{
    let start = bytes.len();
    let appended = push_state(bytes, state);
    cut_if_refused(bytes, start, appended)
}

/// Appends an application without its global state.
pub fn put_row(bytes: &mut Vec<u8>, row: &Application) -> Result<(), AllocError>
    ensures written { OnOk result (bytes.new.items ≡ bytes.old.items ++ row_bytes row.now) }
    ensures unchanged { OnErr result (bytes.new.items ≡ bytes.old.items) }
{
    let start = bytes.len();
    let appended = push_row(bytes, row);
    cut_if_refused(bytes, start, appended)
}

/// Appends a local state behind its account and its application's id.
pub fn put_local_state(
    bytes: &mut Vec<u8>,
    key: &(Address, u64),
    state: &State,
) -> Result<(), AllocError>
    ensures written { OnOk result
        (bytes.new.items ≡ bytes.old.items ++ local_state_bytes (key.now, state.now)) }
    ensures unchanged { OnErr result (bytes.new.items ≡ bytes.old.items) }
{
    let start = bytes.len();
    let appended = push_local_state(bytes, key, state);
    cut_if_refused(bytes, start, appended)
}

/// What an append answered that began at a length of the bytes. Where it was refused, the bytes are cut to that length.
pub fn cut_if_refused(
    bytes: &mut Vec<u8>,
    start: usize,
    appended: Result<(), AllocError>,
) -> Result<(), AllocError>
    ensures same { result ≡ appended }
    ensures kept { OnOk appended (bytes.new.items ≡ bytes.old.items) }
    ensures cut { OnErr appended (bytes.new.items ≡ take start bytes.old.items) }
{
    if appended.is_err() {
        bytes.truncate(start);
    }
    appended
}

/// Appends a value behind its kind.
pub fn put_value(bytes: &mut Vec<u8>, value: &Value) -> Result<(), AllocError>
    ensures written { OnOk result (bytes.new.items ≡ bytes.old.items ++ value_bytes value.now) }
    ensures unchanged { OnErr result (bytes.new.items ≡ bytes.old.items) }
{
    let start = bytes.len();
    let appended = push_value(bytes, value);
    cut_if_refused(bytes, start, appended)
}

// Where memory is refused, a part of the encoding may stand behind what was there. So it is with all that follow.
fn push_state(bytes: &mut Vec<u8>, state: &State) -> Result<(), AllocError>
    ensures written { OnOk result (bytes.new.items ≡ bytes.old.items ++ state_bytes state.now) }
    ensures kept { Continues bytes.old.items bytes.new.items }
{
    put_short_count(bytes, state.len())?;
    for (key, value) in state.as_slice() {
        push_entry(bytes, key, value)?;
    }
    Ok(())
}

fn push_row(bytes: &mut Vec<u8>, row: &Application) -> Result<(), AllocError>
    ensures written { OnOk result (bytes.new.items ≡ bytes.old.items ++ row_bytes row.now) }
    ensures kept { Continues bytes.old.items bytes.new.items }
{
    bytes.extend_from_slice(&row.creator.0)?;
    put_string(bytes, row.approval.as_slice())?;
    put_string(bytes, row.clear.as_slice())?;
    put_schema(bytes, row.global_schema)?;
    put_schema(bytes, row.local_schema)
}

fn push_local_state(
    bytes: &mut Vec<u8>,
    key: &(Address, u64),
    state: &State,
) -> Result<(), AllocError>
    ensures written { OnOk result
        (bytes.new.items ≡ bytes.old.items ++ local_state_bytes (key.now, state.now)) }
    ensures kept { Continues bytes.old.items bytes.new.items }
{
    let (who, id) = *key;
    bytes.extend_from_slice(&who.0)?;
    put_u64(bytes, id)?;
    put_state(bytes, state)
}

fn push_entry(bytes: &mut Vec<u8>, key: &StateKey, value: &Value) -> Result<(), AllocError>
    ensures written { OnOk result
        (bytes.new.items ≡ bytes.old.items ++ entry_bytes (key.now, value.now)) }
    ensures kept { Continues bytes.old.items bytes.new.items }
{
    put_short_string(bytes, key.as_slice())?;
    push_value(bytes, value)
}

fn push_value(bytes: &mut Vec<u8>, value: &Value) -> Result<(), AllocError>
    ensures written { OnOk result (bytes.new.items ≡ bytes.old.items ++ value_bytes value.now) }
    ensures kept { Continues bytes.old.items bytes.new.items }
{
    match value {
        Value::Uint(number) => {
            bytes.push(1)?;
            put_u64(bytes, *number)
        }
        Value::Bytes(string) => {
            bytes.push(2)?;
            put_short_string(bytes, string.as_slice())
        }
    }
}
