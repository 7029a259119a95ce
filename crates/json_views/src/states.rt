//! States as JSON.

ghost use Rattle.std.specs.Prelude.{◌≡◌, ◌++◌, OnOk};
ghost use Rattle.json.specs.Tree.{json_tokens};
ghost use Rattle.json_views.specs.Writing.{Adds};
ghost use Rattle.json_views.specs.States.{shown_entry, shown_state, shown_value};

use crate::writing::{
    Writer, begin_array, begin_object, end_array, end_object, put_base64_member, put_name,
    put_text_member, put_uint_member,
};
use avm_states::State;
use std::alloc::{AllocError, Global};
use teal_value::{StateKey, Value};

/// The type of a byte string, as a member of its value says it.
const BYTE_STRING: u64 = 1;

/// The type of a uint.
const UINT: u64 = 2;

/// A state: the array of its entries by rising key.
pub fn put_state(alloc: Global, out: &mut Writer, state: &State) -> Result<(), AllocError>
    ensures { OnOk result (Adds out.old out.new (json_tokens (shown_state state.now))) }
{
    begin_array(out)?;
    for (key, value) in state.as_slice() {
        put_entry(alloc, out, key, value)?;
    }
    end_array(out)
}

fn put_entry(
    alloc: Global,
    out: &mut Writer,
    key: &StateKey,
    value: &Value,
) -> Result<(), AllocError>
    ensures { OnOk result (Adds out.old out.new (json_tokens (shown_entry (key.now, value.now)))) }
{
    begin_object(out)?;
    put_base64_member(alloc, out, "key", key.as_slice())?;
    put_name(out, "value")?;
    put_value(alloc, out, value)?;
    end_object(out)
}

/// A value: its type, and its bytes or its number, each beside an empty other one.
pub fn put_value(alloc: Global, out: &mut Writer, value: &Value) -> Result<(), AllocError>
    ensures { OnOk result (Adds out.old out.new (json_tokens (shown_value value.now))) }
{
    begin_object(out)?;
    match value {
        Value::Uint(number) => {
            put_text_member(out, "bytes", "")?;
            put_uint_member(out, "type", UINT)?;
            put_uint_member(out, "uint", *number)?;
        }
        Value::Bytes(bytes) => {
            put_base64_member(alloc, out, "bytes", bytes.as_slice())?;
            put_uint_member(out, "type", BYTE_STRING)?;
            put_uint_member(out, "uint", 0)?;
        }
    }
    end_object(out)
}
