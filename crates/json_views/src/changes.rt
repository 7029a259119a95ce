//! What a call's program has changed, as JSON.

ghost use Rattle.std.specs.Prelude.{◌≡◌, OnOk};
ghost use Rattle.json.specs.Tree.{json_tokens};
ghost use Rattle.avm_stepper.specs.Changes.{changes_seen, local_seen};
ghost use Rattle.json_views.specs.Writing.{Adds};
ghost use Rattle.json_views.specs.Changes.{shown_change, shown_delta, shown_global_delta, shown_local_deltas};

use crate::by_account::{close, turn_to};
use crate::writing::{
    Writer, begin_array, begin_object, end_array, end_object, put_base64_member, put_name,
    put_uint_member,
};
use avm_stepper::{KeyChange, LocalChange};
use std::alloc::{AllocError, Global};
use teal_value::{StateKey, Value};

/// The action that sets a byte string.
const SET_BYTES: u64 = 1;

/// The action that sets a uint.
const SET_UINT: u64 = 2;

/// The action that deletes a key.
const DELETE: u64 = 3;

/// The changes of the global state, by rising key.
pub(crate) fn put_global_delta(
    alloc: Global,
    out: &mut Writer,
    changes: &[KeyChange],
) -> Result<(), AllocError>
    ensures { OnOk result
        (Adds out.old out.new (json_tokens (shown_global_delta (changes_seen changes.now)))) }
{
    begin_array(out)?;
    for change in changes {
        put_change(alloc, out, &change.key, &change.now)?;
    }
    end_array(out)
}

/// The changes of local states, an object for each account, by rising address and key.
pub(crate) fn put_local_deltas(
    alloc: Global,
    out: &mut Writer,
    changes: &[LocalChange],
) -> Result<(), AllocError>
    ensures { OnOk result
        (Adds out.old out.new (json_tokens (shown_local_deltas (local_seen changes.now)))) }
{
    begin_array(out)?;
    let mut current = None;
    for change in changes {
        let who = change.account;
        turn_to(alloc, out, "delta", current, who)?;
        current = Some(who);
        put_change(alloc, out, &change.key, &change.now)?;
    }
    close(out, current)?;
    end_array(out)
}

fn put_change(
    alloc: Global,
    out: &mut Writer,
    key: &StateKey,
    now: &Option<Value>,
) -> Result<(), AllocError>
    ensures { OnOk result (Adds out.old out.new
        (json_tokens (shown_change (record { key = key.now; now = now.now })))) }
{
    begin_object(out)?;
    put_base64_member(alloc, out, "key", key.as_slice())?;
    put_name(out, "value")?;
    put_delta(alloc, out, now)?;
    end_object(out)
}

fn put_delta(alloc: Global, out: &mut Writer, now: &Option<Value>) -> Result<(), AllocError>
    ensures { OnOk result (Adds out.old out.new (json_tokens (shown_delta now.now))) }
{
    begin_object(out)?;
    match now {
        Some(Value::Bytes(bytes)) => {
            put_uint_member(out, "action", SET_BYTES)?;
            put_base64_member(alloc, out, "bytes", bytes.as_slice())?;
        }
        Some(Value::Uint(number)) => {
            put_uint_member(out, "action", SET_UINT)?;
            put_uint_member(out, "uint", *number)?;
        }
        None => put_uint_member(out, "action", DELETE)?,
    }
    end_object(out)
}
