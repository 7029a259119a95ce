//! Calls as JSON, in the canonical form of transactions: a member that is 0, empty or all zeros is left out, but for the
//! sender and the type.

ghost use Rattle.std.specs.Prelude.{◌≡◌, ◌++◌, OnOk};
ghost use Rattle.json.specs.Tree.{json_tokens};
ghost use Rattle.json_views.specs.Writing.{Adds, AddsMembers};
ghost use Rattle.json_views.specs.Documents.{address, array_of, base64, uint};
ghost use Rattle.json_views.specs.ShownCalls.{application_members, are_zeros, array_if_any, authority_if_any, bytes_if_any, lease_if_any, schema_if_any, sender_members, shown_call, target_members, term_members, uint_if_any};

use crate::writing::{
    Writer, begin_array, begin_object, end_array, end_object, put_address, put_address_member,
    put_base64, put_base64_member, put_name, put_text_member, put_uint, put_uint_member,
};
use avm_items::CallData;
use avm_states::Schema;
use std::alloc::{AllocError, Global};
use teal_value::{Address, ByteString};

/// A call, as the object of its members.
pub fn put_call(alloc: Global, out: &mut Writer, call: &CallData) -> Result<(), AllocError>
    ensures { OnOk result (Adds out.old out.new (json_tokens (shown_call call.now))) }
{
    begin_object(out)?;
    put_target(alloc, out, call)?;
    put_application(alloc, out, call)?;
    put_terms(alloc, out, call)?;
    put_sender(alloc, out, &call.sender)?;
    end_object(out)
}

/// The members of what a call is made with, and the approval program that it brings.
fn put_target(alloc: Global, out: &mut Writer, call: &CallData) -> Result<(), AllocError>
    ensures { OnOk result (AddsMembers out.old out.new (target_members call.now)) }
{
    put_bytes_list(alloc, out, "apaa", call.arguments.as_slice())?;
    put_uint_if_any(out, "apan", u64::from(call.completion.number()))?;
    put_bytes_if_any(alloc, out, "apap", call.approval.as_slice())?;
    put_address_list(alloc, out, "apat", call.accounts.as_slice())?;
    put_uint_list(out, "apfa", call.foreign_applications.as_slice())
}

/// The members of the application and its schemas, and the clear state program that a call brings.
fn put_application(alloc: Global, out: &mut Writer, call: &CallData) -> Result<(), AllocError>
    ensures { OnOk result (AddsMembers out.old out.new (application_members call.now)) }
{
    put_schema_if_any(out, "apgs", call.global_schema)?;
    put_uint_if_any(out, "apid", call.application)?;
    put_schema_if_any(out, "apls", call.local_schema)?;
    put_bytes_if_any(alloc, out, "apsu", call.clear.as_slice())
}

/// The members of fee, rounds, lease, note and new authority.
fn put_terms(alloc: Global, out: &mut Writer, call: &CallData) -> Result<(), AllocError>
    ensures { OnOk result (AddsMembers out.old out.new (term_members call.now)) }
{
    put_uint_if_any(out, "fee", call.fee)?;
    put_uint_if_any(out, "fv", call.first_valid)?;
    put_uint_if_any(out, "lv", call.last_valid)?;
    put_lease(alloc, out, &call.lease)?;
    put_bytes_if_any(alloc, out, "note", call.note.as_slice())?;
    put_authority(alloc, out, &call.rekey_to)
}

fn put_sender(alloc: Global, out: &mut Writer, sender: &Address) -> Result<(), AllocError>
    ensures { OnOk result (AddsMembers out.old out.new (sender_members sender.now)) }
{
    put_address_member(alloc, out, "snd", sender)?;
    put_text_member(out, "type", "appl")
}

fn put_uint_if_any(out: &mut Writer, name: &str, number: u64) -> Result<(), AllocError>
    ensures { OnOk result (AddsMembers out.old out.new (uint_if_any name.now number)) }
{
    if number == 0 {
        return Ok(());
    }
    put_uint_member(out, name, number)
}

fn put_bytes_if_any(
    alloc: Global,
    out: &mut Writer,
    name: &str,
    bytes: &[u8],
) -> Result<(), AllocError>
    ensures { OnOk result (AddsMembers out.old out.new (bytes_if_any name.now bytes.now)) }
{
    if bytes.is_empty() {
        return Ok(());
    }
    put_base64_member(alloc, out, name, bytes)
}

fn put_lease(alloc: Global, out: &mut Writer, lease: &[u8; 32]) -> Result<(), AllocError>
    ensures { OnOk result (AddsMembers out.old out.new (lease_if_any lease.now)) }
{
    if are_zeros(lease) {
        return Ok(());
    }
    put_base64_member(alloc, out, "lx", lease)
}

fn put_authority(alloc: Global, out: &mut Writer, who: &Address) -> Result<(), AllocError>
    ensures { OnOk result (AddsMembers out.old out.new (authority_if_any who.now)) }
{
    if are_zeros(&who.0) {
        return Ok(());
    }
    put_address_member(alloc, out, "rekey", who)
}

fn are_zeros(bytes: &[u8]) -> bool
    ensures { result ≡ are_zeros bytes.now }
{
    bytes.iter().all(|byte| *byte == 0)
}

/// A schema that is not empty, and of it the numbers that are not 0.
fn put_schema_if_any(out: &mut Writer, name: &str, schema: Schema) -> Result<(), AllocError>
    ensures { OnOk result (AddsMembers out.old out.new (schema_if_any name.now schema)) }
{
    let bytes = u64::from(schema.bytes);
    let uints = u64::from(schema.uints);
    if bytes + uints == 0 {
        return Ok(());
    }
    put_name(out, name)?;
    begin_object(out)?;
    put_uint_if_any(out, "nbs", bytes)?;
    put_uint_if_any(out, "nui", uints)?;
    end_object(out)
}

/// Byte strings, if there are any.
fn put_bytes_list(
    alloc: Global,
    out: &mut Writer,
    name: &str,
    strings: &[ByteString],
) -> Result<(), AllocError>
    ensures { OnOk result (AddsMembers out.old out.new (array_if_any name.now base64 strings.now)) }
{
    if strings.is_empty() {
        return Ok(());
    }
    put_name(out, name)?;
    put_bytes_items(alloc, out, strings)
}

fn put_bytes_items(
    alloc: Global,
    out: &mut Writer,
    strings: &[ByteString],
) -> Result<(), AllocError>
    ensures { OnOk result (Adds out.old out.new (json_tokens (array_of base64 strings.now))) }
{
    begin_array(out)?;
    for string in strings {
        put_base64(alloc, out, string.as_slice())?;
    }
    end_array(out)
}

/// Addresses, if there are any.
fn put_address_list(
    alloc: Global,
    out: &mut Writer,
    name: &str,
    addresses: &[Address],
) -> Result<(), AllocError>
    ensures { OnOk result
        (AddsMembers out.old out.new (array_if_any name.now address addresses.now)) }
{
    if addresses.is_empty() {
        return Ok(());
    }
    put_name(out, name)?;
    put_address_items(alloc, out, addresses)
}

fn put_address_items(
    alloc: Global,
    out: &mut Writer,
    addresses: &[Address],
) -> Result<(), AllocError>
    ensures { OnOk result (Adds out.old out.new (json_tokens (array_of address addresses.now))) }
{
    begin_array(out)?;
    for who in addresses {
        put_address(alloc, out, who)?;
    }
    end_array(out)
}

/// Numbers, if there are any.
fn put_uint_list(out: &mut Writer, name: &str, numbers: &[u64]) -> Result<(), AllocError>
    ensures { OnOk result (AddsMembers out.old out.new (array_if_any name.now uint numbers.now)) }
{
    if numbers.is_empty() {
        return Ok(());
    }
    put_name(out, name)?;
    put_uint_items(out, numbers)
}

fn put_uint_items(out: &mut Writer, numbers: &[u64]) -> Result<(), AllocError>
    ensures { OnOk result (Adds out.old out.new (json_tokens (array_of uint numbers.now))) }
{
    begin_array(out)?;
    for number in numbers {
        put_uint(out, *number)?;
    }
    end_array(out)
}
