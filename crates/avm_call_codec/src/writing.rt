//! The fields of a call, written one after another.

ghost use Rattle.std.specs.Prelude.{◌≡◌, ◌++◌, OnErr, OnOk};
ghost use Rattle.teal_code.specs.Encoding.{Continues};
ghost use Rattle.avm_ledger.specs.Encodings.{counted_bytes, string_bytes, u64_bytes, u8_bytes};
ghost use Rattle.avm_call_codec.specs.CallEncoding.{address_bytes, call_bytes, lists_bytes, programs_bytes, target_bytes, terms_bytes};

use avm_items::CallData;
use avm_ledger::encoding::{cut_if_refused, put_schema, put_short_count, put_string, put_u64};
use std::alloc::AllocError;
use teal_value::{Address, ByteString};

/// Appends a call's encoding. Where memory is refused, the bytes hold what they held.
pub(crate) fn put_call(bytes: &mut Vec<u8>, call: &CallData) -> Result<(), AllocError>
    ensures written { OnOk result (bytes.new.items ≡ bytes.old.items ++ call_bytes call.now) }
    ensures unchanged { OnErr result (bytes.new.items ≡ bytes.old.items) }
{
    let start = bytes.len();
    let appended = push_call(bytes, call);
    cut_if_refused(bytes, start, appended)
}

// Where memory is refused, a part of the encoding may stand behind what was there. So it is with all that follow.
fn push_call(bytes: &mut Vec<u8>, call: &CallData) -> Result<(), AllocError>
    ensures written { OnOk result (bytes.new.items ≡ bytes.old.items ++ call_bytes call.now) }
    ensures kept { Continues bytes.old.items bytes.new.items }
{
    push_terms(bytes, call)?;
    push_target(bytes, call)?;
    push_lists(bytes, call)?;
    push_programs(bytes, call)?;
    Ok(())
}

fn push_terms(bytes: &mut Vec<u8>, call: &CallData) -> Result<(), AllocError>
    ensures written { OnOk result (bytes.new.items ≡ bytes.old.items ++ terms_bytes call.now) }
    ensures kept { Continues bytes.old.items bytes.new.items }
{
    bytes.extend_from_slice(&call.sender.0)?;
    put_u64(bytes, call.fee)?;
    put_u64(bytes, call.first_valid)?;
    put_u64(bytes, call.last_valid)?;
    put_string(bytes, call.note.as_slice())
}

fn push_target(bytes: &mut Vec<u8>, call: &CallData) -> Result<(), AllocError>
    ensures written { OnOk result (bytes.new.items ≡ bytes.old.items ++ target_bytes call.now) }
    ensures kept { Continues bytes.old.items bytes.new.items }
{
    bytes.extend_from_slice(&call.lease)?;
    bytes.extend_from_slice(&call.rekey_to.0)?;
    put_u64(bytes, call.application)?;
    bytes.push(call.completion.number())?;
    Ok(())
}

fn push_lists(bytes: &mut Vec<u8>, call: &CallData) -> Result<(), AllocError>
    ensures written { OnOk result (bytes.new.items ≡ bytes.old.items ++ lists_bytes call.now) }
    ensures kept { Continues bytes.old.items bytes.new.items }
{
    push_strings(bytes, call.arguments.as_slice())?;
    push_addresses(bytes, call.accounts.as_slice())?;
    push_uints(bytes, call.foreign_applications.as_slice())
}

fn push_programs(bytes: &mut Vec<u8>, call: &CallData) -> Result<(), AllocError>
    ensures written { OnOk result (bytes.new.items ≡ bytes.old.items ++ programs_bytes call.now) }
    ensures kept { Continues bytes.old.items bytes.new.items }
{
    put_string(bytes, call.approval.as_slice())?;
    put_string(bytes, call.clear.as_slice())?;
    put_schema(bytes, call.global_schema)?;
    put_schema(bytes, call.local_schema)
}

fn push_strings(bytes: &mut Vec<u8>, strings: &[ByteString]) -> Result<(), AllocError>
    ensures written { OnOk result
        (bytes.new.items ≡ bytes.old.items ++ counted_bytes u8_bytes string_bytes strings.now) }
    ensures kept { Continues bytes.old.items bytes.new.items }
{
    put_short_count(bytes, strings.len())?;
    for string in strings {
        put_string(bytes, string.as_slice())?;
    }
    Ok(())
}

fn push_addresses(bytes: &mut Vec<u8>, addresses: &[Address]) -> Result<(), AllocError>
    ensures written { OnOk result
        (bytes.new.items ≡ bytes.old.items ++ counted_bytes u8_bytes address_bytes addresses.now) }
    ensures kept { Continues bytes.old.items bytes.new.items }
{
    put_short_count(bytes, addresses.len())?;
    for address in addresses {
        bytes.extend_from_slice(&address.0)?;
    }
    Ok(())
}

fn push_uints(bytes: &mut Vec<u8>, numbers: &[u64]) -> Result<(), AllocError>
    ensures written { OnOk result
        (bytes.new.items ≡ bytes.old.items ++ counted_bytes u8_bytes u64_bytes numbers.now) }
    ensures kept { Continues bytes.old.items bytes.new.items }
{
    put_short_count(bytes, numbers.len())?;
    for number in numbers {
        put_u64(bytes, *number)?;
    }
    Ok(())
}
