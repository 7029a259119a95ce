//! The fields of a call, read one after another.

ghost use Rattle.std.specs.Prelude.{◌≡◌};
ghost use Rattle.std.specs.Arc.{arc_value};
ghost use Rattle.std.specs.Int.{w64};
ghost use Rattle.teal_value.specs.Answer.{Gives};
ghost use Rattle.teal_code.specs.Reader.{many_at};
ghost use Rattle.avm_ledger.specs.FieldReader.{address_at, counted_at, number_at, string_at};
ghost use Rattle.avm_call_codec.specs.declared.call_data_fault.CallDataFault.TheVariants.{Truncated};
ghost use Rattle.avm_call_codec.specs.CallReader.{call_at, call_front, call_of_groups, completion_at, lists_at, programs_at, target_at, terms_at};

use crate::call_data_fault::{CallDataError, CallDataFault};
use crate::groups::{Lists, Programs, Target, Terms};
use avm_items::{Addresses, CallData, Completion};
use avm_ledger::Fields;
use std::alloc::Global;
use std::sync::Arc;
use teal_value::{Address, ByteString, ByteStrings, Failure, ThinBytes, Uints};

/// The call that the bytes are.
pub(crate) fn call_alone(alloc: Global, bytes: &[u8]) -> Result<CallData, CallDataError>
    ensures { Gives (λ call. call) result (call_at bytes.now) }
{
    let (call, rest) = front_of(alloc, Fields::new(bytes))?;
    if !rest.is_empty() {
        return Err(Failure::Fault(CallDataFault::Rest));
    }
    Ok(call)
}

/// The call that the bytes are, shared.
pub(crate) fn shared_alone(alloc: Global, bytes: &[u8]) -> Result<Arc<CallData>, CallDataError>
    ensures { Gives (λ call. arc_value call) result (call_at bytes.now) }
{
    let (call, rest) = shared_front_of(alloc, Fields::new(bytes))?;
    if !rest.is_empty() {
        return Err(Failure::Fault(CallDataFault::Rest));
    }
    Ok(call)
}

/// The call that the bytes begin with, and the bytes behind it.
pub(crate) fn front_of(
    alloc: Global,
    fields: Fields<'_>,
) -> Result<(CallData, Fields<'_>), CallDataError>
    ensures { Gives (λ x. x) result (call_front fields.entry) }
{
    let (terms, rest) = terms_of(alloc, fields)?;
    let (target, rest) = target_of(rest)?;
    let (lists, rest) = lists_of(alloc, rest)?;
    let (programs, rest) = programs_of(alloc, rest)?;
    Ok((call_of_groups(terms, target, lists, programs), rest))
}

/// The same, with the call in the memory where it stays.
pub(crate) fn shared_front_of(
    alloc: Global,
    fields: Fields<'_>,
) -> Result<(Arc<CallData>, Fields<'_>), CallDataError>
    ensures { Gives (λ x. (arc_value x.0, x.1)) result (call_front fields.entry) }
{
    let (terms, rest) = terms_of(alloc, fields)?;
    let (target, rest) = target_of(rest)?;
    let (lists, rest) = lists_of(alloc, rest)?;
    let (programs, rest) = programs_of(alloc, rest)?;
    let call = Arc::new(alloc, call_of_groups(terms, target, lists, programs))?;
    Ok((call, rest))
}

// A call of it would move the fields once more.
#[inline(always)]
fn call_of_groups(terms: Terms, target: Target, lists: Lists, programs: Programs) -> CallData
    ensures { result ≡ call_of_groups terms target lists programs }
{
    let lease = target.lease;
    CallData {
        sender: terms.sender,
        fee: terms.fee,
        first_valid: terms.first_valid,
        last_valid: terms.last_valid,
        note: terms.note,
        lease,
        rekey_to: target.rekey_to,
        application: target.application,
        completion: target.completion,
        arguments: lists.arguments,
        accounts: lists.accounts,
        foreign_applications: lists.foreign_applications,
        approval: programs.approval,
        clear: programs.clear,
        global_schema: programs.global_schema,
        local_schema: programs.local_schema,
    }
}

fn terms_of(alloc: Global, fields: Fields<'_>) -> Result<(Terms, Fields<'_>), CallDataError>
    ensures { Gives (λ x. x) result (terms_at fields.entry) }
{
    let truncated = CallDataFault::Truncated;
    let (sender, rest) = fields.address(truncated)?;
    let (fee, rest) = rest.u64(truncated)?;
    let (first_valid, rest) = rest.u64(truncated)?;
    let (last_valid, rest) = rest.u64(truncated)?;
    let (note, rest) = string_of(alloc, rest)?;
    let terms = Terms {
        sender,
        fee,
        first_valid,
        last_valid,
        note,
    };
    Ok((terms, rest))
}

fn target_of(fields: Fields<'_>) -> Result<(Target, Fields<'_>), CallDataError>
    ensures { Gives (λ x. x) result (target_at fields.entry) }
{
    let truncated = CallDataFault::Truncated;
    let (lease, rest) = fields.array(truncated)?;
    let (rekey_to, rest) = rest.address(truncated)?;
    let (application, rest) = rest.u64(truncated)?;
    let (completion, rest) = completion_of(rest)?;
    let target = Target {
        lease,
        rekey_to,
        application,
        completion,
    };
    Ok((target, rest))
}

fn lists_of(alloc: Global, fields: Fields<'_>) -> Result<(Lists, Fields<'_>), CallDataError>
    ensures { Gives (λ x. x) result (lists_at fields.entry) }
{
    let (arguments, rest) = strings_of(alloc, fields)?;
    let (accounts, rest) = addresses_of(alloc, rest)?;
    let (foreign_applications, rest) = uints_of(alloc, rest)?;
    let lists = Lists {
        arguments,
        accounts,
        foreign_applications,
    };
    Ok((lists, rest))
}

fn programs_of(alloc: Global, fields: Fields<'_>) -> Result<(Programs, Fields<'_>), CallDataError>
    ensures { Gives (λ x. x) result (programs_at fields.entry) }
{
    let (approval, rest) = thin_string_of(alloc, fields)?;
    let (clear, rest) = thin_string_of(alloc, rest)?;
    let (global_schema, rest) = rest.schema(CallDataFault::Truncated)?;
    let (local_schema, rest) = rest.schema(CallDataFault::Truncated)?;
    let programs = Programs {
        approval,
        clear,
        global_schema,
        local_schema,
    };
    Ok((programs, rest))
}

fn completion_of(fields: Fields<'_>) -> Result<(Completion, Fields<'_>), CallDataError>
    ensures { Gives (λ x. x) result (completion_at fields.entry) }
{
    let (number, rest) = fields.u8(CallDataFault::Truncated)?;
    let completion = match number {
        0 => Completion::NoOp,
        1 => Completion::OptIn,
        2 => Completion::CloseOut,
        3 => Completion::ClearState,
        4 => Completion::UpdateApplication,
        5 => Completion::DeleteApplication,
        _ => return Err(Failure::Fault(CallDataFault::Field)),
    };
    Ok((completion, rest))
}

fn string_of(alloc: Global, fields: Fields<'_>) -> Result<(ByteString, Fields<'_>), CallDataError>
    ensures { Gives (λ x. x) result (string_at Truncated fields.entry) }
{
    let (bytes, rest) = fields.string(CallDataFault::Truncated)?;
    Ok((ByteString::from_slice(alloc, bytes)?, rest))
}

fn thin_string_of(
    alloc: Global,
    fields: Fields<'_>,
) -> Result<(ThinBytes, Fields<'_>), CallDataError>
    ensures { Gives (λ x. x) result (string_at Truncated fields.entry) }
{
    let (bytes, rest) = fields.string(CallDataFault::Truncated)?;
    Ok((ThinBytes::from_slice(alloc, bytes)?, rest))
}

fn strings_of(alloc: Global, fields: Fields<'_>) -> Result<(ByteStrings, Fields<'_>), CallDataError>
    ensures { Gives (λ x. x) result (counted_at Truncated (string_at Truncated) fields.entry) }
{
    let (count, rest) = fields.u8(CallDataFault::Truncated)?;
    let (strings, rest) = many_strings(alloc, count, rest)?;
    Ok((ByteStrings::from_vec(strings), rest))
}

fn many_strings(
    alloc: Global,
    count: u8,
    fields: Fields<'_>,
) -> Result<(Vec<ByteString>, Fields<'_>), CallDataError>
    ensures { Gives (λ x. (x.0.items, x.1)) result
        (many_at (string_at Truncated) count fields.entry) }
{
    let mut strings = Vec::new(alloc);
    let mut rest = fields;
    for _ in 0..count {
        let (string, next) = string_of(alloc, rest)?;
        strings.push(string)?;
        rest = next;
    }
    Ok((strings, rest))
}

fn addresses_of(alloc: Global, fields: Fields<'_>) -> Result<(Addresses, Fields<'_>), CallDataError>
    ensures { Gives (λ x. x) result (counted_at Truncated (address_at Truncated) fields.entry) }
{
    let (count, rest) = fields.u8(CallDataFault::Truncated)?;
    let (addresses, rest) = many_addresses(alloc, count, rest)?;
    Ok((Addresses::from_vec(addresses), rest))
}

fn many_addresses(
    alloc: Global,
    count: u8,
    fields: Fields<'_>,
) -> Result<(Vec<Address>, Fields<'_>), CallDataError>
    ensures { Gives (λ x. (x.0.items, x.1)) result
        (many_at (address_at Truncated) count fields.entry) }
{
    let mut addresses = Vec::new(alloc);
    let mut rest = fields;
    for _ in 0..count {
        let (address, next) = rest.address(CallDataFault::Truncated)?;
        addresses.push(address)?;
        rest = next;
    }
    Ok((addresses, rest))
}

fn uints_of(alloc: Global, fields: Fields<'_>) -> Result<(Uints, Fields<'_>), CallDataError>
    ensures { Gives (λ x. x) result (counted_at Truncated (number_at Truncated w64) fields.entry) }
{
    let (count, rest) = fields.u8(CallDataFault::Truncated)?;
    let (numbers, rest) = many_uints(alloc, count, rest)?;
    Ok((Uints::from_vec(numbers), rest))
}

fn many_uints(
    alloc: Global,
    count: u8,
    fields: Fields<'_>,
) -> Result<(Vec<u64>, Fields<'_>), CallDataError>
    ensures { Gives (λ x. (x.0.items, x.1)) result
        (many_at (number_at Truncated w64) count fields.entry) }
{
    let mut numbers = Vec::new(alloc);
    let mut rest = fields;
    for _ in 0..count {
        let (number, next) = rest.u64(CallDataFault::Truncated)?;
        numbers.push(number)?;
        rest = next;
    }
    Ok((numbers, rest))
}
