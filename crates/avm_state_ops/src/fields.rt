//! The values of the fields of a call.

ghost use Rattle.std.specs.Prelude.{◌≡◌, IfOk};
ghost use Rattle.teal_value.specs.declared.value.Value.TheVariants.{Bytes};
ghost use Rattle.teal_value.specs.Answer.{Gives};
ghost use Rattle.teal_value.specs.declared.fault.Fault.TheVariants.{NoAccount};
ghost use Rattle.avm_items.specs.CallFields.{account};
ghost use Rattle.avm_ops.specs.Fields.{array_field, scalar_field, txn_array_value, txn_value, zero_address_bytes};
ghost use Rattle.avm_ops.specs.Frame.{there};
ghost use Rattle.avm_state_ops.specs.Parts.{number_in};

use avm_items::CallData;
use std::alloc::{AllocError, Global};
use teal_table::{TxnField, txn_field};
use teal_value::{Address, ByteString, Failure, Fault, Value};

/// The address of no account.
pub(crate) const ZERO_ADDRESS: [u8; 32] = [0; 32];

/// A byte string as a value of its own.
pub(crate) fn bytes_value(alloc: Global, bytes: &[u8]) -> Result<Value, AllocError>
    ensures { IfOk result (λ v. v ≡ Bytes bytes.now) }
{
    Ok(Value::Bytes(ByteString::from_slice(alloc, bytes)?))
}

/// The account of an index: the sender at 0, and the call's accounts from 1 on.
pub(crate) fn account(call: &CallData, index: u64) -> Result<Address, Fault>
    ensures { result ≡ there (account call.now index) NoAccount }
{
    if index == 0 {
        return Ok(call.sender);
    }
    match call.accounts.as_slice().get((index - 1) as usize) {
        Some(who) => Ok(*who),
        None => Err(Fault::NoAccount),
    }
}

/// The number that a field is, if it is one.
fn txn_number(call: &CallData, field: TxnField) -> Option<u64>
    ensures { result ≡ number_in (txn_value call.now field) }
{
    match field {
        TxnField::Fee => Some(call.fee),
        TxnField::FirstValid => Some(call.first_valid),
        TxnField::LastValid => Some(call.last_valid),
        TxnField::Amount | TxnField::GroupIndex => Some(0),
        TxnField::TypeEnum => Some(6),
        TxnField::ApplicationId => Some(call.application),
        TxnField::OnCompletion => Some(u64::from(call.completion.number())),
        TxnField::NumAppArgs => Some(call.arguments.as_slice().len() as u64),
        TxnField::NumAccounts => Some(call.accounts.as_slice().len() as u64),
        _ => None,
    }
}

/// The value of a field that is no array.
fn txn_value(alloc: Global, call: &CallData, field: TxnField) -> Result<Value, Failure<Fault>>
    ensures { Gives (λ v. v) result (txn_value call.now field) }
{
    if let Some(number) = txn_number(call, field) {
        return Ok(Value::Uint(number));
    }
    match field {
        TxnField::Sender => Ok(bytes_value(alloc, &call.sender.0)?),
        TxnField::Note => Ok(bytes_value(alloc, call.note.as_slice())?),
        TxnField::Lease => Ok(bytes_value(alloc, &call.lease)?),
        TxnField::Receiver | TxnField::CloseRemainderTo => Ok(bytes_value(alloc, &ZERO_ADDRESS)?),
        TxnField::Type => Ok(bytes_value(alloc, b"appl")?),
        TxnField::ApprovalProgram => Ok(bytes_value(alloc, call.approval.as_slice())?),
        TxnField::ClearStateProgram => Ok(bytes_value(alloc, call.clear.as_slice())?),
        TxnField::RekeyTo => Ok(bytes_value(alloc, &call.rekey_to.0)?),
        _ => Err(Failure::Fault(Fault::BadField)),
    }
}

/// The value of an array field at an index.
fn txn_array_value(
    alloc: Global,
    call: &CallData,
    field: TxnField,
    index: u8,
) -> Result<Value, Failure<Fault>>
    ensures { Gives (λ v. v) result (txn_array_value call.now field index) }
{
    match field {
        TxnField::ApplicationArgs => match call.arguments.as_slice().get(usize::from(index)) {
            Some(argument) => Ok(bytes_value(alloc, argument.as_slice())?),
            None => Err(Failure::Fault(Fault::NoArg)),
        },
        TxnField::Accounts => match account(call, u64::from(index)) {
            Ok(who) => Ok(bytes_value(alloc, &who.0)?),
            Err(fault) => Err(Failure::Fault(fault)),
        },
        _ => Err(Failure::Fault(Fault::BadField)),
    }
}

/// The number that the field of a number is, if it is one.
pub(crate) fn scalar_number(call: &CallData, number: u8) -> Option<u64>
    ensures { result ≡ number_in (scalar_field call.now number) }
{
    match txn_field(number) {
        Some(field) => txn_number(call, field),
        None => None,
    }
}

/// The value of the field of a number.
pub(crate) fn scalar_field(
    alloc: Global,
    call: &CallData,
    number: u8,
) -> Result<Value, Failure<Fault>>
    ensures { Gives (λ v. v) result (scalar_field call.now number) }
{
    match txn_field(number) {
        Some(field) => txn_value(alloc, call, field),
        None => Err(Failure::Fault(Fault::BadField)),
    }
}

/// The value of the array field of a number, at an index.
pub(crate) fn array_field(
    alloc: Global,
    call: &CallData,
    number: u8,
    index: u8,
) -> Result<Value, Failure<Fault>>
    ensures { Gives (λ v. v) result (array_field call.now number index) }
{
    match txn_field(number) {
        Some(field) => txn_array_value(alloc, call, field, index),
        None => Err(Failure::Fault(Fault::BadField)),
    }
}
