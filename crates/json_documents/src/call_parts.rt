//! The fields of a call, in the two parts in which a transaction has them.

ghost use Rattle.std.specs.Prelude.{◌≡◌, IfOk};
ghost use Rattle.json_documents.specs.Transactions.{fields};

use avm_items::{Addresses, CallData, Completion};
use avm_states::Schema;
use std::alloc::{AllocError, Global};
use teal_value::{Address, ByteString, ByteStrings, ThinBytes, Uints};

/// What is called, and with what.
#[derive(Drop)]
pub(crate) struct Target {
    pub arguments: ByteStrings,
    pub completion: Completion,
    pub approval: ByteString,
    pub accounts: Addresses,
    pub foreign_applications: Uints,
    pub global_schema: Schema,
    pub application: u64,
    pub local_schema: Schema,
    pub clear: ByteString,
}

/// By whom, and on what terms.
#[derive(Drop)]
pub(crate) struct Terms {
    pub fee: u64,
    pub first_valid: u64,
    pub last_valid: u64,
    pub lease: [u8; 32],
    pub note: ByteString,
    pub rekey_to: Address,
    pub sender: Address,
}

/// Both as the fields of a call.
pub(crate) fn fields(alloc: Global, target: Target, terms: Terms) -> Result<CallData, AllocError>
    ensures { IfOk result (λ call. call ≡ fields target terms) }
{
    let lease = terms.lease;
    Ok(CallData {
        sender: terms.sender,
        fee: terms.fee,
        first_valid: terms.first_valid,
        last_valid: terms.last_valid,
        note: terms.note,
        lease,
        rekey_to: terms.rekey_to,
        application: target.application,
        completion: target.completion,
        arguments: target.arguments,
        accounts: target.accounts,
        foreign_applications: target.foreign_applications,
        approval: ThinBytes::from_bytes(alloc, target.approval)?,
        clear: ThinBytes::from_bytes(alloc, target.clear)?,
        global_schema: target.global_schema,
        local_schema: target.local_schema,
    })
}
