//! Transactions that call applications.

ghost use Rattle.std.specs.Prelude.{◌≡◌, [], codes, is_some, length};
ghost use Rattle.teal_value.specs.Answer.{Gives};
ghost use Rattle.json.specs.Find.{as_object};
ghost use Rattle.json.specs.Value.{value_view};
ghost use Rattle.json_documents.specs.Members.{required, optional};
ghost use Rattle.json_documents.specs.Plain.{bytes};
ghost use Rattle.json_documents.specs.Programs.{given_or};
ghost use Rattle.json_documents.specs.Sources.{program_at};
ghost use Rattle.json_documents.specs.Transactions.{call_fault_in, checked_call, lone_call, target, terms, transaction};

use crate::arrays::{Gather, each, optional_each};
use crate::call_parts::{Target, Terms, fields};
use crate::call_values::{
    Arguments, CallAccounts, CompletionForm, ForeignApplications, LeaseForm, TypeForm,
};
use crate::calls::{Batch, Calls, SharedCall};
use crate::document_fault::DocumentFault;
use crate::fault::{Fault, FieldError};
use crate::groups::{GroupForm, Groups};
use crate::members::{Form, optional, reject_unknown, required};
use crate::plain::{Bytes, PlainAddress, Uint};
use crate::schemas::{NO_ENTRIES, SchemaForm};
use crate::sources::{SourceField, Sources};
use crate::tables::{SIGNED, TRANSACTION};
use avm_block::MAX_ENTRIES;
use avm_call::{Call, CallFault};
use avm_items::{Addresses, CallData, Completion};
use avm_states::{MAX_GLOBAL_ENTRIES, MAX_LOCAL_ENTRIES};
use json::Value;
use std::alloc::Global;
use teal_value::{Address, ByteString, ByteStrings, Uints};

/// The transaction with this index, behind others with these groups.
#[derive(Clone, Copy)]
struct TransactionForm<'s> {
    sources: &'s Sources,
    groups: &'s Groups,
    index: u64,
}

impl Form for TransactionForm<'_> {
    type Read = (SharedCall, Option<[u8; 32]>);

    ghost use Rattle.json_documents.specs.Transactions.{transaction};

    ghost meaning = { λ f. transaction f.sources.now f.groups.now f.index };

    fn read(
        &self,
        alloc: Global,
        value: &Value<'_>,
    ) -> Result<(SharedCall, Option<[u8; 32]>), FieldError> {
        let group = lone_call(alloc, self.groups, value)?;
        reject_unknown(alloc, &TRANSACTION, value)?;
        let target = self.target(alloc, value)?;
        let terms = terms(alloc, value)?;
        let call = checked_call(alloc, fields(alloc, target, terms)?)?;
        Ok((call, group))
    }
}

impl TransactionForm<'_> {
    /// What is called, and with what: the members from `apaa` to `apsu`.
    fn target(&self, alloc: Global, txn: &Value<'_>) -> Result<Target, FieldError>
        ensures { Gives (λ t. t) result
            (target self.now.sources.now self.now.index (value_view txn.now)) }
    {
        let no_arguments = ByteStrings::from_vec(Vec::new(alloc));
        let arguments = optional_each(alloc, &Arguments, no_arguments, txn, "apaa")?;
        let completion = optional(alloc, &CompletionForm, Completion::NoOp, txn, "apan")?;
        let approval = self.program(alloc, SourceField::CallApproval, txn, "apap")?;
        let no_accounts = Addresses::from_vec(Vec::new(alloc));
        let accounts = optional_each(alloc, &CallAccounts, no_accounts, txn, "apat")?;
        let no_applications = Uints::from_vec(Vec::new(alloc));
        let foreign_applications = optional_each(
            alloc,
            &ForeignApplications,
            no_applications,
            txn,
            "apfa",
        )?;
        let global = SchemaForm::of_call(MAX_GLOBAL_ENTRIES as u8);
        let global_schema = optional(alloc, &global, NO_ENTRIES, txn, "apgs")?;
        let application = optional(alloc, &Uint, 0, txn, "apid")?;
        let local = SchemaForm::of_call(MAX_LOCAL_ENTRIES as u8);
        let local_schema = optional(alloc, &local, NO_ENTRIES, txn, "apls")?;
        let clear = self.program(alloc, SourceField::CallClear, txn, "apsu")?;
        Ok(Target {
            arguments,
            completion,
            approval,
            accounts,
            foreign_applications,
            global_schema,
            application,
            local_schema,
            clear,
        })
    }

    /// A program, which a source may give in place of the member.
    fn program(
        &self,
        alloc: Global,
        field: SourceField,
        txn: &Value<'_>,
        name: &'static str,
    ) -> Result<ByteString, FieldError>
        ensures { Gives (λ c. c) result (given_or (program_at self.now.sources.now
            field self.now.index) (optional name.now bytes [] (value_view txn.now))) }
    {
        match self.sources.program_at(field, self.index) {
            Some(code) => Ok(code.clone()?),
            None => optional(alloc, &Bytes, ByteString::new(), txn, name),
        }
    }
}

/// By whom, and on what terms: the members from `fee` to `snd`.
fn terms(alloc: Global, txn: &Value<'_>) -> Result<Terms, FieldError>
    ensures { Gives (λ t. t) result (terms (value_view txn.now)) }
{
    let fee = optional(alloc, &Uint, 0, txn, "fee")?;
    let first_valid = optional(alloc, &Uint, 0, txn, "fv")?;
    let last_valid = optional(alloc, &Uint, 0, txn, "lv")?;
    let lease = optional(alloc, &LeaseForm, [0; 32], txn, "lx")?;
    let note = optional(alloc, &Bytes, ByteString::new(), txn, "note")?;
    let rekey_to = optional(alloc, &PlainAddress, Address([0; 32]), txn, "rekey")?;
    let sender = required(alloc, &PlainAddress, txn, "snd")?;
    Ok(Terms {
        fee,
        first_valid,
        last_valid,
        lease,
        note,
        rekey_to,
        sender,
    })
}

/// The group of a transaction, if it has one. Refuses what is no object, no call, or in one of these groups, before its names are
/// looked at.
fn lone_call(
    alloc: Global,
    groups: &Groups,
    txn: &Value<'_>,
) -> Result<Option<[u8; 32]>, FieldError>
    ensures { Gives (λ g. g) result (lone_call groups.now (value_view txn.now)) }
{
    if !is_object(txn) {
        return Err(Fault::here(alloc, DocumentFault::NotObject));
    }
    required(alloc, &TypeForm, txn, "type")?;
    optional(alloc, &GroupForm { groups }, None, txn, "grp")
}

fn is_object(value: &Value<'_>) -> bool
    ensures { result ≡ is_some (as_object (value_view value.now)) }
{
    matches!(value, Value::Object(_))
}

/// The fields, where they make a call.
fn checked_call(alloc: Global, fields: CallData) -> Result<SharedCall, FieldError>
    ensures { Gives (λ c. c) result (checked_call fields) }
{
    match Call::check(alloc, fields) {
        Ok(call) => Ok(SharedCall::of(&call)?),
        Err((failure, _fields)) => {
            Err(failure.map(|fault| Fault::of(alloc, call_fault_in(fault))))
        }
    }
}

fn call_fault_in(fault: CallFault) -> DocumentFault
    ensures { result ≡ call_fault_in fault }
{
    match fault {
        CallFault::Accounts => DocumentFault::Accounts,
        CallFault::Args => DocumentFault::Args,
        CallFault::ArgBytes => DocumentFault::ArgBytes,
        CallFault::Foreign => DocumentFault::Foreign,
        CallFault::Note => DocumentFault::Note,
        CallFault::ProgramsMissing => DocumentFault::ProgramsMissing,
        CallFault::ProgramsGiven => DocumentFault::ProgramsGiven,
        CallFault::SchemaSize => DocumentFault::SchemaSize,
        CallFault::ClearOnCreate => DocumentFault::ClearOnCreate,
        CallFault::Program(fault) => DocumentFault::Program(fault),
    }
}

/// Transactions with their signatures.
#[derive(Clone, Copy)]
struct Signed<'s> {
    sources: &'s Sources,
}

impl Gather for Signed<'_> {
    type Gathered = Batch;

    ghost use Rattle.json_documents.specs.Transactions.{with_signed};

    ghost adding = { λ a. with_signed a.sources.now };

    fn add(&self, alloc: Global, so_far: Batch, element: &Value<'_>) -> Result<Batch, FieldError> {
        reject_unknown(alloc, &SIGNED, element)?;
        let (call, group) = self.transaction(alloc, &so_far, element)?;
        Ok(so_far.with(call, group)?)
    }
}

impl Signed<'_> {
    /// The transaction, behind those before it.
    fn transaction(
        &self,
        alloc: Global,
        so_far: &Batch,
        signed: &Value<'_>,
    ) -> Result<(SharedCall, Option<[u8; 32]>), FieldError>
        ensures { Gives (λ t. t) result (required (codes "txn") (transaction self.now.sources.now
            so_far.now.groups (length so_far.now.calls)) (value_view signed.now)) }
    {
        let form = TransactionForm {
            sources: self.sources,
            groups: so_far.groups(),
            index: so_far.len() as u64,
        };
        required(alloc, &form, signed, "txn")
    }
}

/// The transactions of a document.
#[derive(Clone, Copy)]
pub(crate) struct TransactionsForm<'s> {
    pub sources: &'s Sources,
}

impl Form for TransactionsForm<'_> {
    type Read = Calls;

    ghost use Rattle.json_documents.specs.Transactions.{transactions};

    ghost meaning = { λ f. transactions f.sources.now };

    fn read(&self, alloc: Global, value: &Value<'_>) -> Result<Calls, FieldError> {
        if value.at(MAX_ENTRIES).is_some() {
            return Err(Fault::here(alloc, DocumentFault::TooMany));
        }
        let signed = Signed {
            sources: self.sources,
        };
        let batch = each(alloc, &signed, Batch::new(alloc), value)?;
        Ok(batch.into_calls())
    }
}
