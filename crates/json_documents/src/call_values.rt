//! Values of some members of a transaction.

ghost use Rattle.std.specs.Prelude.{◌≡◌};
ghost use Rattle.teal_value.specs.Answer.{Gives};
ghost use Rattle.json_documents.specs.Transactions.{completion_of, only_appl, whole_lease};

use crate::arrays::Gather;
use crate::document_fault::DocumentFault;
use crate::fault::{Fault, FieldError};
use crate::members::Form;
use crate::plain::{Bytes, PlainAddress, Uint, text_of};
use avm_items::{Addresses, Completion};
use json::Value;
use std::alloc::Global;
use teal_value::{ByteStrings, Uints};

/// The type of a transaction that calls an application.
#[derive(Clone, Copy)]
pub(crate) struct TypeForm;

impl Form for TypeForm {
    type Read = ();

    ghost use Rattle.json_documents.specs.Transactions.{call_type};

    ghost meaning = { λ _. call_type };

    fn read(&self, alloc: Global, value: &Value<'_>) -> Result<(), FieldError> {
        let name = text_of(alloc, value)?;
        only_appl(alloc, name)
    }
}

fn only_appl(alloc: Global, name: &str) -> Result<(), FieldError>
    ensures { Gives (λ x. x) result (only_appl name.now) }
{
    if name == "appl" {
        Ok(())
    } else {
        Err(Fault::here(alloc, DocumentFault::TxnType))
    }
}

/// A completion, by its number.
#[derive(Clone, Copy)]
pub(crate) struct CompletionForm;

impl Form for CompletionForm {
    type Read = Completion;

    ghost use Rattle.json_documents.specs.Transactions.{action};

    ghost meaning = { λ _. action };

    fn read(&self, alloc: Global, value: &Value<'_>) -> Result<Completion, FieldError> {
        let number = Uint.read(alloc, value)?;
        completion_of(alloc, number)
    }
}

fn completion_of(alloc: Global, number: u64) -> Result<Completion, FieldError>
    ensures { Gives (λ c. c) result (completion_of number) }
{
    match number {
        0 => Ok(Completion::NoOp),
        1 => Ok(Completion::OptIn),
        2 => Ok(Completion::CloseOut),
        3 => Ok(Completion::ClearState),
        4 => Ok(Completion::UpdateApplication),
        5 => Ok(Completion::DeleteApplication),
        _ => Err(Fault::here(alloc, DocumentFault::Completion)),
    }
}

/// A lease.
#[derive(Clone, Copy)]
pub(crate) struct LeaseForm;

impl Form for LeaseForm {
    type Read = [u8; 32];

    ghost use Rattle.json_documents.specs.Transactions.{lease};

    ghost meaning = { λ _. lease };

    fn read(&self, alloc: Global, value: &Value<'_>) -> Result<[u8; 32], FieldError> {
        let bytes = Bytes.read(alloc, value)?;
        whole_lease(alloc, bytes.as_slice())
    }
}

fn whole_lease(alloc: Global, bytes: &[u8]) -> Result<[u8; 32], FieldError>
    ensures { Gives (λ l. l) result (whole_lease bytes.now) }
{
    if bytes.len() == 32 {
        let mut lease = [0; 32];
        lease.copy_from_slice(bytes);
        Ok(lease)
    } else {
        Err(Fault::here(alloc, DocumentFault::LeaseLength))
    }
}

/// Arguments.
#[derive(Clone, Copy)]
pub(crate) struct Arguments;

impl Gather for Arguments {
    type Gathered = ByteStrings;

    ghost use Rattle.json_documents.specs.Transactions.{with_bytes};

    ghost adding = { λ _. with_bytes };

    fn add(
        &self,
        alloc: Global,
        so_far: ByteStrings,
        element: &Value<'_>,
    ) -> Result<ByteStrings, FieldError> {
        let bytes = Bytes.read(alloc, element)?;
        let mut all = so_far.into_vec();
        all.push(bytes)?;
        Ok(ByteStrings::from_vec(all))
    }
}

/// Accounts beside the sender.
#[derive(Clone, Copy)]
pub(crate) struct CallAccounts;

impl Gather for CallAccounts {
    type Gathered = Addresses;

    ghost use Rattle.json_documents.specs.Transactions.{with_address};

    ghost adding = { λ _. with_address };

    fn add(
        &self,
        alloc: Global,
        so_far: Addresses,
        element: &Value<'_>,
    ) -> Result<Addresses, FieldError> {
        let who = PlainAddress.read(alloc, element)?;
        let mut all = so_far.into_vec();
        all.push(who)?;
        Ok(Addresses::from_vec(all))
    }
}

/// Foreign applications.
#[derive(Clone, Copy)]
pub(crate) struct ForeignApplications;

impl Gather for ForeignApplications {
    type Gathered = Uints;

    ghost use Rattle.json_documents.specs.Transactions.{with_uint};

    ghost adding = { λ _. with_uint };

    fn add(&self, alloc: Global, so_far: Uints, element: &Value<'_>) -> Result<Uints, FieldError> {
        let number = Uint.read(alloc, element)?;
        let mut all = so_far.into_vec();
        all.push(number)?;
        Ok(Uints::from_vec(all))
    }
}
