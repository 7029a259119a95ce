//! Ids of applications.

ghost use Rattle.std.specs.Prelude.{◌≡◌, ◌+◌};
ghost use Rattle.teal_value.specs.Answer.{Gives};
ghost use Rattle.json_documents.specs.Ids.{in_range, some_positive, end_of_ids, first_next_id};

use crate::document_fault::DocumentFault;
use crate::fault::{Fault, FieldError};
use crate::members::Form;
use crate::plain::Uint;
use json::Value;
use std::alloc::Global;
use std::marker::Model;

/// The id of an application, which is no 2^64 - 1.
#[derive(Clone, Copy)]
pub(crate) struct Id {
    number: u64,
}

impl Model for Id {
    ghost use Rattle.std.specs.Prelude.{ℕ, ◌<◌, ◌-◌, ◌^◌};

    ghost Value = { ℕ };

    ghost view = { λ id. id.number };

    ghost invariant = { λ id. id.number < 2 ^ 64 - 1 };

    ghost inverse = { λ n. record { number = n } };
}

impl Id {
    /// Its number.
    pub fn number(self) -> u64
        ensures { result ≡ self }
    {
        self.number
    }

    /// The number behind it.
    pub fn next(self) -> u64
        ensures { result ≡ self + 1 }
    {
        self.number + 1
    }
}

/// An id below this end.
#[derive(Clone, Copy)]
pub(crate) struct IdForm {
    pub end: u64,
}

impl Form for IdForm {
    type Read = Id;

    ghost use Rattle.json_documents.specs.Ids.{id_below};

    ghost meaning = { λ f. id_below f.end };

    fn read(&self, alloc: Global, value: &Value<'_>) -> Result<Id, FieldError> {
        let number = Uint.read(alloc, value)?;
        in_range(alloc, self.end, number)
    }
}

fn in_range(alloc: Global, end: u64, number: u64) -> Result<Id, FieldError>
    ensures { Gives (λ id. id) result (in_range end number) }
{
    if 1 <= number && number < end {
        Ok(Id { number })
    } else {
        Err(Fault::here(alloc, DocumentFault::IdRange))
    }
}

/// The id of the next application, where it is given.
#[derive(Clone, Copy)]
pub(crate) struct NextIdForm;

impl Form for NextIdForm {
    type Read = Option<u64>;

    ghost use Rattle.json_documents.specs.Ids.{next_id};

    ghost meaning = { λ _. next_id };

    fn read(&self, alloc: Global, value: &Value<'_>) -> Result<Option<u64>, FieldError> {
        let number = Uint.read(alloc, value)?;
        some_positive(alloc, number)
    }
}

fn some_positive(alloc: Global, number: u64) -> Result<Option<u64>, FieldError>
    ensures { Gives (λ n. n) result (some_positive number) }
{
    if 1 <= number {
        Ok(Some(number))
    } else {
        Err(Fault::here(alloc, DocumentFault::IdRange))
    }
}

/// The end of ids, where the next one may be given.
pub(crate) fn end_of_ids(next: Option<u64>) -> u64
    ensures { result ≡ end_of_ids next }
{
    next.unwrap_or(u64::MAX)
}

/// The next id before any application is read.
pub(crate) fn first_next_id(next: Option<u64>) -> u64
    ensures { result ≡ first_next_id next }
{
    next.unwrap_or(1)
}
