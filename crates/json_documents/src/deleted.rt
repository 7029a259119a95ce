//! What is listed as deleted.

ghost use Rattle.std.specs.Prelude.{◌≡◌};
ghost use Rattle.teal_value.specs.Answer.{Gives};
ghost use Rattle.json.specs.Value.{value_view};
ghost use Rattle.json_documents.specs.Deleted.{only_false, still_known};
ghost use Rattle.json_documents.specs.ShownSteps.{names_shown};

use crate::document_fault::DocumentFault;
use crate::fault::{Fault, FieldError};
use crate::members::{Form, optional, reject_unknown};
use crate::plain::boolean_of;
use json::Value;
use std::alloc::Global;

/// Whether it is deleted, which has to be false.
#[derive(Clone, Copy)]
struct DeletedForm;

impl Form for DeletedForm {
    type Read = ();

    ghost use Rattle.json_documents.specs.Deleted.{not_deleted};

    ghost meaning = { λ _. not_deleted };

    fn read(&self, alloc: Global, value: &Value<'_>) -> Result<(), FieldError> {
        let gone = boolean_of(alloc, value)?;
        only_false(alloc, gone)
    }
}

fn only_false(alloc: Global, gone: bool) -> Result<(), FieldError>
    ensures { Gives (λ x. x) result (only_false gone) }
{
    if gone {
        Err(Fault::here(alloc, DocumentFault::Deleted))
    } else {
        Ok(())
    }
}

/// Refuses what is no object of these names, as [`reject_unknown`] does, and what is listed as deleted.
pub(crate) fn still_known(
    alloc: Global,
    names: &[&str],
    object: &Value<'_>,
) -> Result<(), FieldError>
    ensures { Gives (λ x. x) result (still_known (names_shown names.now) (value_view object.now)) }
{
    reject_unknown(alloc, names, object)?;
    optional(alloc, &DeletedForm, (), object, "deleted")
}
