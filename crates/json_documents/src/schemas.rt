//! Schemas.

ghost use Rattle.std.specs.Prelude.{◌≡◌, codes};
ghost use Rattle.teal_value.specs.Answer.{Gives};
ghost use Rattle.json_documents.specs.Schemas.{limited};

use crate::document_fault::DocumentFault;
use crate::fault::{Fault, FieldError};
use crate::members::{Form, optional, reject_unknown};
use crate::plain::Uint;
use avm_states::Schema;
use json::Value;
use std::alloc::Global;

/// A schema that allows no entries.
pub(crate) const NO_ENTRIES: Schema = Schema { uints: 0, bytes: 0 };

/// A schema of at most so many entries, with the names of its two members.
#[derive(Clone, Copy)]
pub(crate) struct SchemaForm {
    pub byte_strings: &'static str,
    pub uints: &'static str,
    pub most: u8,
}

impl SchemaForm {
    /// Of an application, of at most so many entries.
    pub fn of_application(most: u8) -> SchemaForm
        ensures bytes { result.byte_strings.now ≡ codes "num-byte-slice" }
        ensures uints { result.uints.now ≡ codes "num-uint" }
        ensures most { result.most ≡ most }
    {
        SchemaForm {
            byte_strings: "num-byte-slice",
            uints: "num-uint",
            most,
        }
    }

    /// Of a call, of at most so many entries.
    pub fn of_call(most: u8) -> SchemaForm
        ensures bytes { result.byte_strings.now ≡ codes "nbs" }
        ensures uints { result.uints.now ≡ codes "nui" }
        ensures most { result.most ≡ most }
    {
        SchemaForm {
            byte_strings: "nbs",
            uints: "nui",
            most,
        }
    }
}

impl Form for SchemaForm {
    type Read = Schema;

    ghost use Rattle.json_documents.specs.Schemas.{schema};

    ghost meaning = { λ f. schema f.byte_strings.now f.uints.now f.most };

    fn read(&self, alloc: Global, value: &Value<'_>) -> Result<Schema, FieldError> {
        reject_unknown(alloc, &[self.byte_strings, self.uints], value)?;
        let bytes = optional(alloc, &Uint, 0, value, self.byte_strings)?;
        let uints = optional(alloc, &Uint, 0, value, self.uints)?;
        limited(alloc, self.most, bytes, uints)
    }
}

/// A schema, where it is of at most so many entries.
fn limited(alloc: Global, most: u8, bytes: u64, uints: u64) -> Result<Schema, FieldError>
    ensures { Gives (λ s. s) result (limited most bytes uints) }
{
    let most = u64::from(most);
    if bytes <= most && uints <= most - bytes {
        Ok(Schema {
            uints: uints as u8,
            bytes: bytes as u8,
        })
    } else {
        Err(Fault::here(alloc, DocumentFault::SchemaSize))
    }
}
