//! The elements of arrays.

ghost use Rattle.std.specs.Prelude.{◌≡◌};
ghost use Rattle.std.specs.Option.{option_map};
ghost use Rattle.json.specs.Find.{as_array};
ghost use Rattle.teal_value.specs.Answer.{Gives};
ghost use Rattle.json.specs.Value.{items_view, value_view};
ghost use Rattle.json_documents.specs.Arrays.{each, gathered, items_in};
ghost use Rattle.json_documents.specs.Members.{optional};

use crate::document_fault::DocumentFault;
use crate::fault::{Fault, FieldError, in_item, in_member};
use crate::members::member;
use json::Value;
use std::alloc::Global;

/// What the elements of an array are gathered into, one after another.
pub trait Gather {
    /// What is gathered.
    type Gathered: Drop;

    ghost use Rattle.std.specs.Prelude.{Result};
    ghost use Rattle.json.specs.Json.{Json};
    ghost use Rattle.json_documents.specs.Faults.{Fault as ShownFault};

    ghost adding: { Self → Self.Gathered → Json → Result Self.Gathered ShownFault };

    /// Adds an element to what was gathered before it.
    fn add(
        &self,
        alloc: Global,
        so_far: Self::Gathered,
        element: &Value<'_>,
    ) -> Result<Self::Gathered, FieldError>
        ensures { Gives (λ x. x) result (adding self.now so_far (value_view element.now)) };
}

/// The elements of an array.
fn array_of<'v, 'a>(value: &'v Value<'a>) -> Option<&'v [Value<'a>]>
    ensures { option_map (λ items. items_view items.now) result ≡ as_array (value_view value.now) }
{
    match value {
        Value::Array(items) => Some(items.as_slice()),
        _ => None,
    }
}

/// The elements of the array that is the member of this name.
pub(crate) fn items_in<'v, 'a>(object: &'v Value<'a>, name: &str) -> Option<&'v [Value<'a>]>
    ensures { option_map (λ items. items_view items.now) result
        ≡ items_in name.now (value_view object.now) }
{
    match member(object, name) {
        Some(value) => array_of(value),
        None => None,
    }
}

/// Gathers elements from a start on.
#[tactic(auto, unfolding(crate::specs::Arrays::gathered))]
fn gather_items<G: Gather>(
    alloc: Global,
    gatherer: &G,
    start: G::Gathered,
    items: &[Value<'_>],
) -> Result<G::Gathered, FieldError>
    ensures { Gives (λ x. x) result
        (gathered (G.adding gatherer.now) 0 start (items_view items.now)) }
{
    let mut so_far = start;
    'items: for (index, item) in items.iter().enumerate() {
        match gatherer.add(alloc, so_far, item) {
            Ok(next) => so_far = next,
            Err(failure) => return Err(in_item(failure, index)),
        }
    }
    Ok(so_far)
}

/// Gathers the elements of a value that has to be an array.
pub fn each<G: Gather>(
    alloc: Global,
    gatherer: &G,
    start: G::Gathered,
    value: &Value<'_>,
) -> Result<G::Gathered, FieldError>
    ensures { Gives (λ x. x) result (each (G.adding gatherer.now) start (value_view value.now)) }
{
    match array_of(value) {
        Some(items) => gather_items(alloc, gatherer, start, items),
        None => Err(Fault::here(alloc, DocumentFault::NotArray)),
    }
}

/// Gathers the elements of a member that has to be an array. Where it is missing, the start is all.
pub fn optional_each<G: Gather>(
    alloc: Global,
    gatherer: &G,
    start: G::Gathered,
    object: &Value<'_>,
    name: &'static str,
) -> Result<G::Gathered, FieldError>
    ensures { Gives (λ x. x) result
        (optional name.now (each (G.adding gatherer.now) start) start (value_view object.now)) }
{
    let Some(value) = member(object, name) else {
        return Ok(start);
    };
    match each(alloc, gatherer, start, value) {
        Ok(all) => Ok(all),
        Err(failure) => Err(in_member(failure, name)),
    }
}
