//! The members of objects.

ghost use Rattle.std.specs.Prelude.{◌≡◌, IfOk, Some, map};
ghost use Rattle.std.specs.Option.{option_map};
ghost use Rattle.teal_value.specs.Answer.{Fails, Gives};
ghost use Rattle.json.specs.Find.{as_object};
ghost use Rattle.json.specs.Value.{members_view, value_view};
ghost use Rattle.json_documents.specs.Members.{is_among, is_below, reject_unknown, least_unknown, lesser, member, required, optional, unless_unknown};
ghost use Rattle.json_documents.specs.ShownSteps.{names_shown};

use crate::document_fault::DocumentFault;
use crate::fault::{Fault, FieldError, in_member};
use crate::text::Text;
use json::Value;
use std::alloc::Global;
use std::cmp::Ordering;
use teal_value::Failure;

/// What a value of a document is read as.
pub trait Form {
    /// What is read.
    type Read: Drop;

    /// What a value means, or its first fault.
    ghost use Rattle.std.specs.Prelude.{Result};
    ghost use Rattle.json.specs.Json.{Json};
    ghost use Rattle.json_documents.specs.Faults.{Fault as ShownFault};

    ghost meaning: { Self → Json → Result Self.Read ShownFault };

    /// Reads a value.
    fn read(&self, alloc: Global, value: &Value<'_>) -> Result<Self::Read, FieldError>
        ensures { Gives (λ x. x) result (meaning self.now (value_view value.now)) };
}

/// The last member of the name. `null` counts as none, as does a value that is no object.
pub fn member<'v, 'a>(object: &'v Value<'a>, name: &str) -> Option<&'v Value<'a>>
    ensures { option_map (λ v. value_view v.now) result ≡ member name.now (value_view object.now) }
{
    match object.get(name) {
        Some(value) if !value.is_null() => Some(value),
        _ => None,
    }
}

/// What a member is read as that has to be there.
pub fn required<F: Form>(
    alloc: Global,
    form: &F,
    object: &Value<'_>,
    name: &'static str,
) -> Result<F::Read, FieldError>
    ensures { Gives (λ x. x) result (required name.now (F.meaning form.now) (value_view object.now)) }
{
    let Some(value) = member(object, name) else {
        return Err(in_member(Fault::here(alloc, DocumentFault::Missing), name));
    };
    match form.read(alloc, value) {
        Ok(read) => Ok(read),
        Err(failure) => Err(in_member(failure, name)),
    }
}

/// What a member is read as, or the default where it is missing.
pub fn optional<F: Form>(
    alloc: Global,
    form: &F,
    default: F::Read,
    object: &Value<'_>,
    name: &'static str,
) -> Result<F::Read, FieldError>
    ensures { Gives (λ x. x) result
        (optional name.now (F.meaning form.now) default (value_view object.now)) }
{
    let Some(value) = member(object, name) else {
        return Ok(default);
    };
    match form.read(alloc, value) {
        Ok(read) => Ok(read),
        Err(failure) => Err(in_member(failure, name)),
    }
}

/// The members of an object.
fn object_of<'v, 'a>(value: &'v Value<'a>) -> Option<&'v [(&'a str, Value<'a>)]>
    ensures { option_map (λ members. members_view members.now) result
        ≡ as_object (value_view value.now) }
{
    match value {
        Value::Object(members) => Some(members.as_slice()),
        _ => None,
    }
}

/// Refuses what is no object, and an object with a name that is not among these; of several the least by its bytes is named.
pub fn reject_unknown(alloc: Global, names: &[&str], object: &Value<'_>) -> Result<(), FieldError>
    ensures { Gives (λ x. x) result (reject_unknown (names_shown names.now) (value_view object.now)) }
{
    let Some(members) = object_of(object) else {
        return Err(Fault::here(alloc, DocumentFault::NotObject));
    };
    match least_unknown(names, members) {
        None => Ok(()),
        Some(name) => Err(unknown(alloc, name)),
    }
}

/// The fault of an object that has a member of this name.
fn unknown(alloc: Global, name: &str) -> FieldError
    ensures { Fails result (unless_unknown (Some name.now)) }
{
    match Text::of(alloc, name) {
        Ok(name) => Fault::here(alloc, DocumentFault::Unknown(name)),
        Err(_) => Failure::Memory,
    }
}

/// The least name, by its bytes, that is not among these.
#[tactic(auto, unfolding(crate::specs::Members::least_unknown))]
fn least_unknown<'a>(names: &[&str], members: &[(&'a str, Value<'a>)]) -> Option<&'a str>
    ensures { option_map (λ name. name.now) result
        ≡ least_unknown (names_shown names.now) (members_view members.now) }
{
    let mut least = None;
    let mut left = members.len();
    while left > 0 {
        left -= 1;
        let name = members[left].0;
        if !is_among(names, name) {
            least = Some(lesser(name, least));
        }
    }
    least
}

/// Whether a name is among these.
fn is_among(names: &[&str], name: &str) -> bool
    ensures { result ≡ is_among (names_shown names.now) name.now }
{
    for other in names {
        if name == *other {
            return true;
        }
    }
    false
}

/// The lesser of a name and one that may be there.
fn lesser<'a>(name: &'a str, other: Option<&'a str>) -> &'a str
    ensures { Some result.now ≡ lesser name.now (option_map (λ name. name.now) other.entry) }
{
    match other {
        Some(other) if !is_below(name, other) => other,
        _ => name,
    }
}

fn is_below(name: &str, other: &str) -> bool
    ensures { result ≡ is_below name.now other.now }
{
    name.as_bytes().cmp(other.as_bytes()) == Ordering::Less
}
