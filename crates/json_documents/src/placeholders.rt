//! What stands for the application of a creation.

ghost use Rattle.std.specs.Prelude.{◌≡◌, codes, true};
ghost use Rattle.std.specs.Option.{option_map_or};
ghost use Rattle.json.specs.Value.{items_view, value_view};
ghost use Rattle.json_documents.specs.Members.{member};
ghost use Rattle.json_documents.specs.Placeholders.{any_item, await_application, has, has_placeholders, is_creation, is_placeholder, is_program_of_application, is_source_of_placeholder, is_text, is_uint, names_placeholder};

use crate::arrays::items_in;
use crate::members::member;
use crate::plain::number_of;
use json::Value;

/// The id under which `goal` lists the application that a creation is going to make.
const PLACEHOLDER: u64 = 1_380_011_588;

/// Whether a document has what is passed over: it does not give the next id, and awaits an application.
pub(crate) fn has_placeholders(document: &Value<'_>) -> bool
    ensures { result ≡ has_placeholders (value_view document.now) }
{
    if member(document, "next-id").is_some() {
        return false;
    }
    match items_in(document, "txns") {
        Some(txns) => await_application(txns),
        None => false,
    }
}

/// Whether one of the transactions is a creation, and none names the id.
fn await_application(txns: &[Value<'_>]) -> bool
    ensures { result ≡ await_application (items_view txns.now) }
{
    any_creation(txns) && !any_name(txns)
}

fn any_creation(txns: &[Value<'_>]) -> bool
    ensures { result ≡ any_item (has (codes "txn") is_creation) (items_view txns.now) }
{
    'txns: for signed in txns {
        if has_creation(signed) {
            return true;
        }
    }
    false
}

fn has_creation(signed: &Value<'_>) -> bool
    ensures { result ≡ has (codes "txn") is_creation (value_view signed.now) }
{
    match member(signed, "txn") {
        Some(txn) => is_creation(txn),
        None => false,
    }
}

/// Whether a transaction is a call that makes an application.
fn is_creation(txn: &Value<'_>) -> bool
    ensures { result ≡ is_creation (value_view txn.now) }
{
    has_text(txn, "type", "appl") && names_no_application(txn)
}

fn names_no_application(txn: &Value<'_>) -> bool
    ensures { result ≡ option_map_or (is_uint 0) (member (codes "apid") (value_view txn.now)) true }
{
    match member(txn, "apid") {
        Some(id) => is_uint(id, 0),
        None => true,
    }
}

fn any_name(txns: &[Value<'_>]) -> bool
    ensures { result ≡ any_item (has (codes "txn") names_placeholder) (items_view txns.now) }
{
    'txns: for signed in txns {
        if has_name(signed) {
            return true;
        }
    }
    false
}

fn has_name(signed: &Value<'_>) -> bool
    ensures { result ≡ has (codes "txn") names_placeholder (value_view signed.now) }
{
    match member(signed, "txn") {
        Some(txn) => names_placeholder(txn),
        None => false,
    }
}

/// Whether a transaction names the id.
fn names_placeholder(txn: &Value<'_>) -> bool
    ensures { result ≡ names_placeholder (value_view txn.now) }
{
    if has_uint(txn, "apid", PLACEHOLDER) {
        return true;
    }
    match items_in(txn, "apfa") {
        Some(ids) => any_uint(ids, PLACEHOLDER),
        None => false,
    }
}

fn any_uint(items: &[Value<'_>], number: u64) -> bool
    ensures { result ≡ any_item (is_uint number) (items_view items.now) }
{
    'items: for item in items {
        if is_uint(item, number) {
            return true;
        }
    }
    false
}

/// Whether an application or a local state is passed over, in a document that has placeholders or not.
pub(crate) fn is_placeholder(there: bool, element: &Value<'_>) -> bool
    ensures { result ≡ is_placeholder there (value_view element.now) }
{
    there && has_uint(element, "id", PLACEHOLDER)
}

/// Whether a source is for what is passed over.
pub(crate) fn is_source_of_placeholder(there: bool, source: &Value<'_>) -> bool
    ensures { result ≡ is_source_of_placeholder there (value_view source.now) }
{
    there && has_uint(source, "app-index", PLACEHOLDER) && is_for_application(source)
}

fn is_for_application(source: &Value<'_>) -> bool
    ensures { result ≡ has (codes "field-name") is_program_of_application (value_view source.now) }
{
    match member(source, "field-name") {
        Some(field) => is_text(field, "approv") || is_text(field, "clearp"),
        None => false,
    }
}

fn has_uint(object: &Value<'_>, name: &str, number: u64) -> bool
    ensures { result ≡ has name.now (is_uint number) (value_view object.now) }
{
    match member(object, name) {
        Some(value) => is_uint(value, number),
        None => false,
    }
}

fn has_text(object: &Value<'_>, name: &str, text: &str) -> bool
    ensures { result ≡ has name.now (is_text text.now) (value_view object.now) }
{
    match member(object, name) {
        Some(value) => is_text(value, text),
        None => false,
    }
}

fn is_uint(value: &Value<'_>, number: u64) -> bool
    ensures { result ≡ is_uint number (value_view value.now) }
{
    match number_of(value) {
        Some(found) => found == number,
        None => false,
    }
}

fn is_text(value: &Value<'_>, text: &str) -> bool
    ensures { result ≡ is_text text.now (value_view value.now) }
{
    match value.as_str() {
        Some(found) => found == text,
        None => false,
    }
}
