//! Documents read from text.

ghost use Rattle.std.specs.Prelude.{◌≡◌, IfOk};
ghost use Rattle.std.specs.Float.{binary64};
ghost use Rattle.std.specs.Float.Parse.{parse_float};
ghost use Rattle.std.specs.List.{list_all};
ghost use Rattle.std.specs.Option.{option_map};
ghost use Rattle.teal_value.specs.Answer.{Gives};
ghost use Rattle.json.specs.Lex.{tokens};
ghost use Rattle.json.specs.Reads.{token_of};
ghost use Rattle.json.specs.Value.{value_view};
ghost use Rattle.json_documents.specs.Reading.{document_of_text, is_finite, is_in_range, lone_value, value_of_text};
ghost use Rattle.json_documents.specs.Shown.{document_shown};

use crate::document::{Document, document_of};
use crate::document_fault::DocumentFault;
use crate::fault::{Fault, FieldError};
use json::{Error, Reader, Scratch, Token, Value};
use std::alloc::{AllocError, Global};

/// How deep arrays and objects nest at most.
const MOST_NESTED: usize = 127;

/// The document that a text is, or its first fault.
pub(crate) fn read_document(alloc: Global, text: &str) -> Result<Document, FieldError>
    ensures { Gives document_shown result (document_of_text text.now) }
{
    let mut scratch = Scratch::new(alloc);
    match value_of_text(alloc, text, &mut scratch)? {
        Some(value) => document_of(alloc, &value),
        None => Err(Fault::here(alloc, DocumentFault::Syntax)),
    }
}

/// The value that a text is. There is none where it is no JSON, nests too deep, or has a number beyond the range of doubles.
fn value_of_text<'a>(
    alloc: Global,
    text: &'a str,
    scratch: &'a mut Scratch,
) -> Result<Option<Value<'a>>, AllocError>
    ensures { IfOk result (λ value. option_map value_view value ≡ value_of_text text.now) }
{
    if are_in_range(alloc, text)? {
        lone_value(alloc, text, scratch)
    } else {
        Ok(None)
    }
}

/// Whether all numbers of a text are within the range of doubles.
fn are_in_range(alloc: Global, text: &str) -> Result<bool, AllocError>
    ensures { IfOk result (λ all. all ≡ list_all is_in_range (tokens text.now)) }
{
    let mut scratch = Scratch::new(alloc);
    let mut reader = Reader::new(text, &mut scratch)?;
    while let Some(token) = reader.next() {
        if !is_in_range(token) {
            return Ok(false);
        }
    }
    Ok(true)
}

fn is_in_range(token: Token<'_>) -> bool
    ensures { result ≡ is_in_range (token_of token.entry) }
{
    match token {
        Token::Number(text) => is_finite(text),
        Token::BeginObject
        | Token::EndObject
        | Token::BeginArray
        | Token::EndArray
        | Token::Key(_)
        | Token::String(_)
        | Token::Bool(_)
        | Token::Null
        | Token::Bad => true,
    }
}

/// Whether a number is within the range of doubles.
fn is_finite(number: &str) -> bool
    ensures { result ≡ is_finite (parse_float binary64 number.now) }
{
    let value: Value = Value::Number(number);
    match value.as_f64() {
        Some(double) => double.is_finite(),
        None => false,
    }
}

/// The only value of a text, if it is JSON that does not nest too deep.
fn lone_value<'a>(
    alloc: Global,
    text: &'a str,
    scratch: &'a mut Scratch,
) -> Result<Option<Value<'a>>, AllocError>
    ensures { IfOk result (λ value. option_map value_view value ≡ lone_value (tokens text.now)) }
{
    let mut reader = Reader::new(text, scratch)?;
    match Value::read(alloc, &mut reader, MOST_NESTED) {
        Ok(value) => Ok(if reader.next().is_some() {
            None
        } else {
            Some(value)
        }),
        Err(Error::OutOfMemory) => Err(AllocError),
        Err(_) => Ok(None),
    }
}
