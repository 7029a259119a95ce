//! Plain values: numbers, texts, bytes and addresses.

ghost use Rattle.std.specs.Prelude.{◌≡◌};
ghost use Rattle.teal_value.specs.Answer.{Gives};
ghost use Rattle.json.specs.Value.{value_view};
ghost use Rattle.json_documents.specs.Plain.{address, address_what, base64, boolean, bytes, decimal_of, text, uint, uint_of};

use crate::document_fault::DocumentFault;
use crate::fault::{Fault, FieldError};
use crate::members::Form;
use crate::text::Text;
use base64::DecodeAllocError;
use base64::engine::general_purpose::STANDARD;
use json::Value;
use std::alloc::Global;
use teal_text::number_of_word;
use teal_value::{Address, AddressFault, ByteString, Failure, address_of_text};

/// A number from 0 to 2^64 - 1, without sign, point and exponent.
#[derive(Clone, Copy, Debug)]
pub struct Uint;

impl Form for Uint {
    type Read = u64;

    ghost use Rattle.json_documents.specs.Plain.{uint};

    ghost meaning = { λ _ j. uint j };

    fn read(&self, alloc: Global, value: &Value<'_>) -> Result<u64, FieldError> {
        uint_of(alloc, value)
    }
}

/// A string.
#[derive(Clone, Copy, Debug)]
pub struct PlainText;

impl Form for PlainText {
    type Read = Text;

    ghost use Rattle.json_documents.specs.Plain.{text};

    ghost meaning = { λ _ j. text j };

    fn read(&self, alloc: Global, value: &Value<'_>) -> Result<Text, FieldError> {
        let text = text_of(alloc, value)?;
        Ok(Text::of(alloc, text)?)
    }
}

/// Base64 of the standard alphabet, padded, with spare bits 0 (RFC 4648, section 4).
#[derive(Clone, Copy, Debug)]
pub struct Bytes;

impl Form for Bytes {
    type Read = ByteString;

    ghost use Rattle.json_documents.specs.Plain.{bytes};

    ghost meaning = { λ _ j. bytes j };

    fn read(&self, alloc: Global, value: &Value<'_>) -> Result<ByteString, FieldError> {
        let text = text_of(alloc, value)?;
        base64_bytes(alloc, text)
    }
}

/// The text of an address.
#[derive(Clone, Copy, Debug)]
pub struct PlainAddress;

impl Form for PlainAddress {
    type Read = Address;

    ghost use Rattle.json_documents.specs.Plain.{address};

    ghost meaning = { λ _ j. address j };

    fn read(&self, alloc: Global, value: &Value<'_>) -> Result<Address, FieldError> {
        let text = text_of(alloc, value)?;
        address_of_text(alloc, text).map_err(|failure| failure.map(|fault| Fault::of(
            alloc,
            address_what(fault),
        )))
    }
}

fn uint_of(alloc: Global, value: &Value<'_>) -> Result<u64, FieldError>
    ensures { Gives (λ n. n) result (uint (value_view value.now)) }
{
    match number_of(value) {
        Some(number) => Ok(number),
        None => Err(Fault::here(alloc, DocumentFault::NotUint)),
    }
}

/// The number that a value is, if it is one.
pub(crate) fn number_of(value: &Value<'_>) -> Option<u64>
    ensures { result ≡ uint_of (value_view value.now) }
{
    match value.as_number() {
        Some(digits) => decimal_of(digits),
        None => None,
    }
}

/// The number below 2^64 that decimal digits write.
fn decimal_of(digits: &str) -> Option<u64>
    ensures { result ≡ decimal_of digits.now }
{
    let bytes = digits.as_bytes();
    if bytes.len() > 1 && bytes[0] == b'0' {
        return None;
    }
    number_of_word(bytes)
}

/// The value that has to be `true` or `false`.
pub(crate) fn boolean_of(alloc: Global, value: &Value<'_>) -> Result<bool, FieldError>
    ensures { Gives (λ b. b) result (boolean (value_view value.now)) }
{
    match value.as_bool() {
        Some(boolean) => Ok(boolean),
        None => Err(Fault::here(alloc, DocumentFault::NotBool)),
    }
}

/// The text of a value that has to be a string.
pub fn text_of<'a>(alloc: Global, value: &Value<'a>) -> Result<&'a str, FieldError>
    ensures { Gives (λ s. s.now) result (text (value_view value.now)) }
{
    match value.as_str() {
        Some(text) => Ok(text),
        None => Err(Fault::here(alloc, DocumentFault::NotText)),
    }
}

fn base64_bytes(alloc: Global, text: &str) -> Result<ByteString, FieldError>
    ensures { Gives (λ s. s) result (base64 text.now) }
{
    match STANDARD.decode(alloc, text.as_bytes()) {
        Ok(bytes) => Ok(ByteString::from_vec(bytes)),
        Err(DecodeAllocError::OutOfMemory) => Err(Failure::Memory),
        Err(DecodeAllocError::DecodeError(_)) => Err(Fault::here(alloc, DocumentFault::BadBase64)),
    }
}

fn address_what(fault: AddressFault) -> DocumentFault
    ensures { result ≡ address_what fault }
{
    match fault {
        AddressFault::BadText => DocumentFault::BadAddress,
        AddressFault::BadChecksum => DocumentFault::BadChecksum,
    }
}
