//! Byte literals.

ghost use Rattle.std.specs.Prelude.{◌≡◌, ◌≤◌, ◌++◌, ℕ, List, Ok, Some, true, codes, length, take, is_some, IfOk, IfSome, IfNone};
ghost use Rattle.std.specs.List.{position_or_len};
ghost use Rattle.std.specs.Result.{result_ok};
ghost use Rattle.hex.specs.Hex.{decode_of, encode_lower};
ghost use Rattle.teal_value.specs.Base32.{base32_decoded};
ghost use Rattle.std.specs.Option.{option_map, option_copied};
ghost use Rattle.base64.specs.GeneralPurpose.{IsBytes};
ghost use Rattle.teal_text.specs.Tokens.{is_base64_name, string_len};
ghost use Rattle.teal_text.specs.Literals.{IsBase64, base64_bytes, is_base32_name, names_encoding, encoded_bytes, enclosed, enclosed_bytes, token_bytes, literal_bytes, is_parenthesis};

use crate::scan::is_base64_name;
use crate::string::{StringState, string_value};
use base64::DecodeAllocError;
use base64::engine::general_purpose::{STANDARD, STANDARD_NO_PAD};
use hex::FromHexError;
use std::alloc::{AllocError, Global};
use teal_value::{Failure, base32_decode_bytes};

/// The bytes of a byte literal: `0x` with hexadecimal digits, a string, a text in base64 or base32 in parentheses behind
/// its encoding's name, or behind that name alone as the word `second`.
pub fn byte_literal(
    alloc: Global,
    first: &str,
    second: Option<&str>,
) -> Result<Option<Vec<u8>>, AllocError>
    ensures { IfOk result
        (λ o. option_map (λ v. v.items) o ≡ literal_bytes first.now (option_copied second.entry)) }
{
    match second {
        None => token_bytes(alloc, first.as_bytes()),
        Some(text) => encoded_bytes(alloc, first.as_bytes(), text.as_bytes()),
    }
}

/// The laws of literals of one token: the hexadecimal digits of bytes behind `0x` read as these bytes, and every string
/// that ends reads as some.
pub fn literals_read_back()
    ensures hexadecimal { (bytes : List ℕ)
        → IsBytes bytes → token_bytes (codes "0x" ++ encode_lower bytes) ≡ Some bytes }
    ensures strings { (bs : List ℕ) (n : ℕ) → string_len StringState.Plain bs ≡ Ok n
        → is_some (token_bytes (codes "\"" ++ take n bs)) ≡ true }
{}

/// Whether a word is `base64`, `b64`, `base32` or `b32`, behind which a literal's text is a token of its own.
#[tactic(auto, unfolding(crate::specs::Literals::names_encoding))]
pub fn names_encoding(word: &[u8]) -> bool
    ensures { result ≡ names_encoding word.now }
{
    is_base64_name(word) || is_base32_name(word)
}

/// The bytes of a literal that is one token.
#[tactic(auto, unfolding(crate::specs::Literals::token_bytes))]
pub fn token_bytes(alloc: Global, token: &[u8]) -> Result<Option<Vec<u8>>, AllocError>
    ensures { IfOk result (λ o. option_map (λ v. v.items) o ≡ token_bytes token.now) }
{
    if token.starts_with(b"0x") {
        hex_bytes(alloc, &token[2..])
    } else if token.starts_with(b"\"") {
        string_value(alloc, &token[1..])
    } else {
        enclosed_bytes(alloc, token)
    }
}

/// The bytes that a text is in the encoding of this name.
#[tactic(auto, unfolding(crate::specs::Literals::encoded_bytes))]
pub fn encoded_bytes(alloc: Global, name: &[u8], text: &[u8]) -> Result<Option<Vec<u8>>, AllocError>
    ensures { IfOk result (λ o. option_map (λ v. v.items) o ≡ encoded_bytes name.now text.now) }
{
    if is_base64_name(name) {
        base64_bytes(alloc, text)
    } else if is_base32_name(name) {
        base32_bytes(alloc, text)
    } else {
        Ok(None)
    }
}

/// The bytes that a text is in base64 of the standard alphabet (RFC 4648, section 4), with its padding complete or
/// absent and its spare bits 0.
#[tactic(auto, unfolding(crate::specs::Literals::base64_bytes))]
pub fn base64_bytes(alloc: Global, text: &[u8]) -> Result<Option<Vec<u8>>, AllocError>
    ensures value { IfOk result (λ o. option_map (λ v. v.items) o ≡ base64_bytes text.now) }
    ensures found { IfOk result (λ o. IfSome o (λ v. IsBase64 text.now v.items)) }
    ensures none { IfOk result
        (λ o. IfNone o ((bytes : List ℕ) → IsBytes bytes → IsBase64 text.now bytes → ⊥)) }
{
    match STANDARD.decode(alloc, text) {
        Ok(bytes) => return Ok(Some(bytes)),
        Err(DecodeAllocError::OutOfMemory) => return Err(AllocError),
        Err(DecodeAllocError::DecodeError(_)) => (),
    }
    match STANDARD_NO_PAD.decode(alloc, text) {
        Ok(bytes) => Ok(Some(bytes)),
        Err(DecodeAllocError::OutOfMemory) => Err(AllocError),
        Err(DecodeAllocError::DecodeError(_)) => Ok(None),
    }
}

fn is_base32_name(word: &[u8]) -> bool
    ensures { result ≡ is_base32_name word.now }
{
    word == b"base32".as_slice() || word == b"b32".as_slice()
}

fn base32_bytes(alloc: Global, text: &[u8]) -> Result<Option<Vec<u8>>, AllocError>
    ensures { IfOk result (λ o. option_map (λ v. v.items) o ≡ result_ok (base32_decoded text.now)) }
{
    match base32_decode_bytes(alloc, text) {
        Ok(bytes) => Ok(Some(bytes)),
        Err(Failure::Memory) => Err(AllocError),
        Err(Failure::Fault(_)) => Ok(None),
    }
}

fn hex_bytes(alloc: Global, digits: &[u8]) -> Result<Option<Vec<u8>>, AllocError>
    ensures { IfOk result (λ o. option_map (λ v. v.items) o ≡ result_ok (decode_of digits.now)) }
{
    match hex::decode(alloc, digits) {
        Ok(bytes) => Ok(Some(bytes)),
        Err(FromHexError::OutOfMemory) => Err(AllocError),
        Err(_) => Ok(None),
    }
}

#[tactic(auto, unfolding(crate::specs::Literals::enclosed_bytes))]
fn enclosed_bytes(alloc: Global, word: &[u8]) -> Result<Option<Vec<u8>>, AllocError>
    ensures { IfOk result (λ o. option_map (λ v. v.items) o ≡ enclosed_bytes word.now) }
{
    let (name, rest) = word.split_at(name_len(word));
    match enclosed(rest) {
        Some(text) => encoded_bytes(alloc, name, text),
        None => Ok(None),
    }
}

fn name_len(word: &[u8]) -> usize
    ensures value { result ≡ position_or_len is_parenthesis word.now }
    ensures within { result ≤ length word.now }
{
    for (i, byte) in word.iter().enumerate() {
        if *byte == b'(' {
            return i;
        }
    }
    word.len()
}

#[tactic(auto, unfolding(crate::specs::Literals::enclosed))]
fn enclosed(text: &[u8]) -> Option<&[u8]>
    ensures { option_copied result ≡ enclosed text.now }
{
    match text {
        [b'(', inner @ .., b')'] => Some(inner),
        _ => None,
    }
}
