//! Bytes encoded as texts, and read from them, by these rows:
//! - `base32 TEXT` and `nobody` tell texts of bytes and of the zero address;
//! - `base32_bytes TEXT` and `address TEXT` tell the bytes of a text in base32 and of an address, in digits behind `0x`;
//! - `literal TOKEN` and `literal_of ENCODING TEXT` tell the bytes of a byte literal of one token and of two;
//! - `lines TOKEN` tells how many lines the text of a byte literal has, and where the tokens of each lie.

use std::alloc::Global;
use std::fmt::Display;
use std::test::Fail;
use teal_text::{Line, Token, byte_literal, lines};
use teal_value::{Address, Failure, address_of_text, address_text, base32_decode, base32_encode};

const NOBODY: Address = Address([0; 32]);

/// The answer to a row, or nothing where its head is none of these.
pub fn reply(alloc: Global, head: &str, rest: &str) -> Result<Option<String>, Fail> {
    match head {
        "base32" => base32_text(alloc, rest).map(Some),
        "nobody" => nobody(alloc).map(Some),
        "base32_bytes" => base32_bytes(alloc, rest).map(Some),
        "address" => address_bytes(alloc, rest).map(Some),
        "literal" => literal_bytes(alloc, rest, None).map(Some),
        "literal_of" => {
            let (encoding, text) = rest.split_once(' ').unwrap_or((rest, ""));
            literal_bytes(alloc, encoding, Some(text)).map(Some)
        }
        "lines" => lines_of_literal(alloc, rest).map(Some),
        _ => Ok(None),
    }
}

fn base32_text(alloc: Global, text: &str) -> Result<String, Fail> {
    Ok(base32_encode(alloc, text.as_bytes())?)
}

fn nobody(alloc: Global) -> Result<String, Fail> {
    Ok(address_text(alloc, &NOBODY)?)
}

fn base32_bytes(alloc: Global, text: &str) -> Result<String, Fail> {
    match base32_decode(alloc, text) {
        Ok(bytes) => digits_of(alloc, bytes.as_slice()),
        Err(failure) => refusal(alloc, failure),
    }
}

fn address_bytes(alloc: Global, text: &str) -> Result<String, Fail> {
    match address_of_text(alloc, text) {
        Ok(address) => digits_of(alloc, &address.0),
        Err(failure) => refusal(alloc, failure),
    }
}

fn literal_bytes(alloc: Global, first: &str, second: Option<&str>) -> Result<String, Fail> {
    match byte_literal(alloc, first, second)? {
        Some(bytes) => digits_of(alloc, bytes.as_slice()),
        None => Ok(String::from_str(alloc, "none")?),
    }
}

/// Why a text says nothing.
fn refusal<F: Display + Drop>(alloc: Global, failure: Failure<F>) -> Result<String, Fail> {
    match failure {
        Failure::Fault(fault) => Ok(format!(in alloc; "{fault}")?),
        Failure::Memory => Err("memory is refused".into()),
    }
}

fn digits_of(alloc: Global, bytes: &[u8]) -> Result<String, Fail> {
    let digits = hex::encode(alloc, bytes)?;
    Ok(format!(in alloc; "0x{digits}")?)
}

fn lines_of_literal(alloc: Global, literal: &str) -> Result<String, Fail> {
    let Some(bytes) = byte_literal(alloc, literal, None)? else {
        return Err("the lines are those of a byte literal".into());
    };
    match str::from_utf8(bytes.as_slice()) {
        Ok(text) => lines_of_text(alloc, text),
        Err(_) => Err("the lines are those of a text".into()),
    }
}

fn lines_of_text(alloc: Global, text: &str) -> Result<String, Fail> {
    match lines(alloc, text) {
        Ok(lines) => lines_said(alloc, &lines),
        Err(failure) => refusal(alloc, failure),
    }
}

fn lines_said(alloc: Global, lines: &[Line]) -> Result<String, Fail> {
    let mut text = format!(in alloc; "{} lines", lines.len())?;
    for line in lines {
        let number = format!(in alloc; "; {}:", line.number)?;
        text.push_str(number.as_str())?;
        push_places(alloc, &line.tokens, &mut text)?;
    }
    Ok(text)
}

fn push_places(alloc: Global, tokens: &[Token], text: &mut String) -> Result<(), Fail> {
    for token in tokens {
        let kind = if token.string { " string" } else { "" };
        let place = format!(in alloc; " {}-{}{kind}", token.start, token.end)?;
        text.push_str(place.as_str())?;
    }
    Ok(())
}
