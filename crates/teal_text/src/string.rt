//! Strings, byte by byte.

ghost use Rattle.std.specs.Prelude.{◌≡◌, ◌<◌, IfOk};
ghost use Rattle.std.specs.Option.{option_map};
ghost use Rattle.teal_text.specs.Strings.{closes, next_state, escaped, hex_value, byte_read, string_value};

use std::alloc::{AllocError, Global};

/// Where a place inside a string is: in plain text, behind a `\`, before two hexadecimal digits, or behind the first of
/// them.
#[derive(Clone, Copy, Debug)]
pub enum StringState {
    Plain,
    Escape,
    TwoDigits,
    OneDigit(u8),
}

/// Whether a byte is the quotation mark that ends the string.
pub fn closes(state: StringState, byte: u8) -> bool
    ensures { result ≡ closes state byte }
{
    match state {
        StringState::Plain => byte == b'"',
        _ => false,
    }
}

/// Where a byte leads to, if it may stand here.
pub fn next_state(state: StringState, byte: u8) -> Option<StringState>
    ensures { result ≡ next_state state byte }
{
    match state {
        StringState::Plain => Some(if byte == b'\\' {
            StringState::Escape
        } else {
            StringState::Plain
        }),
        StringState::Escape => match byte {
            b'n' | b'r' | b't' | b'\\' | b'"' => Some(StringState::Plain),
            b'x' => Some(StringState::TwoDigits),
            _ => None,
        },
        StringState::TwoDigits => byte
            .is_ascii_hexdigit()
            .then_some(StringState::OneDigit(byte)),
        StringState::OneDigit(_) => byte.is_ascii_hexdigit().then_some(StringState::Plain),
    }
}

/// The bytes of a string that begins behind its first quotation mark and ends with its last one.
#[tactic(auto, unfolding(crate::specs::Strings::string_value))]
pub fn string_value(alloc: Global, string: &[u8]) -> Result<Option<Vec<u8>>, AllocError>
    ensures { IfOk result
        (λ o. option_map (λ v. v.items) o ≡ string_value StringState.Plain string.now) }
{
    let mut bytes = Vec::new(alloc);
    let mut state = StringState::Plain;
    for (i, byte) in string.iter().enumerate() {
        if closes(state, *byte) {
            return Ok(if i + 1 == string.len() {
                Some(bytes)
            } else {
                None
            });
        }
        if let Some(value) = byte_at(state, *byte) {
            bytes.push(value)?;
        }
        match next_state(state, *byte) {
            Some(next) => state = next,
            None => return Ok(None),
        }
    }
    Ok(None)
}

/// The byte of the string's value that a byte of its text completes, if it does.
fn byte_at(state: StringState, byte: u8) -> Option<u8>
    ensures { result ≡ byte_read state byte }
{
    match state {
        StringState::Plain => (byte != b'\\').then_some(byte),
        StringState::Escape => (byte != b'x').then_some(escaped(byte)),
        StringState::TwoDigits => None,
        StringState::OneDigit(high) => Some(hex_value(high) * 16 + hex_value(byte)),
    }
}

fn escaped(byte: u8) -> u8
    ensures { result ≡ escaped byte }
{
    match byte {
        b'n' => b'\n',
        b'r' => b'\r',
        b't' => b'\t',
        _ => byte,
    }
}

fn hex_value(digit: u8) -> u8
    ensures value { result ≡ hex_value digit }
    ensures small { result < 16 }
{
    match digit {
        b'0'..=b'9' => digit - b'0',
        b'A'..=b'F' => digit - b'A' + 10,
        b'a'..=b'f' => digit - b'a' + 10,
        _ => 0,
    }
}
