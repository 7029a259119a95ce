//! What stands at the front of the rest of a line.

ghost use Rattle.std.specs.Prelude.{◌≡◌, ◌<◌, ◌≤◌, length, slice_index, false, IfOk, IfSome};
ghost use Rattle.teal_text.specs.Tokens.{is_blank, blank_len, word_len, string_len, is_ended, is_base64_word, is_base64_name, announces_base64, may_follow_string, first_token, begins_comment};

use crate::fault::TextFaultKind;
use crate::string::{StringState, closes, next_state};

/// A token at the front: how many bytes it takes, and whether it is a string.
#[derive(Clone, Copy, PartialEq, Eq, Debug)]
pub struct FirstToken {
    pub len: usize,
    pub string: bool,
}

fn is_blank(byte: u8) -> bool
    ensures { result ≡ is_blank byte }
{
    byte == b' ' || byte == b'\t'
}

/// How many blanks stand at the front.
#[tactic(auto, unfolding(crate::specs::Tokens::blank_len))]
pub fn blank_len(bytes: &[u8]) -> usize
    ensures value { result ≡ blank_len bytes.now }
    ensures within { result ≤ length bytes.now }
    ensures ends { result < length bytes.now → is_blank (slice_index bytes.now result) ≡ false }
{
    for (i, byte) in bytes.iter().enumerate() {
        if !is_blank(*byte) {
            return i;
        }
    }
    bytes.len()
}

/// Whether a comment begins here.
pub fn begins_comment(bytes: &[u8]) -> bool
    ensures { result ≡ begins_comment bytes.now }
{
    bytes.starts_with(b"//")
}

/// How many bytes the word at the front has; a base64 word may have `//` in it.
fn word_len(bytes: &[u8], base64: bool) -> usize
    ensures value { result ≡ word_len base64 bytes.now }
    ensures within { result ≤ length bytes.now }
{
    let mut i = 0;
    while i < bytes.len() {
        if is_blank(bytes[i]) || (!base64 && begins_comment(&bytes[i..])) {
            return i;
        }
        i += 1;
    }
    i
}

/// How many bytes a string has behind its first quotation mark, with its last one.
fn string_len(bytes: &[u8]) -> Result<usize, TextFaultKind>
    ensures value { result ≡ string_len StringState.Plain bytes.now }
    ensures within { IfOk result (λ n. (0 < n) × (n ≤ length bytes.now)) }
{
    let mut state = StringState::Plain;
    for (i, byte) in bytes.iter().enumerate() {
        if closes(state, *byte) {
            return Ok(i + 1);
        }
        match next_state(state, *byte) {
            Some(next) => state = next,
            None => return Err(TextFaultKind::BadEscape),
        }
    }
    Err(TextFaultKind::Unclosed)
}

fn is_ended(bytes: &[u8], base64: bool) -> bool
    ensures { result ≡ is_ended base64 bytes.now }
{
    bytes.is_empty() || (!base64 && begins_comment(bytes))
}

fn may_follow_string(bytes: &[u8]) -> bool
    ensures { result ≡ may_follow_string bytes.now }
{
    match bytes {
        [] => true,
        [byte, ..] => is_blank(*byte) || begins_comment(bytes),
    }
}

fn is_base64_word(bytes: &[u8], base64: bool) -> bool
    ensures { result ≡ is_base64_word base64 bytes.now }
{
    base64 || bytes.starts_with(b"base64(") || bytes.starts_with(b"b64(")
}

/// Whether a word is the name of base64.
pub fn is_base64_name(word: &[u8]) -> bool
    ensures { result ≡ is_base64_name word.now }
{
    word == b"base64".as_slice() || word == b"b64".as_slice()
}

/// Whether the token `word`, which `rest` follows, makes the next one a base64 word.
#[tactic(auto, unfolding(crate::specs::Tokens::announces_base64))]
pub fn announces_base64(word: &[u8], rest: &[u8]) -> bool
    ensures { result ≡ announces_base64 word.now rest.now }
{
    is_base64_name(word) && !begins_comment(rest)
}

/// The token at the front, where no blank stands before it; `base64` says that the token before announced a base64 word.
#[tactic(auto, unfolding(crate::specs::Tokens::first_token))]
pub fn first_token(bytes: &[u8], base64: bool) -> Result<Option<FirstToken>, TextFaultKind>
    requires { 0 < length bytes.now → is_blank (slice_index bytes.now 0) ≡ false }
    ensures value { result ≡ first_token base64 bytes.now }
    ensures within { IfOk result (λ o. IfSome o (λ t. (0 < t.len) × (t.len ≤ length bytes.now))) }
{
    if is_ended(bytes, base64) {
        return Ok(None);
    }
    if bytes[0] != b'"' {
        let len = word_len(bytes, is_base64_word(bytes, base64));
        return Ok(Some(FirstToken { len, string: false }));
    }
    let len = string_len(&bytes[1..])? + 1;
    if may_follow_string(&bytes[len..]) {
        Ok(Some(FirstToken { len, string: true }))
    } else {
        Err(TextFaultKind::Glued)
    }
}
