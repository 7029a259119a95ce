//! Base32 with the alphabet A to Z and 2 to 7 (RFC 4648, section 6).

ghost use Rattle.std.specs.Prelude.{◌≡◌, ◌<◌, ◌≤◌, ◌↔◌, ℕ, List, [], ◌∷◌, Ok, IfOk, All, length, map, take};
ghost use Rattle.std.specs.String.{string_bytes};
ghost use Rattle.teal_value.specs.Answer.{Gives};
ghost use Rattle.teal_value.specs.Base32.{base32, symbol, groups, group_of, bytes_of_digits, symbol_count, is_symbol, is_tail, base32_decoded, IsBytes, IsBase32};

use crate::failure::Failure;
use std::alloc::{AllocError, Global};
use thiserror::Error;

/// The fault of a text that is no base32.
#[derive(Clone, Copy, Debug, PartialEq, Eq, Error)]
#[error("BadText")]
pub struct BadText;

/// The text of bytes in base32, without padding.
#[tactic(auto, unfolding(crate::specs::Base32::base32))]
pub fn base32_encode(alloc: Global, bytes: &[u8]) -> Result<String, AllocError>
    ensures { IfOk result (λ text. string_bytes text ≡ base32 bytes.now) }
{
    let groups = groups_of(alloc, bytes)?;
    text_of(alloc, &groups)
}

/// The bytes of a text in base32, with its padding complete or absent and its spare bits 0.
pub fn base32_decode(alloc: Global, text: &str) -> Result<Vec<u8>, Failure<BadText>>
    ensures { Gives (λ v. v.items) result (base32_decoded text.now) }
{
    base32_decode_bytes(alloc, text.as_bytes())
}

/// `base32_decode` of the bytes of a text.
#[tactic(auto, unfolding(crate::specs::Base32::base32_decoded))]
pub fn base32_decode_bytes(alloc: Global, text: &[u8]) -> Result<Vec<u8>, Failure<BadText>>
    ensures { Gives (λ v. v.items) result (base32_decoded text.now) }
{
    let (symbols, rest) = text.split_at(symbol_count(text));
    let groups = groups_of_symbols(alloc, symbols)?;
    let bytes = bytes_of(alloc, &groups)?;
    let encoding = base32_encode(alloc, &bytes)?;
    if symbols == encoding.as_bytes() && is_tail(symbols.len(), rest) {
        Ok(bytes)
    } else {
        Err(Failure::Fault(BadText))
    }
}

/// The law of `base32_decode`: a text reads as bytes exactly where it is one of their two encodings.
pub fn base32_has_two_encodings()
    ensures { (text bytes : List ℕ)
        → (base32_decoded text ≡ Ok bytes) ↔ (IsBytes bytes × IsBase32 text bytes) }
{}

fn symbol(group: u8) -> u8
    requires { group < 32 }
    ensures { result ≡ symbol group }
{
    if group < 26 {
        b'A' + group
    } else {
        b'2' - 26 + group
    }
}

fn is_symbol(byte: u8) -> bool
    ensures { result ≡ is_symbol byte }
{
    matches!(byte, b'A'..=b'Z' | b'2'..=b'7')
}

fn group_of(symbol: u8) -> u8
    ensures value { result ≡ group_of symbol }
    ensures range { result < 32 }
{
    match symbol {
        b'A'..=b'Z' => symbol - b'A',
        b'2'..=b'7' => symbol - b'2' + 26,
        _ => 0,
    }
}

/// The groups of five bits that bytes make.
#[tactic(auto, unfolding(crate::specs::Base32::groups))]
fn groups_of(alloc: Global, bytes: &[u8]) -> Result<Vec<u8>, AllocError>
    ensures { IfOk result (λ v. v.items ≡ groups bytes.now) }
{
    let mut out = Vec::new(alloc);
    let mut rest = bytes;
    while let [a, b, c, d, e, tail @ ..] = rest {
        out.extend_from_slice(&groups_of_five(*a, *b, *c, *d, *e))?;
        rest = tail;
    }
    let (last, count) = last_groups(rest);
    out.extend_from_slice(&last[..count])?;
    Ok(out)
}

/// The groups that fewer than five bytes make, and how many these are: what stands behind them is no group.
#[tactic(auto, unfolding(crate::specs::Base32::groups))]
fn last_groups(bytes: &[u8]) -> ([u8; 8], usize)
    requires { length bytes.now < 5 }
    ensures value { take result.1 result.0 ≡ groups bytes.now }
    ensures within { result.1 ≤ 8 }
{
    match bytes {
        [a] => (groups_of_five(*a, 0, 0, 0, 0), 2),
        [a, b] => (groups_of_five(*a, *b, 0, 0, 0), 4),
        [a, b, c] => (groups_of_five(*a, *b, *c, 0, 0), 5),
        [a, b, c, d] => (groups_of_five(*a, *b, *c, *d, 0), 7),
        _ => ([0; 8], 0),
    }
}

/// The groups that five bytes make.
#[tactic(auto, unfolding(crate::specs::Base32::groups))]
fn groups_of_five(a: u8, b: u8, c: u8, d: u8, e: u8) -> [u8; 8]
    ensures { result ≡ groups (a ∷ b ∷ c ∷ d ∷ e ∷ []) }
{
    [
        a / 8,
        a % 8 * 4 + b / 64,
        b / 2 % 32,
        b % 2 * 16 + c / 16,
        c % 16 * 2 + d / 128,
        d / 4 % 32,
        d % 4 * 8 + e / 32,
        e % 32,
    ]
}

/// The characters of groups, as text.
fn text_of(alloc: Global, groups: &[u8]) -> Result<String, AllocError>
    requires { All (λ v. v < 32) groups.now }
    ensures { IfOk result (λ text. string_bytes text ≡ map symbol groups.now) }
{
    let mut text = String::new(alloc);
    for group in groups {
        text.push(char::from(symbol(*group)))?;
    }
    Ok(text)
}

fn symbol_count(text: &[u8]) -> usize
    ensures value { result ≡ symbol_count text.now }
    ensures within { result ≤ length text.now }
{
    for (i, byte) in text.iter().enumerate() {
        if !is_symbol(*byte) {
            return i;
        }
    }
    text.len()
}

fn groups_of_symbols(alloc: Global, symbols: &[u8]) -> Result<Vec<u8>, AllocError>
    ensures value { IfOk result (λ v. v.items ≡ map group_of symbols.now) }
    ensures range { IfOk result (λ v. All (λ g. g < 32) v.items) }
{
    let mut groups = Vec::new(alloc);
    for symbol in symbols {
        groups.push(group_of(*symbol))?;
    }
    Ok(groups)
}

/// The bytes that groups fill.
#[tactic(auto, unfolding(crate::specs::Base32::bytes_of_digits))]
fn bytes_of(alloc: Global, groups: &[u8]) -> Result<Vec<u8>, AllocError>
    requires { All (λ g. g < 32) groups.now }
    ensures { IfOk result (λ v. v.items ≡ bytes_of_digits groups.now) }
{
    let mut out = Vec::new(alloc);
    let mut rest = groups;
    while let [p, q, r, s, t, u, v, w, tail @ ..] = rest {
        out.extend_from_slice(&bytes_of_eight(*p, *q, *r, *s, *t, *u, *v, *w))?;
        rest = tail;
    }
    let (last, count) = last_bytes(rest);
    out.extend_from_slice(&last[..count])?;
    Ok(out)
}

/// The bytes that fewer than eight groups fill, and how many these are: what stands behind them is not filled.
#[tactic(auto, unfolding(crate::specs::Base32::bytes_of_digits))]
fn last_bytes(groups: &[u8]) -> ([u8; 5], usize)
    requires few { length groups.now < 8 }
    requires small { All (λ g. g < 32) groups.now }
    ensures value { take result.1 result.0 ≡ bytes_of_digits groups.now }
    ensures within { result.1 ≤ 5 }
{
    match groups {
        [p, q] => (bytes_of_eight(*p, *q, 0, 0, 0, 0, 0, 0), 1),
        [p, q, r, s] => (bytes_of_eight(*p, *q, *r, *s, 0, 0, 0, 0), 2),
        [p, q, r, s, t] => (bytes_of_eight(*p, *q, *r, *s, *t, 0, 0, 0), 3),
        [p, q, r, s, t, u, v] => (bytes_of_eight(*p, *q, *r, *s, *t, *u, *v, 0), 4),
        _ => ([0; 5], 0),
    }
}

/// The bytes that eight groups fill.
#[tactic(auto, unfolding(crate::specs::Base32::bytes_of_digits))]
fn bytes_of_eight(p: u8, q: u8, r: u8, s: u8, t: u8, u: u8, v: u8, w: u8) -> [u8; 5]
    requires { (p < 32) × (q < 32) × (r < 32) × (s < 32) × (t < 32) × (u < 32) × (v < 32) × (w < 32) }
    ensures { result ≡ bytes_of_digits (p ∷ q ∷ r ∷ s ∷ t ∷ u ∷ v ∷ w ∷ []) }
{
    [
        p * 8 + q / 4,
        q % 4 * 64 + r * 2 + s / 16,
        s % 16 * 16 + t / 2,
        t % 2 * 128 + u * 4 + v / 8,
        v % 8 * 32 + w,
    ]
}

/// Whether a text with this many characters of the alphabet may end so: not at all, or with its padding.
fn is_tail(symbols: usize, rest: &[u8]) -> bool
    ensures { result ≡ is_tail symbols rest.now }
{
    let padding = &b"========"[..(8 - symbols % 8) % 8];
    rest.is_empty() || rest == padding
}
