//! The words of rows: numbers, accounts, keys, and bytes in pieces.

use crate::programs::Programs;
use avm_items::Item;
use std::alloc::Global;
use std::test::Fail;
use teal_value::{Address, StateKey};

/// The word of an index.
pub fn word<'a>(words: &[&'a str], index: usize) -> Result<&'a str, Fail> {
    match words.get(index) {
        Some(word) => Ok(*word),
        None => Err("a word is missing".into()),
    }
}

/// The number of a decimal word.
pub fn number(words: &[&str], index: usize) -> Result<u64, Fail> {
    Ok(word(words, index)?.parse::<u64>()?)
}

/// The number of a call.
pub fn call_number(words: &[&str], index: usize) -> Result<u32, Fail> {
    Ok(word(words, index)?.parse::<u32>()?)
}

/// An account by its letter, `X` with 32 bytes of 1, `Y` of 2 and `Z` of 3; or `0`, the zero address.
pub fn account(word: &str) -> Result<Address, Fail> {
    match word {
        "0" => Ok(Address([0; 32])),
        "X" => Ok(Address([1; 32])),
        "Y" => Ok(Address([2; 32])),
        "Z" => Ok(Address([3; 32])),
        _ => Err("accounts are 0, X, Y and Z".into()),
    }
}

/// The bytes of a word: none of `-`, those of the hexadecimal digits behind `0x`, so many zeros of `*NUMBER`, and else those
/// of the text itself.
pub fn bytes(alloc: Global, word: &str) -> Result<Vec<u8>, Fail> {
    if word == "-" {
        return Ok(Vec::new(alloc));
    }
    if let Some(digits) = word.strip_prefix("0x") {
        return Ok(hex::decode(alloc, digits)?);
    }
    match word.strip_prefix("*") {
        Some(count) => zeros(alloc, count.parse::<u16>()?),
        None => Ok(Vec::from_slice(alloc, word.as_bytes())?),
    }
}

fn zeros(alloc: Global, count: u16) -> Result<Vec<u8>, Fail> {
    let mut bytes = Vec::new(alloc);
    for _index in 0..count {
        bytes.push(0)?;
    }
    Ok(bytes)
}

/// A key: the address of an account behind `@`, or else the bytes of a word.
pub fn key(alloc: Global, word: &str) -> Result<StateKey, Fail> {
    let found = match word.strip_prefix("@") {
        Some(letter) => StateKey::of(&account(letter)?.0),
        None => StateKey::of(bytes(alloc, word)?.as_slice()),
    };
    match found {
        Some(key) => Ok(key),
        None => Err("a key has at most 64 bytes".into()),
    }
}

/// An item: `next`, `app ID`, `counts ID`, `key ID KEY` or `local ACCOUNT ID`, from the word of an index on.
pub fn item(alloc: Global, words: &[&str], index: usize) -> Result<Item, Fail> {
    let first = index.saturating_add(1);
    let second = index.saturating_add(2);
    match word(words, index)? {
        "next" => Ok(Item::NextApp),
        "app" => number(words, first).map(Item::App),
        "counts" => number(words, first).map(Item::Counts),
        "key" => Ok(Item::Key(number(words, first)?, key(alloc, word(words, second)?)?)),
        "local" => local_state(words, first, second),
        _ => Err("there is no such item".into()),
    }
}

fn local_state(words: &[&str], who: usize, application: usize) -> Result<Item, Fail> {
    Ok(Item::Local(account(word(words, who)?)?, number(words, application)?))
}

/// Bytes in pieces: `#NUMBER` is a number in eight bytes, `@ACCOUNT` an address, `:PROGRAM` a program behind its length
/// in two bytes; other words are hexadecimal digits, and `-` is nothing.
pub fn joined(alloc: Global, programs: &Programs, words: &[&str]) -> Result<Vec<u8>, Fail> {
    let mut all = Vec::new(alloc);
    for word in words {
        add_piece(alloc, programs, &mut all, word)?;
    }
    Ok(all)
}

fn add_piece(
    alloc: Global,
    programs: &Programs,
    all: &mut Vec<u8>,
    word: &str,
) -> Result<(), Fail> {
    if let Some(digits) = word.strip_prefix("#") {
        add(all, &digits.parse::<u64>()?.to_be_bytes())
    } else if let Some(letter) = word.strip_prefix("@") {
        add(all, &account(letter)?.0)
    } else if let Some(name) = word.strip_prefix(":") {
        add_program(all, programs.named(alloc, name)?.as_slice())
    } else if word == "-" {
        Ok(())
    } else {
        add(all, hex::decode(alloc, word)?.as_slice())
    }
}

fn add(all: &mut Vec<u8>, bytes: &[u8]) -> Result<(), Fail> {
    Ok(all.extend_from_slice(bytes)?)
}

fn add_program(all: &mut Vec<u8>, program: &[u8]) -> Result<(), Fail> {
    match u16::try_from(program.len()) {
        Ok(count) => all.extend_from_slice(&count.to_be_bytes())?,
        Err(_) => return Err("a program is too long".into()),
    }
    all.extend_from_slice(program)?;
    Ok(())
}
