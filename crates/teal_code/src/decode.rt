//! Instructions read from bytes.

ghost use Rattle.std.specs.Prelude.{◌≡◌, ◌≤◌, ◌<◌, ◌*◌, ◌^◌, length, IfOk};
ghost use Rattle.teal_value.specs.Answer.{Gives};
ghost use Rattle.teal_table.specs.Table.{row_of};
ghost use Rattle.teal_code.specs.FaultNames.{code_fault_name};
ghost use Rattle.teal_code.specs.Reader.{byte_at, digits_at, varuint_at, string_at, many_at, counted_at, immediates_at, instr_at, read_at};

use crate::instr::{Immediates, Instr};
use std::alloc::Global;
use teal_table::{Shape, Version, opcode_in};
use teal_value::{ByteString, ByteStrings, Failure, Uints};
use thiserror::Error;

/// Why no instruction is read at a place.
#[derive(Clone, Copy, Debug, PartialEq, Eq, Error)]
#[error("{name}", name = self.name())]
pub enum CodeFault {
    /// The byte is no opcode of the program's version.
    UnknownOp = 1,
    /// The bytes end before the instruction does.
    Truncated,
    /// A varuint has more than ten bytes, or a number of more than 64 bits.
    BadVaruint,
}

impl CodeFault {
    /// Its name, as commands print it.
    pub fn name(self) -> &'static str
        ensures { result.now ≡ code_fault_name self }
    {
        match self {
            CodeFault::UnknownOp => "UnknownOp",
            CodeFault::Truncated => "Truncated",
            CodeFault::BadVaruint => "BadVaruint",
        }
    }
}

/// A [`CodeFault`], or a refused allocation.
pub type CodeError = Failure<CodeFault>;

/// The instruction at a place of a program's bytes, and the place behind it.
///
/// A varuint may be encoded longer than needed, in at most ten bytes (AVM specification, program encoding). Nothing grows
/// by a count or a length that the bytes do not back.
pub fn decode_at(
    alloc: Global,
    version: Version,
    bytes: &[u8],
    place: usize,
) -> Result<(Instr, usize), CodeError>
    ensures read { Gives (λ x. x) result (read_at version bytes.now place) }
    ensures forward { IfOk result (λ x. (place < x.1) × (x.1 ≤ length bytes.now)) }
{
    if place > bytes.len() {
        return Err(Failure::Fault(CodeFault::Truncated));
    }
    let (_, here) = bytes.split_at(place);
    let (instr, rest) = instr_of(alloc, version, here)?;
    Ok((instr, bytes.len() - rest.len()))
}

/// The varuint that the bytes begin with, and the bytes behind it.
pub fn varuint_of(bytes: &[u8]) -> Result<(u64, &[u8]), CodeError>
    ensures { Gives (λ x. (x.0, x.1.now)) result (varuint_at bytes.now) }
{
    let (value, rest) = digits_of(bytes, 10)?;
    match u64::try_from(value) {
        Ok(small) => Ok((small, rest)),
        Err(_) => Err(Failure::Fault(CodeFault::BadVaruint)),
    }
}

fn instr_of(alloc: Global, version: Version, bytes: &[u8]) -> Result<(Instr, &[u8]), CodeError>
    ensures { Gives (λ x. (x.0, x.1.now)) result (instr_at version bytes.now) }
{
    let (code, rest) = byte_of(bytes)?;
    match opcode_in(version, code) {
        Some(opcode) => {
            let (immediates, rest) = immediates_of(alloc, opcode.immediates(), rest)?;
            Ok((Instr { opcode, immediates }, rest))
        }
        None => Err(Failure::Fault(CodeFault::UnknownOp)),
    }
}

fn immediates_of(
    alloc: Global,
    shape: Shape,
    bytes: &[u8],
) -> Result<(Immediates, &[u8]), CodeError>
    ensures { Gives (λ x. (x.0, x.1.now)) result (immediates_at shape bytes.now) }
{
    match (shape, bytes) {
        (Shape::Nothing, _) => Ok((Immediates::Nothing, bytes)),
        (Shape::Index, [index, rest @ ..]) => Ok((Immediates::Index(*index), rest)),
        (Shape::TxnField | Shape::GlobalField | Shape::StackField, [field, rest @ ..]) => {
            Ok((Immediates::Field(*field), rest))
        }
        (Shape::GroupField, [group, field, rest @ ..]) => {
            Ok((Immediates::GroupField(*group, *field), rest))
        }
        (Shape::ArrayField | Shape::StackArrayField, [field, index, rest @ ..]) => {
            Ok((Immediates::ArrayField(*field, *index), rest))
        }
        (Shape::GroupArrayField, [group, field, index, rest @ ..]) => {
            Ok((Immediates::GroupArrayField(*group, *field, *index), rest))
        }
        (Shape::Bounds, [start, end, rest @ ..]) => Ok((Immediates::Bounds(*start, *end), rest)),
        (Shape::Offset, [high, low, rest @ ..]) => {
            let offset = 256 * u16::from(*high) + u16::from(*low);
            Ok((Immediates::Offset(offset), rest))
        }
        (Shape::UintBlock, _) => {
            let (numbers, rest) = uint_block_of(alloc, bytes)?;
            Ok((Immediates::UintBlock(numbers), rest))
        }
        (Shape::ByteBlock, _) => {
            let (strings, rest) = byte_block_of(alloc, bytes)?;
            Ok((Immediates::ByteBlock(strings), rest))
        }
        (Shape::Uint, _) => {
            let (number, rest) = varuint_of(bytes)?;
            Ok((Immediates::Uint(number), rest))
        }
        (Shape::Bytes, _) => {
            let (string, rest) = string_of(alloc, bytes)?;
            Ok((Immediates::Bytes(string), rest))
        }
        _ => Err(Failure::Fault(CodeFault::Truncated)),
    }
}

fn byte_of(bytes: &[u8]) -> Result<(u8, &[u8]), CodeError>
    ensures value { Gives (λ x. (x.0, x.1.now)) result (byte_at bytes.now) }
    ensures fits { IfOk result (λ x. x.0 < 256) }
{
    match bytes {
        [first, rest @ ..] => Ok((*first, rest)),
        [] => Err(Failure::Fault(CodeFault::Truncated)),
    }
}

// A number in base 128 of at most so many bytes.
fn digits_of(bytes: &[u8], room: u8) -> Result<(u128, &[u8]), CodeError>
    requires { room ≤ 10 }
    ensures value { Gives (λ x. (x.0, x.1.now)) result (digits_at room bytes.now) }
    ensures fits { IfOk result (λ x. x.0 < 2 ^ (7 * room)) }
{
    if room == 0 {
        return Err(Failure::Fault(CodeFault::BadVaruint));
    }
    let (first, rest) = byte_of(bytes)?;
    if first < 128 {
        return Ok((u128::from(first), rest));
    }
    let (high, rest) = digits_of(rest, room - 1)?;
    Ok((u128::from(first) - 128 + 128 * high, rest))
}

// A byte string behind its length.
fn string_of(alloc: Global, bytes: &[u8]) -> Result<(ByteString, &[u8]), CodeError>
    ensures { Gives (λ x. (x.0, x.1.now)) result (string_at bytes.now) }
{
    let (count, rest) = varuint_of(bytes)?;
    let available = rest.len();
    if (available as u64) < count {
        return Err(Failure::Fault(CodeFault::Truncated));
    }
    let (text, rest) = rest.split_at(count as usize);
    Ok((ByteString::from_slice(alloc, text)?, rest))
}

// A count, and so many varuints.
fn uint_block_of(alloc: Global, bytes: &[u8]) -> Result<(Uints, &[u8]), CodeError>
    ensures { Gives (λ x. (x.0, x.1.now)) result (counted_at varuint_at bytes.now) }
{
    let (count, rest) = varuint_of(bytes)?;
    let (numbers, rest) = uints_of(alloc, count, rest)?;
    Ok((Uints::from_vec(numbers), rest))
}

fn uints_of(alloc: Global, count: u64, bytes: &[u8]) -> Result<(Vec<u64>, &[u8]), CodeError>
    ensures { Gives (λ x. (x.0.items, x.1.now)) result (many_at varuint_at count bytes.now) }
{
    let mut numbers = Vec::new(alloc);
    let mut rest = bytes;
    for _ in 0..count {
        let (number, next) = varuint_of(rest)?;
        numbers.push(number)?;
        rest = next;
    }
    Ok((numbers, rest))
}

// A count, and so many byte strings.
fn byte_block_of(alloc: Global, bytes: &[u8]) -> Result<(ByteStrings, &[u8]), CodeError>
    ensures { Gives (λ x. (x.0, x.1.now)) result (counted_at string_at bytes.now) }
{
    let (count, rest) = varuint_of(bytes)?;
    let (strings, rest) = strings_of(alloc, count, rest)?;
    Ok((ByteStrings::from_vec(strings), rest))
}

fn strings_of(
    alloc: Global,
    count: u64,
    bytes: &[u8],
) -> Result<(Vec<ByteString>, &[u8]), CodeError>
    ensures { Gives (λ x. (x.0.items, x.1.now)) result (many_at string_at count bytes.now) }
{
    let mut strings = Vec::new(alloc);
    let mut rest = bytes;
    for _ in 0..count {
        let (string, next) = string_of(alloc, rest)?;
        strings.push(string)?;
        rest = next;
    }
    Ok((strings, rest))
}
