//! Numbers of operands, kinds of fields, and lists of operands.

ghost use Rattle.std.specs.Prelude.{◌≡◌};
ghost use Rattle.teal_value.specs.Answer.{Gives};
ghost use Rattle.teal_source.specs.Operands.{any_number, literals_in, literal_value};
ghost use Rattle.teal_source.specs.Commands.{each, no_operand, only_operand, two_operands, three_operands, scalar, array};
ghost use Rattle.teal_source.specs.Shown.{words, literal};

use crate::fault::AsmFaultKind;
use crate::operand::{EncodedLiteral, LineError, any_number, literal_at, literal_value};
use std::alloc::Global;
use teal_table::txn_field_named;
use teal_value::{ByteString, Failure};

pub(crate) fn no_operand(operands: &[&[u8]]) -> Result<(), LineError>
    ensures { Gives (λ nothing. nothing) result (no_operand (words operands.now)) }
{
    match operands {
        [] => Ok(()),
        _ => Err(Failure::Fault(AsmFaultKind::Operands)),
    }
}

pub(crate) fn only_operand<'a>(operands: &[&'a [u8]]) -> Result<&'a [u8], LineError>
    ensures { Gives (λ word. word.now) result (only_operand (words operands.now)) }
{
    match operands {
        [word] => Ok(word),
        _ => Err(Failure::Fault(AsmFaultKind::Operands)),
    }
}

pub(crate) fn two_operands<'a>(operands: &[&'a [u8]]) -> Result<(&'a [u8], &'a [u8]), LineError>
    ensures { Gives (λ p. (p.0.now, p.1.now)) result (two_operands (words operands.now)) }
{
    match operands {
        [first, second] => Ok((first, second)),
        _ => Err(Failure::Fault(AsmFaultKind::Operands)),
    }
}

pub(crate) fn three_operands<'a>(
    operands: &[&'a [u8]],
) -> Result<(&'a [u8], &'a [u8], &'a [u8]), LineError>
    ensures { Gives (λ p. (p.0.now, p.1.now, p.2.now)) result
        (three_operands (words operands.now)) }
{
    match operands {
        [first, second, third] => Ok((first, second, third)),
        _ => Err(Failure::Fault(AsmFaultKind::Operands)),
    }
}

pub(crate) fn only_literal<'a>(operands: &[&'a [u8]]) -> Result<EncodedLiteral<'a>, LineError>
    ensures { Gives literal result (only_operand (literals_in (words operands.now))) }
{
    if operands.is_empty() {
        return Err(Failure::Fault(AsmFaultKind::Operands));
    }
    let (encoded, next) = literal_at(operands, 0);
    if next < operands.len() {
        return Err(Failure::Fault(AsmFaultKind::Operands));
    }
    Ok(encoded)
}

/// Passes a field that is a scalar, and one that is unknown, whose name is refused where it is read.
pub(crate) fn scalar(word: &[u8]) -> Result<(), LineError>
    ensures { Gives (λ nothing. nothing) result (scalar word.now) }
{
    match txn_field_named(word) {
        Some(field) if field.is_array() => Err(Failure::Fault(AsmFaultKind::Operands)),
        _ => Ok(()),
    }
}

/// Passes a field that is an array, and one that is unknown, whose name is refused where it is read.
pub(crate) fn array(word: &[u8]) -> Result<(), LineError>
    ensures { Gives (λ nothing. nothing) result (array word.now) }
{
    match txn_field_named(word) {
        Some(field) if !field.is_array() => Err(Failure::Fault(AsmFaultKind::Operands)),
        _ => Ok(()),
    }
}

pub(crate) fn numbers(alloc: Global, operands: &[&[u8]]) -> Result<Vec<u64>, LineError>
    ensures { Gives (λ numbers. numbers.items) result (each any_number (words operands.now)) }
{
    let mut numbers = Vec::new(alloc);
    for word in operands {
        numbers.push(any_number(word)?)?;
    }
    Ok(numbers)
}

pub(crate) fn literal_values(
    alloc: Global,
    operands: &[&[u8]],
) -> Result<Vec<ByteString>, LineError>
    ensures { Gives (λ strings. strings.items) result
        (each literal_value (literals_in (words operands.now))) }
{
    let mut strings = Vec::new(alloc);
    let mut at = 0;
    while at < operands.len() {
        let (encoded, next) = literal_at(operands, at);
        strings.push(literal_value(alloc, encoded)?)?;
        at = next;
    }
    Ok(strings)
}
