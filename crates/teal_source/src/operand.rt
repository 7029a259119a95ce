//! Operands of a line: numbers, named constants, byte literals, addresses and fields.

ghost use Rattle.std.specs.Prelude.{◌≡◌, ◌∷◌, ◌<◌, ◌≤◌, length, drop};
ghost use Rattle.std.specs.Map.{lookup};
ghost use Rattle.std.specs.Str.{bytes_eq};
ghost use Rattle.teal_value.specs.Answer.{Gives};
ghost use Rattle.teal_source.specs.Operands.{byte_number, any_number, int_value, named_constant, literals_in, literal_value, address_value, txn_field_value, global_field_value};
ghost use Rattle.teal_source.specs.Shown.{words, literal, named_values};

use crate::fault::AsmFaultKind;
use std::alloc::Global;
use teal_table::{Version, global_field_named, txn_field_named};
use teal_text::{encoded_bytes, names_encoding, number_of_word, token_bytes};
use teal_value::{ByteString, Failure, address_of_bytes};

/// A fault of a line, or a refused allocation.
pub type LineError = Failure<AsmFaultKind>;

impl From<AsmFaultKind> for LineError {
    ghost use Rattle.teal_value.specs.declared.failure.Failure.TheVariants.{Fault};

    ghost from_gives = { λ kind e. e ≡ Fault kind };

    fn from(kind: AsmFaultKind) -> Self {
        Failure::Fault(kind)
    }
}

/// A byte literal: a token, and the one behind it where it names an encoding.
#[derive(Clone, Copy, Debug)]
pub(crate) struct EncodedLiteral<'a> {
    pub first: &'a [u8],
    pub text: Option<&'a [u8]>,
}

pub(crate) fn any_number(word: &[u8]) -> Result<u64, AsmFaultKind>
    ensures { result ≡ any_number word.now }
{
    number_of_word(word).ok_or(AsmFaultKind::BadNumber)
}

pub(crate) fn byte_number(word: &[u8]) -> Result<u8, AsmFaultKind>
    ensures { result ≡ byte_number word.now }
{
    match number_of_word(word) {
        Some(number) if number <= 255 => Ok(number as u8),
        _ => Err(AsmFaultKind::BadNumber),
    }
}

/// The number that `int` takes: a number, or the name of a completion or of a transaction type.
pub(crate) fn int_value(word: &[u8]) -> Result<u64, AsmFaultKind>
    ensures { result ≡ int_value word.now }
{
    match named_constant(word) {
        Some(number) => Ok(number),
        None => any_number(word),
    }
}

#[tactic(auto, unfolding(crate::specs::Operands::named_constant))]
fn named_constant(word: &[u8]) -> Option<u64>
    ensures { result ≡ named_constant word.now }
{
    constant_in(&NAMED_CONSTANTS, word)
}

// The value of the first name that is the word.
fn constant_in(constants: &[NamedConstant], word: &[u8]) -> Option<u64>
    ensures { result ≡ lookup (λ name. bytes_eq name word.now) (named_values constants.now) }
{
    for constant in constants {
        if constant.name.as_bytes() == word {
            return Some(constant.value);
        }
    }
    None
}

struct NamedConstant {
    name: &'static str,
    value: u64,
}

static NAMED_CONSTANTS: [NamedConstant; 12] = [
    NamedConstant {
        name: "NoOp",
        value: 0,
    },
    NamedConstant {
        name: "OptIn",
        value: 1,
    },
    NamedConstant {
        name: "CloseOut",
        value: 2,
    },
    NamedConstant {
        name: "ClearState",
        value: 3,
    },
    NamedConstant {
        name: "UpdateApplication",
        value: 4,
    },
    NamedConstant {
        name: "DeleteApplication",
        value: 5,
    },
    NamedConstant {
        name: "pay",
        value: 1,
    },
    NamedConstant {
        name: "keyreg",
        value: 2,
    },
    NamedConstant {
        name: "acfg",
        value: 3,
    },
    NamedConstant {
        name: "axfer",
        value: 4,
    },
    NamedConstant {
        name: "afrz",
        value: 5,
    },
    NamedConstant {
        name: "appl",
        value: 6,
    },
];

/// The literal that begins with an operand, and the number of the operand behind it.
pub(crate) fn literal_at<'a>(operands: &[&'a [u8]], at: usize) -> (EncodedLiteral<'a>, usize)
    requires { at < length operands.now }
    ensures literal { literals_in (drop at (words operands.now))
        ≡ literal result.0 ∷ literals_in (drop result.1 (words operands.now)) }
    ensures further { (at < result.1) × (result.1 ≤ length operands.now) }
{
    let first = operands[at];
    if names_encoding(first) && at + 1 < operands.len() {
        let text = Some(operands[at + 1]);
        (EncodedLiteral { first, text }, at + 2)
    } else {
        (EncodedLiteral { first, text: None }, at + 1)
    }
}

pub(crate) fn literal_value(
    alloc: Global,
    encoded: EncodedLiteral<'_>,
) -> Result<ByteString, LineError>
    ensures { Gives (λ bytes. bytes) result (literal_value (literal encoded.entry)) }
{
    let bytes = match encoded.text {
        None => token_bytes(alloc, encoded.first)?,
        Some(text) => encoded_bytes(alloc, encoded.first, text)?,
    };
    match bytes {
        Some(bytes) => Ok(ByteString::from_vec(bytes)),
        None => Err(Failure::Fault(AsmFaultKind::BadBytes)),
    }
}

pub(crate) fn address_value(
    alloc: Global,
    encoded: EncodedLiteral<'_>,
) -> Result<ByteString, LineError>
    ensures { Gives (λ bytes. bytes) result (address_value (literal encoded.entry)) }
{
    if encoded.text.is_some() {
        return Err(Failure::Fault(AsmFaultKind::BadBytes));
    }
    let address = address_of_bytes(alloc, encoded.first).map_err(|failure| failure.map(
        |_fault| AsmFaultKind::BadBytes,
    ))?;
    Ok(ByteString::from_slice(alloc, &address.0)?)
}

pub(crate) fn txn_field_value(word: &[u8]) -> Result<u8, AsmFaultKind>
    ensures { result ≡ txn_field_value word.now }
{
    match txn_field_named(word) {
        Some(field) => Ok(field.number()),
        None => Err(AsmFaultKind::UnknownName),
    }
}

pub(crate) fn global_field_value(version: Version, word: &[u8]) -> Result<u8, AsmFaultKind>
    ensures { result ≡ global_field_value version word.now }
{
    match global_field_named(word) {
        Some(field) if version.has(field.version()) => Ok(field.number()),
        _ => Err(AsmFaultKind::UnknownName),
    }
}
