//! What a line says, part by part: the pragma, a label, a command.

ghost use Rattle.std.specs.Prelude.{◌≡◌};
ghost use Rattle.std.specs.Option.{option_copied};
ghost use Rattle.teal_value.specs.Answer.{Gives};
ghost use Rattle.teal_source.specs.Statements.{is_pragma, label_name, named_version, optional_command, version_numbered};
ghost use Rattle.teal_source.specs.Shown.{words};

use crate::arity::two_operands;
use crate::command::{Command, command_of};
use crate::fault::AsmFaultKind;
use crate::operand::{LineError, any_number};
use std::alloc::Global;
use teal_table::Version;
use teal_value::Failure;

/// Whether a word begins the pragma.
pub fn is_pragma(word: &[u8]) -> bool
    ensures { result ≡ is_pragma word.now }
{
    word == b"#pragma".as_slice()
}

/// The version that the words behind `#pragma` name.
pub fn named_version(operands: &[&[u8]]) -> Result<Version, LineError>
    ensures { Gives (λ version. version) result (named_version (words operands.now)) }
{
    let (name, number) = two_operands(operands)?;
    if name != b"version".as_slice() {
        return Err(Failure::Fault(AsmFaultKind::Operands));
    }
    version_numbered(any_number(number)?)
}

fn version_numbered(number: u64) -> Result<Version, LineError>
    ensures { Gives (λ version. version) result (version_numbered number) }
{
    match number {
        2 => Ok(Version::Two),
        3 => Ok(Version::Three),
        _ => Err(Failure::Fault(AsmFaultKind::Version)),
    }
}

/// The name of a label: a word that ends in `:`, with a character before it at least.
pub fn label_name(word: &[u8]) -> Option<&[u8]>
    ensures { option_copied result ≡ label_name word.now }
{
    match word {
        [name @ .., b':'] if !name.is_empty() => Some(name),
        _ => None,
    }
}

/// The command of the words behind a label, if there are some.
pub fn optional_command(
    alloc: Global,
    version: Version,
    line: &[&[u8]],
) -> Result<Option<Command>, LineError>
    ensures { Gives (λ command. command) result (optional_command version (words line.now)) }
{
    match line {
        [] => Ok(None),
        [name, operands @ ..] => Ok(Some(command_of(alloc, version, name, operands)?)),
    }
}
