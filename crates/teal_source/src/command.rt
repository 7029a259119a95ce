//! What a name with its operands asks for.

ghost use Rattle.std.specs.Prelude.{◌≡◌};
ghost use Rattle.teal_value.specs.Answer.{Gives};
ghost use Rattle.teal_table.specs.Table.{only_in, opcode_named};
ghost use Rattle.teal_source.specs.Commands.{command, array_command, group_array_command, txn_or_array, group_or_array, with_operands, opcode_command};
ghost use Rattle.teal_source.specs.Shown.{words};

use crate::arity::{
    array, literal_values, no_operand, numbers, only_literal, only_operand, scalar, three_operands,
    two_operands,
};
use crate::fault::AsmFaultKind;
use crate::operand::{
    LineError, address_value, any_number, byte_number, global_field_value, int_value,
    literal_value, txn_field_value,
};
use std::alloc::Global;
use teal_code::Immediates;
use teal_table::{Opcode, Shape, Version, opcode_named};
use teal_value::{ByteString, ByteStrings, Failure, Uints};

/// A name with its operands.
#[derive(Debug, Drop)]
pub enum Command {
    /// A `uint64` constant, which is gathered.
    Int(u64),
    /// A byte constant, which is gathered.
    Byte(ByteString),
    /// A branch to a label.
    Jump(Opcode, ByteString),
    /// An instruction as it is.
    Plain(Opcode, Immediates),
}

/// The command of a name of the version and its operands, or their first fault: the name, the number of operands and the
/// kind of a known field, and then the operands from the left.
#[tactic(auto, unfolding(crate::specs::Commands::command))]
pub fn command_of(
    alloc: Global,
    version: Version,
    name: &[u8],
    operands: &[&[u8]],
) -> Result<Command, LineError>
    ensures { Gives (λ command. command) result (command version name.now (words operands.now)) }
{
    if name == b"int".as_slice() {
        let word = only_operand(operands)?;
        return Ok(Command::Int(int_value(word)?));
    }
    if name == b"byte".as_slice() {
        let encoded = only_literal(operands)?;
        return Ok(Command::Byte(literal_value(alloc, encoded)?));
    }
    if name == b"addr".as_slice() {
        let encoded = only_literal(operands)?;
        return Ok(Command::Byte(address_value(alloc, encoded)?));
    }
    opcode_command(alloc, version, name, operands)
}

fn opcode_command(
    alloc: Global,
    version: Version,
    name: &[u8],
    operands: &[&[u8]],
) -> Result<Command, LineError>
    ensures { Gives (λ command. command) result
        (opcode_command version (only_in version (opcode_named name.now)) (words operands.now)) }
{
    match opcode_named(name) {
        Some(opcode) if version.has(opcode.version()) => {
            with_operands(alloc, version, opcode, opcode.immediates(), operands)
        }
        _ => Err(Failure::Fault(AsmFaultKind::UnknownName)),
    }
}

fn with_operands(
    alloc: Global,
    version: Version,
    opcode: Opcode,
    immediates: Shape,
    operands: &[&[u8]],
) -> Result<Command, LineError>
    ensures { Gives (λ command. command) result
        (with_operands version opcode immediates (words operands.now)) }
{
    match immediates {
        Shape::Nothing => {
            no_operand(operands)?;
            Ok(Command::Plain(opcode, Immediates::Nothing))
        }
        Shape::Index => {
            let word = only_operand(operands)?;
            Ok(Command::Plain(opcode, Immediates::Index(byte_number(word)?)))
        }
        Shape::TxnField => txn_or_array(Opcode::Txn, Opcode::Txna, operands),
        Shape::GlobalField => {
            let word = only_operand(operands)?;
            let field = global_field_value(version, word)?;
            Ok(Command::Plain(opcode, Immediates::Field(field)))
        }
        Shape::GroupField => group_or_array(operands),
        Shape::ArrayField | Shape::StackArrayField => {
            let (field, index) = two_operands(operands)?;
            array_command(opcode, field, index)
        }
        Shape::GroupArrayField => {
            let (group, field, index) = three_operands(operands)?;
            group_array_command(opcode, group, field, index)
        }
        Shape::StackField => txn_or_array(Opcode::Gtxns, Opcode::Gtxnsa, operands),
        Shape::Bounds => {
            let (start, end) = two_operands(operands)?;
            let start = byte_number(start)?;
            Ok(Command::Plain(opcode, Immediates::Bounds(start, byte_number(end)?)))
        }
        Shape::Offset => {
            let label = only_operand(operands)?;
            Ok(Command::Jump(opcode, ByteString::from_slice(alloc, label)?))
        }
        Shape::UintBlock => {
            let numbers = Uints::from_vec(numbers(alloc, operands)?);
            Ok(Command::Plain(opcode, Immediates::UintBlock(numbers)))
        }
        Shape::ByteBlock => {
            let strings = ByteStrings::from_vec(literal_values(alloc, operands)?);
            Ok(Command::Plain(opcode, Immediates::ByteBlock(strings)))
        }
        Shape::Uint => {
            let word = only_operand(operands)?;
            Ok(Command::Plain(opcode, Immediates::Uint(any_number(word)?)))
        }
        Shape::Bytes => {
            let encoded = only_literal(operands)?;
            let string = literal_value(alloc, encoded)?;
            Ok(Command::Plain(opcode, Immediates::Bytes(string)))
        }
    }
}

fn txn_or_array(scalars: Opcode, arrays: Opcode, operands: &[&[u8]]) -> Result<Command, LineError>
    ensures { Gives (λ command. command) result (txn_or_array scalars arrays (words operands.now)) }
{
    match operands {
        [field] => {
            scalar(field)?;
            let field = txn_field_value(field)?;
            Ok(Command::Plain(scalars, Immediates::Field(field)))
        }
        [field, index] => array_command(arrays, field, index),
        _ => Err(Failure::Fault(AsmFaultKind::Operands)),
    }
}

fn group_or_array(operands: &[&[u8]]) -> Result<Command, LineError>
    ensures { Gives (λ command. command) result (group_or_array (words operands.now)) }
{
    match operands {
        [group, field] => {
            scalar(field)?;
            let group = byte_number(group)?;
            let field = txn_field_value(field)?;
            Ok(Command::Plain(Opcode::Gtxn, Immediates::GroupField(group, field)))
        }
        [group, field, index] => group_array_command(Opcode::Gtxna, group, field, index),
        _ => Err(Failure::Fault(AsmFaultKind::Operands)),
    }
}

fn array_command(opcode: Opcode, field: &[u8], index: &[u8]) -> Result<Command, LineError>
    ensures { Gives (λ command. command) result (array_command opcode field.now index.now) }
{
    array(field)?;
    let field = txn_field_value(field)?;
    let index = byte_number(index)?;
    Ok(Command::Plain(opcode, Immediates::ArrayField(field, index)))
}

fn group_array_command(
    opcode: Opcode,
    group: &[u8],
    field: &[u8],
    index: &[u8],
) -> Result<Command, LineError>
    ensures { Gives (λ command. command) result
        (group_array_command opcode group.now field.now index.now) }
{
    array(field)?;
    let group = byte_number(group)?;
    let field = txn_field_value(field)?;
    let index = byte_number(index)?;
    Ok(Command::Plain(opcode, Immediates::GroupArrayField(group, field, index)))
}
