//! Instructions written as bytes.

ghost use Rattle.std.specs.Prelude.{◌≡◌, ◌++◌, ◌≤◌, length, OnOk, OnErr};
ghost use Rattle.std.specs.List.{flat_map};
ghost use Rattle.teal_code.specs.Varuint.{varuint};
ghost use Rattle.teal_code.specs.Encoding.{Continues, prefixed, immediates_encoding, instr_encoding};

use crate::instr::{Immediates, Instr};
use arrayvec::ArrayVec;
use std::alloc::AllocError;
use teal_value::ByteString;

/// Appends an instruction's encoding, each varuint as short as it can be.
pub fn encode_into(instr: &Instr, code: &mut Vec<u8>) -> Result<(), AllocError>
    ensures written { OnOk result (code.new.items ≡ code.old.items ++ instr_encoding instr.now) }
    ensures unchanged { OnErr result (code.new.items ≡ code.old.items) }
{
    let start = code.len();
    if let Err(refusal) = push_instr(instr, code) {
        code.truncate(start);
        return Err(refusal);
    }
    Ok(())
}

/// The shortest encoding of a number in base 128: seven bits a byte, the low ones first, the top bit of a byte saying
/// that more follow.
pub fn varuint_bytes(number: u64) -> ArrayVec<u8, 10>
    ensures { result.items ≡ varuint number }
{
    let mut bytes = ArrayVec::new();
    let mut rest = number;
    while rest >= 128 {
        bytes.push((rest % 128) as u8 + 128);
        rest /= 128;
    }
    bytes.push(rest as u8);
    bytes
}

// Where memory is refused, a part of the encoding may stand behind what was there. So it is with all that follow.
fn push_instr(instr: &Instr, code: &mut Vec<u8>) -> Result<(), AllocError>
    ensures written { OnOk result (code.new.items ≡ code.old.items ++ instr_encoding instr.now) }
    ensures kept { Continues code.old.items code.new.items }
{
    code.push(instr.code())?;
    push_immediates(&instr.immediates, code)
}

fn push_immediates(immediates: &Immediates, code: &mut Vec<u8>) -> Result<(), AllocError>
    ensures written { OnOk result
        (code.new.items ≡ code.old.items ++ immediates_encoding immediates.now) }
    ensures kept { Continues code.old.items code.new.items }
{
    match immediates {
        Immediates::Nothing => Ok(()),
        Immediates::Index(byte) | Immediates::Field(byte) => code.extend_from_slice(&[*byte]),
        Immediates::GroupField(first, second)
        | Immediates::ArrayField(first, second)
        | Immediates::Bounds(first, second) => code.extend_from_slice(&[*first, *second]),
        Immediates::GroupArrayField(group, field, index) => {
            code.extend_from_slice(&[*group, *field, *index])
        }
        Immediates::Offset(offset) => code.extend_from_slice(&offset.to_be_bytes()),
        Immediates::UintBlock(numbers) => push_uints(numbers.as_slice(), code),
        Immediates::ByteBlock(strings) => push_strings(strings.as_slice(), code),
        Immediates::Uint(number) => push_varuint(*number, code),
        Immediates::Bytes(string) => push_prefixed(string.as_slice(), code),
    }
}

fn push_varuint(number: u64, code: &mut Vec<u8>) -> Result<(), AllocError>
    ensures written { OnOk result (code.new.items ≡ code.old.items ++ varuint number) }
    ensures kept { Continues code.old.items code.new.items }
{
    code.extend_from_slice(varuint_bytes(number).as_slice())
}

fn push_prefixed(bytes: &[u8], code: &mut Vec<u8>) -> Result<(), AllocError>
    ensures written { OnOk result (code.new.items ≡ code.old.items ++ prefixed bytes.now) }
    ensures kept { Continues code.old.items code.new.items }
{
    push_varuint(bytes.len() as u64, code)?;
    code.extend_from_slice(bytes)
}

fn push_uints(numbers: &[u64], code: &mut Vec<u8>) -> Result<(), AllocError>
    ensures written { OnOk result (code.new.items
        ≡ code.old.items ++ (varuint (length numbers.now) ++ flat_map varuint numbers.now)) }
    ensures kept { Continues code.old.items code.new.items }
{
    push_varuint(numbers.len() as u64, code)?;
    for number in numbers {
        push_varuint(*number, code)?;
    }
    Ok(())
}

fn push_strings(strings: &[ByteString], code: &mut Vec<u8>) -> Result<(), AllocError>
    ensures written { OnOk result (code.new.items
        ≡ code.old.items ++ (varuint (length strings.now) ++ flat_map prefixed strings.now)) }
    ensures kept { Continues code.old.items code.new.items }
{
    push_varuint(strings.len() as u64, code)?;
    for string in strings {
        push_prefixed(string.as_slice(), code)?;
    }
    Ok(())
}
