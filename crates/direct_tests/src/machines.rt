//! A machine's constants, which are those of the last block, and its values by their types.

use avm_cpu::Cpu;
use std::alloc::{AllocError, Global};
use std::test::Fail;
use teal_value::{ByteString, Fault, Value};

/// Blocks, one after another. Each has more, fewer, longer or shorter constants than the one before.
const UINT_BLOCKS: [&[u64]; 5] = [
    &[1, 2, 3],
    &[7],
    &[],
    &[18446744073709551615, 5, 6, 8],
    &[4, 9],
];

const BYTE_BLOCKS: [&[&[u8]]; 6] = [
    &[b"longer", b"n"],
    &[b"s"],
    &[b"shorter", b"", b"three"],
    &[],
    &[b"", b"the longest of all", b"x", b"yz"],
    &[b"ab", b"c"],
];

fn put(alloc: Global, cpu: &mut Cpu, block: &[&[u8]]) -> Result<(), AllocError> {
    let mut strings = Vec::new(alloc);
    for bytes in block {
        strings.push(ByteString::from_slice(alloc, bytes)?)?;
    }
    cpu.set_byte_constants(alloc, strings.as_slice())
}

/// Whether the block's constants are in force, and no others.
fn has(cpu: &Cpu, block: &[&[u8]]) -> bool {
    let strings = cpu.byte_constants();
    if strings.len() != block.len() {
        return false;
    }
    for place in 0..block.len() {
        if strings[place].as_slice() != block[place] {
            return false;
        }
    }
    true
}

/// A constant is found by its place, and none behind the last; a value that is pushed is popped.
fn has_two_blocks(alloc: Global, cpu: &mut Cpu) -> Result<bool, AllocError> {
    let none = cpu.uint_constant(0).is_none();
    cpu.set_uint_constants(&[7, 18446744073709551615])?;
    put(alloc, cpu, &[b"n"])?;
    Ok(
        none && cpu.uint_constant(1) == Some(18446744073709551615)
            && cpu.uint_constant(2).is_none()
            && cpu.byte_constant(0) == Some(b"n")
            && cpu.byte_constant(1).is_none()
            && cpu.push(Value::Uint(5)).is_ok()
            && cpu.pop_uint() == Ok(5),
    )
}

#[test]
fn constants_are_copied(rt: HostRuntime) -> Result<(), Fail> {
    let alloc = rt.alloc();
    let mut cpu = Cpu::new(alloc, 1)?;
    assert!(rt; has_two_blocks(alloc, &mut cpu)?);
    Ok(())
}

/// First one block is put over the other, and then into a machine that has none.
#[test]
fn a_machine_has_the_constants_of_the_last_block(rt: HostRuntime) -> Result<(), Fail> {
    let alloc = rt.alloc();
    let mut cpu = Cpu::new(alloc, 1)?;
    for resets in [false, true] {
        for block in UINT_BLOCKS {
            if resets {
                cpu.reset(1);
                assert!(rt; cpu.uint_constants().is_empty());
            }
            cpu.set_uint_constants(block)?;
            assert!(rt; cpu.uint_constants() == block, "{} uints", block.len());
        }
        for block in BYTE_BLOCKS {
            if resets {
                cpu.reset(1);
                assert!(rt; cpu.byte_constants().is_empty());
            }
            put(alloc, &mut cpu, block)?;
            assert!(rt; has(&cpu, block), "{} byte strings", block.len());
        }
    }
    Ok(())
}

/// Whether the value on top is seen, and taken by its own type alone.
fn is_taken(cpu: &mut Cpu, bytes: ByteString) -> bool {
    let pushed = cpu.push(Value::Uint(5)).is_ok() && cpu.push(Value::Bytes(bytes)).is_ok();
    let seen = matches!(cpu.peek(), Ok(Value::Bytes(_)));
    let refused = cpu.pop_uint() == Err(Fault::WrongType);
    let taken = match cpu.pop_bytes() {
        Ok(bytes) => bytes.as_slice() == b"top".as_slice(),
        Err(_) => false,
    };
    pushed && seen && refused && taken && matches!(cpu.peek(), Ok(Value::Uint(5)))
}

/// Whether a byte string is not taken where a number is on top, or nothing.
fn is_refused(cpu: &mut Cpu) -> bool {
    matches!(cpu.pop_bytes(), Err(Fault::WrongType))
        && cpu.pop_uint() == Ok(5)
        && matches!(cpu.pop_bytes(), Err(Fault::Underflow))
        && matches!(cpu.peek(), Err(Fault::Underflow))
}

#[test]
fn values_are_taken_by_their_type(rt: HostRuntime) -> Result<(), Fail> {
    let alloc = rt.alloc();
    let mut cpu = Cpu::new(alloc, 1)?;
    assert!(rt; is_taken(&mut cpu, ByteString::from_slice(alloc, b"top")?));
    assert!(rt; is_refused(&mut cpu));
    Ok(())
}
