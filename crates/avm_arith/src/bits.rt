//! Instructions on the bytes and bits of values.

ghost use Rattle.std.specs.Prelude.{◌≡◌, ◌<◌, ◌^◌, length, IfOk, IfSome, Some, nat_lt, slice_set};
ghost use Rattle.avm_ops.specs.Objects.{Executes};
ghost use Rattle.avm_ops.specs.ByteStrings.{bit_count, bit_of, bit_of_value, value_with_bit, with_bit};
ghost use Rattle.avm_arith.specs.Families.{bits_opcode};

use avm_cpu::{Cpu, Flow};
use avm_items::Env;
use avm_ops::{Control, Executed, Op, Stop};
use std::alloc::{AllocError, Global};
use teal_code::Instr;
use teal_table::Opcode;
use teal_value::{ByteString, Fault, Value};

/// An instruction on a byte of a byte string, or on a bit of a value: of a number, the least at 0, or of a byte string, the
/// highest of the first byte at 0.
#[derive(Clone, Copy, Debug, PartialEq, Eq)]
pub enum Bits {
    Getbit,
    Setbit,
    Getbyte,
    Setbyte,
}

impl Bits {
    /// The instruction of an opcode.
    pub fn of(opcode: Opcode) -> Option<Bits>
        ensures some { IfSome result (λ row. bits_opcode row ≡ opcode) }
        ensures all { (row : _) → bits_opcode row ≡ opcode → result ≡ Some row }
    {
        match opcode {
            Opcode::Getbit => Some(Bits::Getbit),
            Opcode::Setbit => Some(Bits::Setbit),
            Opcode::Getbyte => Some(Bits::Getbyte),
            Opcode::Setbyte => Some(Bits::Setbyte),
            _ => None,
        }
    }

    fn opcode(self) -> Opcode
        ensures { result ≡ bits_opcode self }
    {
        match self {
            Bits::Getbit => Opcode::Getbit,
            Bits::Setbit => Opcode::Setbit,
            Bits::Getbyte => Opcode::Getbyte,
            Bits::Setbyte => Opcode::Setbyte,
        }
    }

    #[tactic(auto, unfolding(avm_ops::specs::Effect::effect))]
    #[inline(always)]
    fn execute(&self, alloc: Global, _instr: &Instr, cpu: &mut Cpu, _env: &mut Env) -> Executed
        ensures { Executes (bits_opcode self.now)
            _instr.now.immediates cpu.old _env.old result cpu.new _env.new }
    {
        match self {
            Bits::Getbit => {
                let (value, place) = cpu.value_and_uint()?;
                if !has_bit(value, place) {
                    return Err(Stop::Fault(Fault::Range));
                }
                let bit = bit_of_value(value, place);
                cpu.set_uint(2, bit);
            }
            Bits::Setbit => {
                let (value, place, bit) = cpu.value_and_two_uints()?;
                if !has_bit(value, place) || bit > 1 {
                    return Err(Stop::Fault(Fault::Range));
                }
                let copy = value_with_bit(alloc, value, place, bit)?;
                cpu.replace(3, copy);
            }
            Bits::Getbyte => {
                let (bytes, place) = cpu.bytes_and_uint()?;
                if place >= bytes.len() as u64 {
                    return Err(Stop::Fault(Fault::Range));
                }
                let byte = bytes[place as usize];
                cpu.set_uint(2, u64::from(byte));
            }
            Bits::Setbyte => {
                let (bytes, place, byte) = cpu.bytes_and_two_uints()?;
                if place >= bytes.len() as u64 || byte > 255 {
                    return Err(Stop::Fault(Fault::Range));
                }
                let copy = with_byte(alloc, bytes, place as usize, byte as u8)?;
                cpu.replace(3, Value::Bytes(copy));
            }
        }
        Ok(Flow::Next)
    }
}

/// A copy of the bytes with another at a place.
fn with_byte(alloc: Global, bytes: &[u8], place: usize, byte: u8) -> Result<ByteString, AllocError>
    requires { place < length bytes.now }
    ensures { IfOk result (λ copy. copy ≡ slice_set bytes.now place byte) }
{
    let mut copy = Vec::from_slice(alloc, bytes)?;
    copy[place] = byte;
    Ok(ByteString::from_vec(copy))
}

/// Whether a value has a bit at a place.
fn has_bit(value: &Value, place: u64) -> bool
    ensures { result ≡ nat_lt place (bit_count value.now) }
{
    match value {
        Value::Uint(_) => place < 64,
        Value::Bytes(bytes) => place / 8 < bytes.len() as u64,
    }
}

/// The number whose one bit is this, the least at 0.
fn unit(k: u64) -> u64
    requires { k < 64 }
    ensures { result ≡ 2 ^ k }
{
    1 << k
}

/// Bit k of a number, the least at 0.
fn bit_of(number: u64, k: u64) -> u64
    requires { k < 64 }
    ensures { result ≡ bit_of number k }
{
    number / unit(k) % 2
}

/// The number with another bit k.
fn with_bit(number: u64, k: u64, bit: u64) -> u64
    requires place { k < 64 }
    requires bit { bit < 2 }
    ensures { result ≡ with_bit number k bit }
{
    let unit = unit(k);
    number - number / unit % 2 * unit + bit * unit
}

/// The byte with another bit k.
fn byte_with_bit(byte: u8, k: u64, bit: u64) -> u8
    requires place { k < 8 }
    requires bit { bit < 2 }
    ensures { result ≡ with_bit byte k bit }
{
    with_bit(u64::from(byte), k, bit) as u8
}

/// The bit of a value at a place that it has.
fn bit_of_value(value: &Value, place: u64) -> u64
    requires { place < bit_count value.now }
    ensures { result ≡ bit_of_value value.now place }
{
    match value {
        Value::Uint(number) => bit_of(*number, place),
        Value::Bytes(bytes) => bit_of(
            u64::from(bytes.as_slice()[(place / 8) as usize]),
            7 - place % 8,
        ),
    }
}

/// A copy of a value with another bit at a place that it has.
fn value_with_bit(alloc: Global, value: &Value, place: u64, bit: u64) -> Result<Value, AllocError>
    requires place { place < bit_count value.now }
    requires bit { bit < 2 }
    ensures { IfOk result (λ copy. copy ≡ value_with_bit value.now place bit) }
{
    match value {
        Value::Uint(number) => Ok(Value::Uint(with_bit(*number, place, bit))),
        Value::Bytes(bytes) => {
            let index = (place / 8) as usize;
            let byte = byte_with_bit(bytes.as_slice()[index], 7 - place % 8, bit);
            Ok(Value::Bytes(with_byte(alloc, bytes.as_slice(), index, byte)?))
        }
    }
}

impl Op for Bits {
    ghost opcode = { bits_opcode };

    fn code(&self) -> u8 {
        self.opcode().code()
    }

    fn exec(&self, alloc: Global, instr: &Instr, cpu: &mut Cpu, env: &mut Env) -> Executed {
        self.execute(alloc, instr, cpu, env)
    }

    fn carry_out(&self, alloc: Global, instr: &Instr, cpu: &mut Cpu, env: &mut Env) -> Control {
        Control::of(alloc, self.execute(alloc, instr, cpu, env))
    }
}
