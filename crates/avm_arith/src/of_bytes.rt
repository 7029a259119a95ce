//! Instructions on one byte string.

ghost use Rattle.std.specs.Prelude.{◌≡◌, ◌≤◌, length, IfOk, IfSome, Some};
ghost use Rattle.avm_ops.specs.Objects.{Executes};
ghost use Rattle.sha2.specs.Sha256.{sha256};
ghost use Rattle.sha2.specs.Sha512.{sha512_256};
ghost use Rattle.teal_value.specs.Answer.{Gives};
ghost use Rattle.avm_ops.specs.ByteStrings.{big_endian, number_of_bytes, range_of};
ghost use Rattle.avm_arith.specs.Families.{of_bytes_opcode, of_bytes_value};
ghost use Rattle.avm_arith.specs.Given.{given_value};

use avm_cpu::{Cpu, Flow};
use avm_items::Env;
use avm_ops::immediates::{end_of, start_of};
use avm_ops::{Control, Executed, Op};
use sha2::{Digest, Sha256, Sha512_256};
use std::alloc::Global;
use teal_code::{Immediates, Instr};
use teal_table::Opcode;
use teal_value::{ByteString, Failure, Fault, Value};

/// An instruction that takes a byte string and gives a value.
#[derive(Clone, Copy, Debug, PartialEq, Eq)]
pub enum OfBytes {
    Sha256,
    Sha512_256,
    Len,
    Btoi,
    Substring,
}

/// What an instruction gives: a digest, which can stand in the memory of the bytes that it is of, or another value.
#[derive(Drop)]
enum Given {
    Digest([u8; 32]),
    Value(Value),
}

impl OfBytes {
    /// The instruction of an opcode.
    pub fn of(opcode: Opcode) -> Option<OfBytes>
        ensures some { IfSome result (λ row. of_bytes_opcode row ≡ opcode) }
        ensures all { (row : _) → of_bytes_opcode row ≡ opcode → result ≡ Some row }
    {
        match opcode {
            Opcode::Sha256 => Some(OfBytes::Sha256),
            Opcode::Sha512_256 => Some(OfBytes::Sha512_256),
            Opcode::Len => Some(OfBytes::Len),
            Opcode::Btoi => Some(OfBytes::Btoi),
            Opcode::Substring => Some(OfBytes::Substring),
            _ => None,
        }
    }

    fn opcode(self) -> Opcode
        ensures { result ≡ of_bytes_opcode self }
    {
        match self {
            OfBytes::Sha256 => Opcode::Sha256,
            OfBytes::Sha512_256 => Opcode::Sha512_256,
            OfBytes::Len => Opcode::Len,
            OfBytes::Btoi => Opcode::Btoi,
            OfBytes::Substring => Opcode::Substring,
        }
    }

    /// What it gives.
    #[inline(always)]
    fn given(
        self,
        alloc: Global,
        immediates: &Immediates,
        bytes: &[u8],
    ) -> Result<Given, Failure<Fault>>
        ensures { Gives given_value result (of_bytes_value self immediates.now bytes.now) }
    {
        match self {
            OfBytes::Sha256 => Ok(Given::Digest(sha256(bytes))),
            OfBytes::Sha512_256 => Ok(Given::Digest(sha512_256(bytes))),
            OfBytes::Len => Ok(Given::Value(Value::Uint(bytes.len() as u64))),
            OfBytes::Btoi => Ok(Given::Value(number_of(bytes)?)),
            OfBytes::Substring => {
                let start = u64::from(start_of(immediates));
                let end = u64::from(end_of(immediates));
                Ok(Given::Value(range_of(alloc, bytes, start, end)?))
            }
        }
    }

    #[tactic(auto, unfolding(avm_ops::specs::Effect::effect))]
    #[inline(always)]
    fn execute(&self, alloc: Global, instr: &Instr, cpu: &mut Cpu, _env: &mut Env) -> Executed
        ensures { Executes (of_bytes_opcode self.now)
            instr.now.immediates cpu.old _env.old result cpu.new _env.new }
    {
        let bytes = cpu.one_bytes()?;
        match self.given(alloc, &instr.immediates, bytes)? {
            Given::Digest(digest) => cpu.set_bytes(alloc, &digest)?,
            Given::Value(value) => cpu.replace(1, value),
        }
        Ok(Flow::Next)
    }
}

fn sha256(bytes: &[u8]) -> [u8; 32]
    ensures { result ≡ sha256 bytes.now }
{
    Sha256::digest(bytes)
}

fn sha512_256(bytes: &[u8]) -> [u8; 32]
    ensures { result ≡ sha512_256 bytes.now }
{
    Sha512_256::digest(bytes)
}

/// The number that at most 8 bytes encode.
fn number_of(bytes: &[u8]) -> Result<Value, Failure<Fault>>
    ensures { Gives (λ v. v) result (number_of_bytes bytes.now) }
{
    if bytes.len() <= 8 {
        Ok(Value::Uint(big_endian(bytes)))
    } else {
        Err(Failure::Fault(Fault::BtoiLength))
    }
}

/// The number that the bytes encode, the highest byte first.
fn big_endian(bytes: &[u8]) -> u64
    requires { length bytes.now ≤ 8 }
    ensures { result ≡ big_endian bytes.now }
{
    let mut number = 0u64;
    for byte in bytes {
        number = 256 * number + u64::from(*byte);
    }
    number
}

/// The bytes from a start up to, not including, an end.
pub(crate) fn range_of(
    alloc: Global,
    bytes: &[u8],
    start: u64,
    end: u64,
) -> Result<Value, Failure<Fault>>
    ensures { Gives (λ v. v) result (range_of bytes.now start end) }
{
    if start <= end && end <= bytes.len() as u64 {
        let part = ByteString::from_slice(alloc, &bytes[start as usize..end as usize])?;
        Ok(Value::Bytes(part))
    } else {
        Err(Failure::Fault(Fault::Range))
    }
}

impl Op for OfBytes {
    ghost opcode = { of_bytes_opcode };

    fn code(&self) -> u8 {
        self.opcode().code()
    }

    fn exec(&self, alloc: Global, instr: &Instr, cpu: &mut Cpu, env: &mut Env) -> Executed {
        self.execute(alloc, instr, cpu, env)
    }

    fn carry_out(&self, alloc: Global, instr: &Instr, cpu: &mut Cpu, env: &mut Env) -> Control {
        Control::of(alloc, self.execute(alloc, instr, cpu, env))
    }
}
