//! Instructions that join byte strings and take parts of them.

ghost use Rattle.std.specs.Prelude.{◌≡◌, ◌++◌, IfOk, IfSome, Some};
ghost use Rattle.avm_ops.specs.Objects.{Executes};
ghost use Rattle.avm_arith.specs.Families.{joined_opcode};

use crate::of_bytes::range_of;
use avm_cpu::{Cpu, Flow, MAX_BYTES};
use avm_items::Env;
use avm_ops::{Control, Executed, Op, Stop};
use std::alloc::{AllocError, Global};
use teal_code::Instr;
use teal_table::Opcode;
use teal_value::{ByteString, Fault, Value};

/// An instruction that makes a byte string of the operands' bytes.
#[derive(Clone, Copy, Debug, PartialEq, Eq)]
pub enum Joined {
    /// Two byte strings as one.
    Concat,
    /// The part of a byte string between two operands.
    Substring3,
}

/// The first bytes, and then the second.
fn concatenated(alloc: Global, first: &[u8], second: &[u8]) -> Result<ByteString, AllocError>
    ensures { IfOk result (λ bytes. bytes ≡ first.now ++ second.now) }
{
    let mut bytes = Vec::from_slice(alloc, first)?;
    bytes.extend_from_slice(second)?;
    Ok(ByteString::from_vec(bytes))
}

impl Joined {
    /// The instruction of an opcode.
    pub fn of(opcode: Opcode) -> Option<Joined>
        ensures some { IfSome result (λ row. joined_opcode row ≡ opcode) }
        ensures all { (row : _) → joined_opcode row ≡ opcode → result ≡ Some row }
    {
        match opcode {
            Opcode::Concat => Some(Joined::Concat),
            Opcode::Substring3 => Some(Joined::Substring3),
            _ => None,
        }
    }

    fn opcode(self) -> Opcode
        ensures { result ≡ joined_opcode self }
    {
        match self {
            Joined::Concat => Opcode::Concat,
            Joined::Substring3 => Opcode::Substring3,
        }
    }

    #[tactic(auto, unfolding(avm_ops::specs::Effect::effect))]
    #[inline(always)]
    fn execute(&self, alloc: Global, _instr: &Instr, cpu: &mut Cpu, _env: &mut Env) -> Executed
        ensures { Executes (joined_opcode self.now)
            _instr.now.immediates cpu.old _env.old result cpu.new _env.new }
    {
        match self {
            Joined::Concat => {
                let (first, second) = cpu.two_bytes()?;
                if first.len() > MAX_BYTES || second.len() > MAX_BYTES - first.len() {
                    return Err(Stop::Fault(Fault::TooLong));
                }
                let bytes = concatenated(alloc, first, second)?;
                cpu.replace(2, Value::Bytes(bytes));
            }
            Joined::Substring3 => {
                let (bytes, start, end) = cpu.bytes_and_two_uints()?;
                let part = range_of(alloc, bytes, start, end)?;
                cpu.replace(3, part);
            }
        }
        Ok(Flow::Next)
    }
}

impl Op for Joined {
    ghost opcode = { joined_opcode };

    fn code(&self) -> u8 {
        self.opcode().code()
    }

    fn exec(&self, alloc: Global, instr: &Instr, cpu: &mut Cpu, env: &mut Env) -> Executed {
        self.execute(alloc, instr, cpu, env)
    }

    fn carry_out(&self, alloc: Global, instr: &Instr, cpu: &mut Cpu, env: &mut Env) -> Control {
        Control::of(alloc, self.execute(alloc, instr, cpu, env))
    }
}
