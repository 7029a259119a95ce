//! Instructions on one number.

ghost use Rattle.std.specs.Prelude.{◌≡◌, IfOk, IfSome, Some};
ghost use Rattle.avm_ops.specs.Objects.{Executes};
ghost use Rattle.avm_ops.specs.ByteStrings.{bytes_of_number};
ghost use Rattle.avm_arith.specs.Families.{unary_opcode, unary_value};

use avm_cpu::{Cpu, Flow};
use avm_items::Env;
use avm_ops::{Control, Executed, Op, flag};
use std::alloc::{AllocError, Global};
use teal_code::Instr;
use teal_table::Opcode;
use teal_value::{ByteString, Value};

/// An instruction that takes a number.
#[derive(Clone, Copy, Debug, PartialEq, Eq)]
pub enum Unary {
    Not,
    BitNot,
    Itob,
}

impl Unary {
    /// The instruction of an opcode.
    pub fn of(opcode: Opcode) -> Option<Unary>
        ensures some { IfSome result (λ row. unary_opcode row ≡ opcode) }
        ensures all { (row : _) → unary_opcode row ≡ opcode → result ≡ Some row }
    {
        match opcode {
            Opcode::Not => Some(Unary::Not),
            Opcode::Itob => Some(Unary::Itob),
            Opcode::BitNot => Some(Unary::BitNot),
            _ => None,
        }
    }

    fn opcode(self) -> Opcode
        ensures { result ≡ unary_opcode self }
    {
        match self {
            Unary::Not => Opcode::Not,
            Unary::BitNot => Opcode::BitNot,
            Unary::Itob => Opcode::Itob,
        }
    }

    /// The value that it gives.
    fn value(self, alloc: Global, a: u64) -> Result<Value, AllocError>
        ensures { IfOk result (λ value. value ≡ unary_value self a) }
    {
        match self {
            Unary::Not => Ok(Value::Uint(flag(a == 0))),
            Unary::BitNot => Ok(Value::Uint(!a)),
            Unary::Itob => Ok(Value::Bytes(ByteString::from_slice(alloc, &a.to_be_bytes())?)),
        }
    }

    #[tactic(auto, unfolding(avm_ops::specs::Effect::effect))]
    #[inline(always)]
    fn execute(&self, alloc: Global, _instr: &Instr, cpu: &mut Cpu, _env: &mut Env) -> Executed
        ensures { Executes (unary_opcode self.now)
            _instr.now.immediates cpu.old _env.old result cpu.new _env.new }
    {
        let a = cpu.one_uint()?;
        let value = self.value(alloc, a)?;
        cpu.replace(1, value);
        Ok(Flow::Next)
    }
}

impl Op for Unary {
    ghost opcode = { unary_opcode };

    fn code(&self) -> u8 {
        self.opcode().code()
    }

    fn exec(&self, alloc: Global, instr: &Instr, cpu: &mut Cpu, env: &mut Env) -> Executed {
        self.execute(alloc, instr, cpu, env)
    }

    fn carry_out(&self, alloc: Global, instr: &Instr, cpu: &mut Cpu, env: &mut Env) -> Control {
        Control::of(alloc, self.execute(alloc, instr, cpu, env))
    }
}
