//! Instructions that take two numbers and give one.

ghost use Rattle.std.specs.Prelude.{◌≡◌, IfSome, Some};
ghost use Rattle.avm_ops.specs.Objects.{Executes};
ghost use Rattle.avm_arith.specs.Families.{binary_opcode, binary_value};

use avm_cpu::{Cpu, Flow};
use avm_items::Env;
use avm_ops::{Control, Executed, Op};
use std::alloc::Global;
use teal_code::Instr;
use teal_table::Opcode;
use teal_value::Fault;

/// An instruction that takes two numbers and gives one.
#[derive(Clone, Copy, Debug, PartialEq, Eq)]
pub enum Binary {
    Add,
    Subtract,
    Divide,
    Multiply,
    Remainder,
    BitOr,
    BitAnd,
    BitXor,
}

impl Binary {
    /// The instruction of an opcode.
    pub fn of(opcode: Opcode) -> Option<Binary>
        ensures some { IfSome result (λ row. binary_opcode row ≡ opcode) }
        ensures all { (row : _) → binary_opcode row ≡ opcode → result ≡ Some row }
    {
        match opcode {
            Opcode::Add => Some(Binary::Add),
            Opcode::Subtract => Some(Binary::Subtract),
            Opcode::Divide => Some(Binary::Divide),
            Opcode::Multiply => Some(Binary::Multiply),
            Opcode::Remainder => Some(Binary::Remainder),
            Opcode::BitOr => Some(Binary::BitOr),
            Opcode::BitAnd => Some(Binary::BitAnd),
            Opcode::BitXor => Some(Binary::BitXor),
            _ => None,
        }
    }

    fn opcode(self) -> Opcode
        ensures { result ≡ binary_opcode self }
    {
        match self {
            Binary::Add => Opcode::Add,
            Binary::Subtract => Opcode::Subtract,
            Binary::Divide => Opcode::Divide,
            Binary::Multiply => Opcode::Multiply,
            Binary::Remainder => Opcode::Remainder,
            Binary::BitOr => Opcode::BitOr,
            Binary::BitAnd => Opcode::BitAnd,
            Binary::BitXor => Opcode::BitXor,
        }
    }

    /// The number that it gives.
    fn value(self, a: u64, b: u64) -> Result<u64, Fault>
        ensures { result ≡ binary_value self a b }
    {
        match self {
            Binary::Add => a.checked_add(b).ok_or(Fault::Overflow),
            Binary::Subtract => a.checked_sub(b).ok_or(Fault::Negative),
            Binary::Divide => a.checked_div(b).ok_or(Fault::DivZero),
            Binary::Multiply => a.checked_mul(b).ok_or(Fault::Overflow),
            Binary::Remainder => a.checked_rem(b).ok_or(Fault::DivZero),
            Binary::BitOr => Ok(a | b),
            Binary::BitAnd => Ok(a & b),
            Binary::BitXor => Ok(a ^ b),
        }
    }

    #[tactic(auto, unfolding(avm_ops::specs::Effect::effect))]
    #[inline(always)]
    fn execute(&self, _alloc: Global, _instr: &Instr, cpu: &mut Cpu, _env: &mut Env) -> Executed
        ensures { Executes (binary_opcode self.now)
            _instr.now.immediates cpu.old _env.old result cpu.new _env.new }
    {
        let (a, b) = cpu.two_uints()?;
        let value = self.value(a, b)?;
        cpu.set_uint(2, value);
        Ok(Flow::Next)
    }
}

impl Op for Binary {
    ghost opcode = { binary_opcode };

    fn code(&self) -> u8 {
        self.opcode().code()
    }

    fn exec(&self, alloc: Global, instr: &Instr, cpu: &mut Cpu, env: &mut Env) -> Executed {
        self.execute(alloc, instr, cpu, env)
    }

    fn carry_out(&self, alloc: Global, instr: &Instr, cpu: &mut Cpu, env: &mut Env) -> Control {
        Control::of(alloc, self.execute(alloc, instr, cpu, env))
    }
}
