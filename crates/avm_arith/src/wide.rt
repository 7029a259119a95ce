//! Instructions whose result has 128 bits.

ghost use Rattle.std.specs.Prelude.{◌≡◌, ◌/◌, ◌%◌, ◌^◌, IfSome, Some};
ghost use Rattle.avm_ops.specs.Objects.{Executes};
ghost use Rattle.avm_arith.specs.Families.{wide_opcode, wide_value};

use avm_cpu::{Cpu, Flow};
use avm_items::Env;
use avm_ops::{Control, Executed, Op};
use std::alloc::Global;
use teal_code::Instr;
use teal_table::Opcode;

/// An instruction that takes two numbers and gives a number of 128 bits: its high word, and its low word on top.
#[derive(Clone, Copy, Debug, PartialEq, Eq)]
pub enum Wide {
    Mulw,
    Addw,
}

/// One above the greatest word.
const WORD: u128 = 1 << 64;

impl Wide {
    /// The instruction of an opcode.
    pub fn of(opcode: Opcode) -> Option<Wide>
        ensures some { IfSome result (λ row. wide_opcode row ≡ opcode) }
        ensures all { (row : _) → wide_opcode row ≡ opcode → result ≡ Some row }
    {
        match opcode {
            Opcode::Mulw => Some(Wide::Mulw),
            Opcode::Addw => Some(Wide::Addw),
            _ => None,
        }
    }

    fn opcode(self) -> Opcode
        ensures { result ≡ wide_opcode self }
    {
        match self {
            Wide::Mulw => Opcode::Mulw,
            Wide::Addw => Opcode::Addw,
        }
    }

    /// Its result, as one number.
    fn value(self, a: u64, b: u64) -> u128
        ensures { result ≡ wide_value self a b }
    {
        match self {
            Wide::Mulw => u128::from(a) * u128::from(b),
            Wide::Addw => u128::from(a) + u128::from(b),
        }
    }

    #[tactic(auto, unfolding(avm_ops::specs::Effect::effect))]
    #[inline(always)]
    fn execute(&self, _alloc: Global, _instr: &Instr, cpu: &mut Cpu, _env: &mut Env) -> Executed
        ensures { Executes (wide_opcode self.now)
            _instr.now.immediates cpu.old _env.old result cpu.new _env.new }
    {
        let (a, b) = cpu.two_uints()?;
        let (high, low) = words(self.value(a, b));
        cpu.set_uints(2, high, low);
        Ok(Flow::Next)
    }
}

/// The high word and the low word.
fn words(value: u128) -> (u64, u64)
    ensures high { result.0 ≡ value / 2 ^ 64 }
    ensures low { result.1 ≡ value % 2 ^ 64 }
{
    ((value / WORD) as u64, (value % WORD) as u64)
}

impl Op for Wide {
    ghost opcode = { wide_opcode };

    fn code(&self) -> u8 {
        self.opcode().code()
    }

    fn exec(&self, alloc: Global, instr: &Instr, cpu: &mut Cpu, env: &mut Env) -> Executed {
        self.execute(alloc, instr, cpu, env)
    }

    fn carry_out(&self, alloc: Global, instr: &Instr, cpu: &mut Cpu, env: &mut Env) -> Control {
        Control::of(alloc, self.execute(alloc, instr, cpu, env))
    }
}
