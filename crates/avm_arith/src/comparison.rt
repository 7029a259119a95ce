//! Instructions that compare two numbers, or two values of one type.

ghost use Rattle.std.specs.Prelude.{◌≡◌, IfSome, Some};
ghost use Rattle.avm_ops.specs.Objects.{Executes};
ghost use Rattle.teal_value.specs.declared.value.Value.TheVariants.{Uint};
ghost use Rattle.avm_ops.specs.Frame.{flag};
ghost use Rattle.avm_ops.specs.Numbers.{are_equal};
ghost use Rattle.avm_arith.specs.Families.{comparison_opcode, comparison_holds, equality_opcode, equality_holds};

use avm_cpu::{Cpu, Flow};
use avm_items::Env;
use avm_ops::{Control, Executed, Op, flag};
use std::alloc::Global;
use teal_code::Instr;
use teal_table::Opcode;
use teal_value::{Fault, Value};

/// An instruction that compares two numbers, or takes them as truth values, and gives 1 or 0.
#[derive(Clone, Copy, Debug, PartialEq, Eq)]
pub enum Comparison {
    Less,
    Greater,
    LessOrEqual,
    GreaterOrEqual,
    And,
    Or,
}

impl Comparison {
    /// The instruction of an opcode.
    pub fn of(opcode: Opcode) -> Option<Comparison>
        ensures some { IfSome result (λ row. comparison_opcode row ≡ opcode) }
        ensures all { (row : _) → comparison_opcode row ≡ opcode → result ≡ Some row }
    {
        match opcode {
            Opcode::Less => Some(Comparison::Less),
            Opcode::Greater => Some(Comparison::Greater),
            Opcode::LessOrEqual => Some(Comparison::LessOrEqual),
            Opcode::GreaterOrEqual => Some(Comparison::GreaterOrEqual),
            Opcode::And => Some(Comparison::And),
            Opcode::Or => Some(Comparison::Or),
            _ => None,
        }
    }

    fn opcode(self) -> Opcode
        ensures { result ≡ comparison_opcode self }
    {
        match self {
            Comparison::Less => Opcode::Less,
            Comparison::Greater => Opcode::Greater,
            Comparison::LessOrEqual => Opcode::LessOrEqual,
            Comparison::GreaterOrEqual => Opcode::GreaterOrEqual,
            Comparison::And => Opcode::And,
            Comparison::Or => Opcode::Or,
        }
    }

    /// Whether it gives 1.
    fn holds(self, a: u64, b: u64) -> bool
        ensures { result ≡ comparison_holds self a b }
    {
        match self {
            Comparison::Less => a < b,
            Comparison::Greater => a > b,
            Comparison::LessOrEqual => a <= b,
            Comparison::GreaterOrEqual => a >= b,
            Comparison::And => a != 0 && b != 0,
            Comparison::Or => a != 0 || b != 0,
        }
    }

    #[tactic(auto, unfolding(avm_ops::specs::Effect::effect))]
    #[inline(always)]
    fn execute(&self, _alloc: Global, _instr: &Instr, cpu: &mut Cpu, _env: &mut Env) -> Executed
        ensures { Executes (comparison_opcode self.now)
            _instr.now.immediates cpu.old _env.old result cpu.new _env.new }
    {
        let (a, b) = cpu.two_uints()?;
        let holds = self.holds(a, b);
        cpu.set_uint(2, flag(holds));
        Ok(Flow::Next)
    }
}

impl Op for Comparison {
    ghost opcode = { comparison_opcode };

    fn code(&self) -> u8 {
        self.opcode().code()
    }

    fn exec(&self, alloc: Global, instr: &Instr, cpu: &mut Cpu, env: &mut Env) -> Executed {
        self.execute(alloc, instr, cpu, env)
    }

    fn carry_out(&self, alloc: Global, instr: &Instr, cpu: &mut Cpu, env: &mut Env) -> Control {
        Control::of(alloc, self.execute(alloc, instr, cpu, env))
    }
}

/// An instruction that tests whether two values of one type are the same.
#[derive(Clone, Copy, Debug, PartialEq, Eq)]
pub enum Equality {
    Equal,
    NotEqual,
}

impl Equality {
    /// The instruction of an opcode.
    pub fn of(opcode: Opcode) -> Option<Equality>
        ensures some { IfSome result (λ row. equality_opcode row ≡ opcode) }
        ensures all { (row : _) → equality_opcode row ≡ opcode → result ≡ Some row }
    {
        match opcode {
            Opcode::Equal => Some(Equality::Equal),
            Opcode::NotEqual => Some(Equality::NotEqual),
            _ => None,
        }
    }

    fn opcode(self) -> Opcode
        ensures { result ≡ equality_opcode self }
    {
        match self {
            Equality::Equal => Opcode::Equal,
            Equality::NotEqual => Opcode::NotEqual,
        }
    }

    /// Whether it gives 1.
    fn holds(self, are_equal: bool) -> bool
        ensures { result ≡ equality_holds self are_equal }
    {
        match self {
            Equality::Equal => are_equal,
            Equality::NotEqual => !are_equal,
        }
    }

    #[tactic(auto, unfolding(avm_ops::specs::Effect::effect))]
    #[inline(always)]
    fn execute(&self, _alloc: Global, _instr: &Instr, cpu: &mut Cpu, _env: &mut Env) -> Executed
        ensures { Executes (equality_opcode self.now)
            _instr.now.immediates cpu.old _env.old result cpu.new _env.new }
    {
        let (a, b) = cpu.two_values()?;
        let same = are_equal(a, b)?;
        cpu.set_uint(2, flag(self.holds(same)));
        Ok(Flow::Next)
    }
}

/// Whether two values of one type are the same.
fn are_equal(a: &Value, b: &Value) -> Result<bool, Fault>
    ensures { result ≡ are_equal a.now b.now }
{
    match (a, b) {
        (Value::Uint(a), Value::Uint(b)) => Ok(a == b),
        (Value::Bytes(a), Value::Bytes(b)) => Ok(a.as_slice() == b.as_slice()),
        _ => Err(Fault::Compare),
    }
}

impl Op for Equality {
    ghost opcode = { equality_opcode };

    fn code(&self) -> u8 {
        self.opcode().code()
    }

    fn exec(&self, alloc: Global, instr: &Instr, cpu: &mut Cpu, env: &mut Env) -> Executed {
        self.execute(alloc, instr, cpu, env)
    }

    fn carry_out(&self, alloc: Global, instr: &Instr, cpu: &mut Cpu, env: &mut Env) -> Control {
        Control::of(alloc, self.execute(alloc, instr, cpu, env))
    }
}
