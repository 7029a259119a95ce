//! Instructions that end a program, or may.

ghost use Rattle.std.specs.Prelude.{◌≡◌, IfSome, Some};
ghost use Rattle.avm_ops.specs.Objects.{Executes};
ghost use Rattle.avm_flow_ops.specs.Families.{stops_opcode};

use avm_cpu::{Cpu, Flow};
use avm_items::Env;
use avm_ops::{Control, Executed, Op, Stop};
use std::alloc::Global;
use teal_code::Instr;
use teal_table::Opcode;
use teal_value::{Fault, Value};

/// An instruction that ends a program, or may.
#[derive(Clone, Copy, Debug, PartialEq, Eq)]
pub enum Stops {
    /// `err`, which always faults.
    Err,
    /// `return`, which ends the program with the number on top alone.
    Return,
    /// `assert`, which faults where the number on top is 0.
    Assert,
}

impl Stops {
    /// The instruction of an opcode.
    pub fn of(opcode: Opcode) -> Option<Stops>
        ensures some { IfSome result (λ row. stops_opcode row ≡ opcode) }
        ensures all { (row : _) → stops_opcode row ≡ opcode → result ≡ Some row }
    {
        match opcode {
            Opcode::Err => Some(Stops::Err),
            Opcode::Return => Some(Stops::Return),
            Opcode::Assert => Some(Stops::Assert),
            _ => None,
        }
    }

    fn opcode(self) -> Opcode
        ensures { result ≡ stops_opcode self }
    {
        match self {
            Stops::Err => Opcode::Err,
            Stops::Return => Opcode::Return,
            Stops::Assert => Opcode::Assert,
        }
    }

    #[tactic(auto, unfolding(avm_ops::specs::Effect::effect))]
    #[inline(always)]
    fn execute(&self, _alloc: Global, _instr: &Instr, cpu: &mut Cpu, _env: &mut Env) -> Executed
        ensures { Executes (stops_opcode self.now)
            _instr.now.immediates cpu.old _env.old result cpu.new _env.new }
    {
        match self {
            Stops::Err => Err(Stop::Fault(Fault::Err)),
            Stops::Return => {
                let result = cpu.one_uint()?;
                cpu.set_only(Value::Uint(result));
                Ok(Flow::End)
            }
            Stops::Assert => {
                if cpu.one_uint()? == 0 {
                    return Err(Stop::Fault(Fault::Assert));
                }
                cpu.drop_top(1);
                Ok(Flow::Next)
            }
        }
    }
}

impl Op for Stops {
    ghost opcode = { stops_opcode };

    fn code(&self) -> u8 {
        self.opcode().code()
    }

    fn exec(&self, alloc: Global, instr: &Instr, cpu: &mut Cpu, env: &mut Env) -> Executed {
        self.execute(alloc, instr, cpu, env)
    }

    fn carry_out(&self, alloc: Global, instr: &Instr, cpu: &mut Cpu, env: &mut Env) -> Control {
        Control::of(alloc, self.execute(alloc, instr, cpu, env))
    }
}
