//! The scratch space.

ghost use Rattle.std.specs.Prelude.{◌≡◌, IfSome, Some};
ghost use Rattle.avm_flow_ops.specs.Families.{scratch_opcode};
ghost use Rattle.avm_ops.specs.Objects.{Executes};

use avm_cpu::{Cpu, Flow};
use avm_items::Env;
use avm_ops::immediates::index_of;
use avm_ops::{Control, Executed, Op};
use std::alloc::Global;
use teal_code::Instr;
use teal_table::Opcode;
use teal_value::Value;

/// An instruction on the scratch space.
#[derive(Clone, Copy, Debug, PartialEq, Eq)]
pub enum Scratch {
    /// Pushes the value of a scratch place.
    Load,
    /// Moves the value on top to a scratch place.
    Store,
}

impl Scratch {
    /// The instruction of an opcode.
    pub fn of(opcode: Opcode) -> Option<Scratch>
        ensures some { IfSome result (λ row. scratch_opcode row ≡ opcode) }
        ensures all { (row : _) → scratch_opcode row ≡ opcode → result ≡ Some row }
    {
        match opcode {
            Opcode::Load => Some(Scratch::Load),
            Opcode::Store => Some(Scratch::Store),
            _ => None,
        }
    }

    fn opcode(self) -> Opcode
        ensures { result ≡ scratch_opcode self }
    {
        match self {
            Scratch::Load => Opcode::Load,
            Scratch::Store => Opcode::Store,
        }
    }

    /// Carries an instruction out. Both methods of the interface have this body inline.
    #[tactic(auto, unfolding(avm_ops::specs::Effect::effect))]
    #[inline(always)]
    fn execute(self, instr: &Instr, cpu: &mut Cpu, _env: &mut Env) -> Executed
        ensures { Executes (scratch_opcode self)
            instr.now.immediates cpu.old _env.old result cpu.new _env.new }
    {
        let index = index_of(&instr.immediates);
        match self {
            Scratch::Load => match cpu.scratch(index) {
                Value::Uint(number) => {
                    let number = *number;
                    cpu.push_uint(number)?;
                }
                Value::Bytes(_) => cpu.load(index).result()?,
            },
            Scratch::Store => {
                let _value = cpu.one_value()?;
                cpu.store(index);
            }
        }
        Ok(Flow::Next)
    }
}

impl Op for Scratch {
    ghost opcode = { scratch_opcode };

    fn code(&self) -> u8 {
        self.opcode().code()
    }

    fn exec(&self, _alloc: Global, instr: &Instr, cpu: &mut Cpu, env: &mut Env) -> Executed {
        self.execute(instr, cpu, env)
    }

    fn carry_out(&self, alloc: Global, instr: &Instr, cpu: &mut Cpu, env: &mut Env) -> Control {
        Control::of(alloc, self.execute(instr, cpu, env))
    }
}
