//! Constant blocks.

ghost use Rattle.std.specs.Prelude.{◌≡◌, IfSome, Some};
ghost use Rattle.avm_ops.specs.Objects.{Executes};
ghost use Rattle.avm_flow_ops.specs.Families.{block_opcode};

use avm_cpu::{Cpu, Flow};
use avm_items::Env;
use avm_ops::immediates::{byte_strings_of, uints_of};
use avm_ops::{Control, Executed, Op};
use std::alloc::Global;
use teal_code::Instr;
use teal_table::Opcode;

/// Puts its constants in force, in place of those before.
#[derive(Clone, Copy, Debug, PartialEq, Eq)]
pub enum Block {
    Intcblock,
    Bytecblock,
}

impl Block {
    /// The instruction of an opcode.
    pub fn of(opcode: Opcode) -> Option<Block>
        ensures some { IfSome result (λ row. block_opcode row ≡ opcode) }
        ensures all { (row : _) → block_opcode row ≡ opcode → result ≡ Some row }
    {
        match opcode {
            Opcode::Intcblock => Some(Block::Intcblock),
            Opcode::Bytecblock => Some(Block::Bytecblock),
            _ => None,
        }
    }

    fn opcode(self) -> Opcode
        ensures { result ≡ block_opcode self }
    {
        match self {
            Block::Intcblock => Opcode::Intcblock,
            Block::Bytecblock => Opcode::Bytecblock,
        }
    }

    #[tactic(auto, unfolding(avm_ops::specs::Effect::effect))]
    #[inline(always)]
    fn execute(&self, alloc: Global, instr: &Instr, cpu: &mut Cpu, _env: &mut Env) -> Executed
        ensures { Executes (block_opcode self.now)
            instr.now.immediates cpu.old _env.old result cpu.new _env.new }
    {
        match self {
            Block::Intcblock => cpu.set_uint_constants(uints_of(&instr.immediates))?,
            Block::Bytecblock => {
                cpu.set_byte_constants(alloc, byte_strings_of(&instr.immediates))?
            }
        }
        Ok(Flow::Next)
    }
}

impl Op for Block {
    ghost opcode = { block_opcode };

    fn code(&self) -> u8 {
        self.opcode().code()
    }

    fn exec(&self, alloc: Global, instr: &Instr, cpu: &mut Cpu, env: &mut Env) -> Executed {
        self.execute(alloc, instr, cpu, env)
    }

    fn carry_out(&self, alloc: Global, instr: &Instr, cpu: &mut Cpu, env: &mut Env) -> Control {
        Control::of(alloc, self.execute(alloc, instr, cpu, env))
    }
}
