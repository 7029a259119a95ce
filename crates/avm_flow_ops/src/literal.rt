//! Instructions that push what they hold.

ghost use Rattle.std.specs.Prelude.{◌≡◌, IfSome, Some};
ghost use Rattle.avm_ops.specs.Objects.{Executes};
ghost use Rattle.avm_flow_ops.specs.Families.{literal_opcode};

use avm_cpu::{Cpu, Flow};
use avm_items::Env;
use avm_ops::immediates::{bytes_of, uint_of};
use avm_ops::{Control, Executed, Op};
use std::alloc::Global;
use teal_code::Instr;
use teal_table::Opcode;
use teal_value::{ByteString, Value};

/// Pushes its own number or byte string.
#[derive(Clone, Copy, Debug, PartialEq, Eq)]
pub enum Literal {
    Pushbytes,
    Pushint,
}

impl Literal {
    /// The instruction of an opcode.
    pub fn of(opcode: Opcode) -> Option<Literal>
        ensures some { IfSome result (λ row. literal_opcode row ≡ opcode) }
        ensures all { (row : _) → literal_opcode row ≡ opcode → result ≡ Some row }
    {
        match opcode {
            Opcode::Pushbytes => Some(Literal::Pushbytes),
            Opcode::Pushint => Some(Literal::Pushint),
            _ => None,
        }
    }

    fn opcode(self) -> Opcode
        ensures { result ≡ literal_opcode self }
    {
        match self {
            Literal::Pushbytes => Opcode::Pushbytes,
            Literal::Pushint => Opcode::Pushint,
        }
    }

    #[tactic(auto, unfolding(avm_ops::specs::Effect::effect))]
    #[inline(always)]
    fn execute(&self, alloc: Global, instr: &Instr, cpu: &mut Cpu, _env: &mut Env) -> Executed
        ensures { Executes (literal_opcode self.now)
            instr.now.immediates cpu.old _env.old result cpu.new _env.new }
    {
        match self {
            Literal::Pushbytes => {
                let copy = ByteString::from_slice(alloc, bytes_of(&instr.immediates))?;
                cpu.push(Value::Bytes(copy))?;
            }
            Literal::Pushint => cpu.push_uint(uint_of(&instr.immediates))?,
        }
        Ok(Flow::Next)
    }
}

impl Op for Literal {
    ghost opcode = { literal_opcode };

    fn code(&self) -> u8 {
        self.opcode().code()
    }

    fn exec(&self, alloc: Global, instr: &Instr, cpu: &mut Cpu, env: &mut Env) -> Executed {
        self.execute(alloc, instr, cpu, env)
    }

    fn carry_out(&self, alloc: Global, instr: &Instr, cpu: &mut Cpu, env: &mut Env) -> Control {
        Control::of(alloc, self.execute(alloc, instr, cpu, env))
    }
}
