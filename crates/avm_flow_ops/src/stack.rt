//! Instructions that move the values of the stack.

ghost use Rattle.std.specs.Prelude.{◌≡◌, IfSome, Some};
ghost use Rattle.avm_ops.specs.Objects.{Executes};
ghost use Rattle.avm_flow_ops.specs.Families.{stack_opcode};

use avm_cpu::{Cpu, Flow};
use avm_items::Env;
use avm_ops::immediates::index_of;
use avm_ops::{Control, Executed, Op};
use std::alloc::Global;
use teal_code::Instr;
use teal_table::Opcode;
use teal_value::Value;

/// An instruction that moves the values of the stack.
#[derive(Clone, Copy, Debug, PartialEq, Eq)]
pub enum Stack {
    /// Drops the value on top.
    Pop,
    /// Pushes the value on top once more.
    Dup,
    /// Pushes the two values on top once more, in their order.
    Dup2,
    /// Pushes the value so many below the top.
    Dig,
    /// Changes the places of the two values on top.
    Swap,
    /// Keeps one of two values, by the number on top.
    Select,
}

impl Stack {
    /// The instruction of an opcode.
    pub fn of(opcode: Opcode) -> Option<Stack>
        ensures some { IfSome result (λ row. stack_opcode row ≡ opcode) }
        ensures all { (row : _) → stack_opcode row ≡ opcode → result ≡ Some row }
    {
        match opcode {
            Opcode::Pop => Some(Stack::Pop),
            Opcode::Dup => Some(Stack::Dup),
            Opcode::Dup2 => Some(Stack::Dup2),
            Opcode::Dig => Some(Stack::Dig),
            Opcode::Swap => Some(Stack::Swap),
            Opcode::Select => Some(Stack::Select),
            _ => None,
        }
    }

    fn opcode(self) -> Opcode
        ensures { result ≡ stack_opcode self }
    {
        match self {
            Stack::Pop => Opcode::Pop,
            Stack::Dup => Opcode::Dup,
            Stack::Dup2 => Opcode::Dup2,
            Stack::Dig => Opcode::Dig,
            Stack::Swap => Opcode::Swap,
            Stack::Select => Opcode::Select,
        }
    }

    #[tactic(auto, unfolding(avm_ops::specs::Effect::effect))]
    #[inline(always)]
    fn execute(&self, _alloc: Global, instr: &Instr, cpu: &mut Cpu, _env: &mut Env) -> Executed
        ensures { Executes (stack_opcode self.now)
            instr.now.immediates cpu.old _env.old result cpu.new _env.new }
    {
        match self {
            Stack::Pop => {
                let _value = cpu.one_value()?;
                cpu.drop_top(1);
            }
            Stack::Dup => match cpu.one_value()? {
                Value::Uint(number) => {
                    let number = *number;
                    cpu.push_uint(number)?;
                }
                Value::Bytes(_) => cpu.push_copy(0).result()?,
            },
            Stack::Dup2 => match cpu.two_values()? {
                (Value::Uint(below), Value::Uint(top)) => {
                    let (below, top) = (*below, *top);
                    cpu.push_uints(below, top)?;
                }
                _ => cpu.push_copies().result()?,
            },
            Stack::Dig => {
                let depth = index_of(&instr.immediates);
                match cpu.value_below(depth)? {
                    Value::Uint(number) => {
                        let number = *number;
                        cpu.push_uint(number)?;
                    }
                    Value::Bytes(_) => cpu.push_copy(depth).result()?,
                }
            }
            Stack::Swap => {
                let _values = cpu.two_values()?;
                cpu.swap();
            }
            Stack::Select => {
                let (_first, _second, choice) = cpu.two_values_and_uint()?;
                cpu.drop_top(1);
                if choice == 0 {
                    cpu.drop_top(1);
                } else {
                    cpu.drop_second();
                }
            }
        }
        Ok(Flow::Next)
    }
}

impl Op for Stack {
    ghost opcode = { stack_opcode };

    fn code(&self) -> u8 {
        self.opcode().code()
    }

    fn exec(&self, alloc: Global, instr: &Instr, cpu: &mut Cpu, env: &mut Env) -> Executed {
        self.execute(alloc, instr, cpu, env)
    }

    fn carry_out(&self, alloc: Global, instr: &Instr, cpu: &mut Cpu, env: &mut Env) -> Control {
        Control::of(alloc, self.execute(alloc, instr, cpu, env))
    }
}
