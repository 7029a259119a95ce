//! Instructions that push a field of the call.

ghost use Rattle.std.specs.Prelude.{◌≡◌, IfSome, Some, ◌==◌};
ghost use Rattle.avm_ops.specs.Objects.{Executes};
ghost use Rattle.teal_value.specs.Answer.{Gives};
ghost use Rattle.avm_ops.specs.Fields.{is_in_group};
ghost use Rattle.avm_state_ops.specs.Families.{txn_opcode};

use crate::fields::{array_field, scalar_field, scalar_number};
use avm_cpu::{Cpu, Flow};
use avm_items::Env;
use avm_ops::immediates::{field_of, group_index_of, index_of};
use avm_ops::{Control, Executed, Op};
use std::alloc::Global;
use teal_code::Instr;
use teal_table::Opcode;
use teal_value::Fault;

/// An instruction that pushes a field of the call, of the one transaction of its group.
#[derive(Clone, Copy, Debug, PartialEq, Eq)]
pub enum Txn {
    /// A field that is no array.
    Scalar,
    /// An array field at an index.
    Element,
    /// A field of a transaction that the immediate names.
    GroupScalar,
    GroupElement,
    /// A field of a transaction that the operand names.
    StackScalar,
    StackElement,
}

impl Txn {
    /// The instruction of an opcode.
    pub fn of(opcode: Opcode) -> Option<Txn>
        ensures some { IfSome result (λ row. txn_opcode row ≡ opcode) }
        ensures all { (row : _) → txn_opcode row ≡ opcode → result ≡ Some row }
    {
        match opcode {
            Opcode::Txn => Some(Txn::Scalar),
            Opcode::Gtxn => Some(Txn::GroupScalar),
            Opcode::Txna => Some(Txn::Element),
            Opcode::Gtxna => Some(Txn::GroupElement),
            Opcode::Gtxns => Some(Txn::StackScalar),
            Opcode::Gtxnsa => Some(Txn::StackElement),
            _ => None,
        }
    }

    fn opcode(self) -> Opcode
        ensures { result ≡ txn_opcode self }
    {
        match self {
            Txn::Scalar => Opcode::Txn,
            Txn::Element => Opcode::Txna,
            Txn::GroupScalar => Opcode::Gtxn,
            Txn::GroupElement => Opcode::Gtxna,
            Txn::StackScalar => Opcode::Gtxns,
            Txn::StackElement => Opcode::Gtxnsa,
        }
    }

    #[tactic(auto, unfolding(avm_ops::specs::Effect::effect))]
    #[inline(always)]
    fn execute(&self, alloc: Global, instr: &Instr, cpu: &mut Cpu, env: &mut Env) -> Executed
        ensures { Executes (txn_opcode self.now)
            instr.now.immediates cpu.old env.old result cpu.new env.new }
    {
        let immediates = &instr.immediates;
        let field = field_of(immediates);
        match self {
            Txn::Scalar => match scalar_number(env.call(), field) {
                Some(number) => cpu.push_uint(number)?,
                None => cpu.push(scalar_field(alloc, env.call(), field)?)?,
            },
            Txn::Element => cpu.push(array_field(alloc, env.call(), field, index_of(immediates))?)?,
            Txn::GroupScalar => {
                test_group(u64::from(group_index_of(immediates)))?;
                cpu.push(scalar_field(alloc, env.call(), field)?)?;
            }
            Txn::GroupElement => {
                test_group(u64::from(group_index_of(immediates)))?;
                cpu.push(array_field(alloc, env.call(), field, index_of(immediates))?)?;
            }
            Txn::StackScalar => {
                test_group(cpu.one_uint()?)?;
                let value = scalar_field(alloc, env.call(), field)?;
                cpu.replace(1, value);
            }
            Txn::StackElement => {
                test_group(cpu.one_uint()?)?;
                let value = array_field(alloc, env.call(), field, index_of(immediates))?;
                cpu.replace(1, value);
            }
        }
        Ok(Flow::Next)
    }
}

/// Every call is a group of one: transaction 0 alone is there.
fn test_group(transaction: u64) -> Result<(), Fault>
    ensures { result ≡ is_in_group transaction }
{
    if transaction == 0 {
        Ok(())
    } else {
        Err(Fault::NoTxn)
    }
}

impl Op for Txn {
    ghost opcode = { txn_opcode };

    fn code(&self) -> u8 {
        self.opcode().code()
    }

    fn exec(&self, alloc: Global, instr: &Instr, cpu: &mut Cpu, env: &mut Env) -> Executed {
        self.execute(alloc, instr, cpu, env)
    }

    fn carry_out(&self, alloc: Global, instr: &Instr, cpu: &mut Cpu, env: &mut Env) -> Control {
        Control::of(alloc, self.execute(alloc, instr, cpu, env))
    }
}
