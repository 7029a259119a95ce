//! The instruction that pushes a field of the block, or of the application that runs.

ghost use Rattle.std.specs.Prelude.{◌≡◌, IfSome, Some};
ghost use Rattle.teal_table.specs.declared.opcode.Opcode.TheVariants as op;
ghost use Rattle.avm_items.specs.Asks.{answer_from};
ghost use Rattle.avm_items.specs.Environments.{known_to};
ghost use Rattle.avm_cpu.specs.Machine.{Machine};
ghost use Rattle.avm_ops.specs.Fields.{value_of_global_field, global_at, profile_version};
ghost use Rattle.avm_ops.specs.Objects.{Executes, context_of};
ghost use Rattle.avm_state_ops.specs.Parts.{Answers};

use crate::fields::{ZERO_ADDRESS, bytes_value};
use crate::item_reads::known;
use avm_cpu::{Cpu, Flow};
use avm_items::{Env, Item, ItemValue};
use avm_ledger::Profile;
use avm_ops::immediates::field_of;
use avm_ops::{Control, Executed, Op, Stop};
use std::alloc::Global;
use teal_code::Instr;
use teal_table::{GlobalField, Opcode, global_field};
use teal_value::{Fault, Value};

/// Pushes a field of the block, or of the application that runs.
#[derive(Clone, Copy, Debug, PartialEq, Eq)]
pub struct GlobalOp;

fn profile_version(profile: Profile) -> u64
    ensures { result ≡ profile_version profile }
{
    match profile {
        Profile::Two => 2,
        Profile::Three => 3,
    }
}

/// The value of a field.
fn global_value(alloc: Global, env: &Env, field: GlobalField) -> Result<Value, Stop>
    ensures { (m : Machine) → Answers (λ v. v) result
        (answer_from (known_to env.now) (value_of_global_field (context_of m env.now) field)) }
{
    let header = env.header();
    match field {
        GlobalField::MinTxnFee => Ok(Value::Uint(header.min_fee)),
        GlobalField::MinBalance => Ok(Value::Uint(header.min_balance)),
        GlobalField::MaxTxnLife => Ok(Value::Uint(header.max_life)),
        GlobalField::ZeroAddress => Ok(bytes_value(alloc, &ZERO_ADDRESS)?),
        GlobalField::GroupSize => Ok(Value::Uint(1)),
        GlobalField::LogicSigVersion => Ok(Value::Uint(profile_version(header.profile))),
        GlobalField::Round => Ok(Value::Uint(header.round)),
        GlobalField::LatestTimestamp => Ok(Value::Uint(header.latest_timestamp)),
        GlobalField::CurrentApplicationId => Ok(Value::Uint(env.current())),
        GlobalField::CreatorAddress => match known(alloc, env, &Item::App(env.current()))? {
            ItemValue::App(row) => Ok(bytes_value(alloc, &row.get().creator.0)?),
            _ => Ok(bytes_value(alloc, &ZERO_ADDRESS)?),
        },
    }
}

impl GlobalOp {
    /// The instruction, of its opcode.
    pub fn of(opcode: Opcode) -> Option<GlobalOp>
        ensures some { IfSome result (λ _. op.Global ≡ opcode) }
        ensures all { (row : _) → op.Global ≡ opcode → result ≡ Some row }
    {
        match opcode {
            Opcode::Global => Some(GlobalOp),
            _ => None,
        }
    }

    #[tactic(auto, unfolding(avm_ops::specs::Effect::effect))]
    #[inline(always)]
    fn execute(&self, alloc: Global, instr: &Instr, cpu: &mut Cpu, env: &mut Env) -> Executed
        ensures { Executes op.Global instr.now.immediates cpu.old env.old result cpu.new env.new }
    {
        let Some(field) = global_field(field_of(&instr.immediates)) else {
            return Err(Stop::Fault(Fault::BadField));
        };
        let value = global_value(alloc, env, field)?;
        cpu.push(value)?;
        Ok(Flow::Next)
    }
}

impl Op for GlobalOp {
    ghost opcode = { λ _. op.Global };

    fn code(&self) -> u8 {
        Opcode::Global.code()
    }

    fn exec(&self, alloc: Global, instr: &Instr, cpu: &mut Cpu, env: &mut Env) -> Executed {
        self.execute(alloc, instr, cpu, env)
    }

    fn carry_out(&self, alloc: Global, instr: &Instr, cpu: &mut Cpu, env: &mut Env) -> Control {
        Control::of(alloc, self.execute(alloc, instr, cpu, env))
    }
}
