//! Instructions that read states.

ghost use Rattle.std.specs.Prelude.{◌≡◌, ◌==◌, if◌then◌else◌, IfOk, IfSome, Some};
ghost use Rattle.std.specs.Option.{option_copied};
ghost use Rattle.teal_value.specs.declared.fault.Fault.TheVariants.{NoForeign};
ghost use Rattle.teal_value.specs.declared.value.Value.TheVariants.{Uint};
ghost use Rattle.avm_ops.specs.Frame.{flag};
ghost use Rattle.avm_ops.specs.Objects.{Does, Executes, IfStopped};
ghost use Rattle.avm_ops.specs.States.{foreign_of, global_get, global_get_ex, local_get, local_get_ex, opted_in, or_zero};
ghost use Rattle.avm_state_ops.specs.Families.{read_opcode};
ghost use Rattle.avm_state_ops.specs.Parts.{known_row};

use crate::fields::account;
use crate::item_reads::{application, global_entry, local_state};
use avm_cpu::{Cpu, Flow};
use avm_items::Env;
use avm_ops::{Control, Executed, Op, Stop, flag};
use std::alloc::{AllocError, Global};
use teal_code::Instr;
use teal_table::Opcode;
use teal_value::{Fault, Value};

/// An instruction that reads a state.
#[derive(Clone, Copy, Debug, PartialEq, Eq)]
pub enum StateRead {
    /// Whether an account is opted in to an application.
    OptedIn,
    /// A value of an account's local state of this application, 0 where there is none.
    LocalGet,
    /// A value of an account's local state of an application, and whether there is one.
    LocalGetEx,
    /// A value of this application's global state, 0 where there is none.
    GlobalGet,
    /// A value of an application's global state, and whether there is one.
    GlobalGetEx,
}

impl StateRead {
    /// The instruction of an opcode.
    pub fn of(opcode: Opcode) -> Option<StateRead>
        ensures some { IfSome result (λ row. read_opcode row ≡ opcode) }
        ensures all { (row : _) → read_opcode row ≡ opcode → result ≡ Some row }
    {
        match opcode {
            Opcode::AppOptedIn => Some(StateRead::OptedIn),
            Opcode::AppLocalGet => Some(StateRead::LocalGet),
            Opcode::AppLocalGetEx => Some(StateRead::LocalGetEx),
            Opcode::AppGlobalGet => Some(StateRead::GlobalGet),
            Opcode::AppGlobalGetEx => Some(StateRead::GlobalGetEx),
            _ => None,
        }
    }

    fn opcode(self) -> Opcode
        ensures { result ≡ read_opcode self }
    {
        match self {
            StateRead::OptedIn => Opcode::AppOptedIn,
            StateRead::LocalGet => Opcode::AppLocalGet,
            StateRead::LocalGetEx => Opcode::AppLocalGetEx,
            StateRead::GlobalGet => Opcode::AppGlobalGet,
            StateRead::GlobalGetEx => Opcode::AppGlobalGetEx,
        }
    }

    #[tactic(auto, unfolding(avm_ops::specs::Effect::effect))]
    #[inline(always)]
    fn execute(&self, alloc: Global, _instr: &Instr, cpu: &mut Cpu, env: &mut Env) -> Executed
        ensures { Executes (read_opcode self.now)
            _instr.now.immediates cpu.old env.old result cpu.new env.new }
    {
        match self {
            StateRead::OptedIn => opted_in(alloc, cpu, env),
            StateRead::LocalGet => local_get(alloc, cpu, env),
            StateRead::LocalGetEx => local_get_ex(alloc, cpu, env),
            StateRead::GlobalGet => global_get(alloc, cpu, env),
            StateRead::GlobalGetEx => global_get_ex(alloc, cpu, env),
        }
    }
}

/// A copy of a value; the uint64 0 where there is none.
fn or_zero(value: Option<&Value>) -> Result<Value, AllocError>
    ensures { IfOk result (λ copy. copy ≡ or_zero (option_copied value.entry)) }
{
    match value {
        Some(value) => value.clone(),
        None => Ok(Value::Uint(0)),
    }
}

/// The application of an id, where 0 is this one.
fn application_named(env: &Env, id: u64) -> u64
    ensures { result ≡ (if id == 0 then env.now.current else id) }
{
    if id == 0 { env.current() } else { id }
}

/// The application of an offset: this one at 0, and the call's foreign applications from 1 on.
fn foreign_application(env: &Env, offset: u64) -> Result<u64, Fault>
    ensures { result ≡ foreign_of env.now.call env.now.current offset }
{
    if offset == 0 {
        return Ok(env.current());
    }
    match env
        .call()
        .foreign_applications
        .as_slice()
        .get((offset - 1) as usize)
    {
        Some(id) => Ok(*id),
        None => Err(Fault::NoForeign),
    }
}

fn opted_in(alloc: Global, cpu: &mut Cpu, env: &Env) -> Executed
    ensures row { Does result cpu.new env.now (known_row opted_in cpu.old env.now) }
    ensures unchanged { IfStopped result (cpu.new ≡ cpu.old) }
{
    let (index, id) = cpu.two_uints()?;
    let who = account(env.call(), index)?;
    let is_in = local_state(alloc, env, who, application_named(env, id))?.is_some();
    cpu.set_uint(2, flag(is_in));
    Ok(Flow::Next)
}

fn local_get(alloc: Global, cpu: &mut Cpu, env: &Env) -> Executed
    ensures row { Does result cpu.new env.now (known_row local_get cpu.old env.now) }
    ensures unchanged { IfStopped result (cpu.new ≡ cpu.old) }
{
    let (index, key) = cpu.uint_and_bytes()?;
    let who = account(env.call(), index)?;
    let Some(state) = local_state(alloc, env, who, env.current())? else {
        return Err(Stop::Fault(Fault::NotOptedIn));
    };
    let value = or_zero(state.value_of(key))?;
    cpu.replace(2, value);
    Ok(Flow::Next)
}

fn local_get_ex(alloc: Global, cpu: &mut Cpu, env: &Env) -> Executed
    ensures row { Does result cpu.new env.now (known_row local_get_ex cpu.old env.now) }
    ensures unchanged { IfStopped result (cpu.new ≡ cpu.old) }
{
    let (index, id, key) = cpu.two_uints_and_bytes()?;
    let who = account(env.call(), index)?;
    let Some(state) = local_state(alloc, env, who, application_named(env, id))? else {
        return Err(Stop::Fault(Fault::NotOptedIn));
    };
    let value = state.value_of(key);
    let is_there = flag(value.is_some());
    let copy = or_zero(value)?;
    cpu.replace_pair(3, copy, Value::Uint(is_there));
    Ok(Flow::Next)
}

fn global_get(alloc: Global, cpu: &mut Cpu, env: &Env) -> Executed
    ensures row { Does result cpu.new env.now (known_row global_get cpu.old env.now) }
    ensures unchanged { IfStopped result (cpu.new ≡ cpu.old) }
{
    let key = cpu.one_bytes()?;
    let value = or_zero(global_entry(alloc, env, env.current(), key)?)?;
    cpu.replace(1, value);
    Ok(Flow::Next)
}

fn global_get_ex(alloc: Global, cpu: &mut Cpu, env: &Env) -> Executed
    ensures row { Does result cpu.new env.now (known_row global_get_ex cpu.old env.now) }
    ensures unchanged { IfStopped result (cpu.new ≡ cpu.old) }
{
    let (offset, key) = cpu.uint_and_bytes()?;
    let id = foreign_application(env, offset)?;
    if application(alloc, env, id)?.is_none() {
        return Err(Stop::Fault(Fault::NoSuchApp));
    }
    let value = global_entry(alloc, env, id, key)?;
    let is_there = flag(value.is_some());
    let copy = or_zero(value)?;
    cpu.replace_pair(2, copy, Value::Uint(is_there));
    Ok(Flow::Next)
}

impl Op for StateRead {
    ghost opcode = { read_opcode };

    fn code(&self) -> u8 {
        self.opcode().code()
    }

    fn exec(&self, alloc: Global, instr: &Instr, cpu: &mut Cpu, env: &mut Env) -> Executed {
        self.execute(alloc, instr, cpu, env)
    }

    fn carry_out(&self, alloc: Global, instr: &Instr, cpu: &mut Cpu, env: &mut Env) -> Control {
        Control::of(alloc, self.execute(alloc, instr, cpu, env))
    }
}
