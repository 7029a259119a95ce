//! Instructions that change states.

ghost use Rattle.std.specs.Prelude.{◌≡◌, ◌||◌, ℕ, List, Some, false, true, IfSome, MatchOption};
ghost use Rattle.std.specs.Option.{option_copied};
ghost use Rattle.avm_states.specs.Schemas.{counts_after, is_within, keeps_kind};
ghost use Rattle.avm_items.specs.Asks.{answer_from};
ghost use Rattle.avm_items.specs.Environments.{known_to};
ghost use Rattle.avm_cpu.specs.Machine.{Machine};
ghost use Rattle.avm_ops.specs.Objects.{Does, Executes, IfStopped, context_of};
ghost use Rattle.avm_ops.specs.States.{global_delete, global_delete_of, global_put, global_put_over, local_delete, local_put, schema_in, value_length};
ghost use Rattle.avm_state_ops.specs.Families.{write_opcode};
ghost use Rattle.avm_state_ops.specs.Parts.{Answers, after_delete, after_put, known_row, schema_test};

use crate::fields::account;
use crate::item_reads::{application, global_counts, global_entry, local_state};
use avm_cpu::{Cpu, Flow};
use avm_items::{Env, Item, ItemValue};
use avm_ledger::Application;
use avm_ops::{Control, Executed, Op, Stop};
use avm_states::{EntryCounts, MAX_VALUE_BYTES, Schema, State};
use std::alloc::Global;
use teal_code::Instr;
use teal_table::Opcode;
use teal_value::{Fault, StateKey, Value};

/// An instruction that changes a state.
#[derive(Clone, Copy, Debug, PartialEq, Eq)]
pub enum StateWrite {
    /// Puts a value into an account's local state of this application.
    LocalPut,
    /// Puts a value into this application's global state.
    GlobalPut,
    /// Takes a key out of an account's local state of this application.
    LocalDelete,
    /// Takes a key out of this application's global state.
    GlobalDelete,
}

impl StateWrite {
    /// The instruction of an opcode.
    pub fn of(opcode: Opcode) -> Option<StateWrite>
        ensures some { IfSome result (λ row. write_opcode row ≡ opcode) }
        ensures all { (row : _) → write_opcode row ≡ opcode → result ≡ Some row }
    {
        match opcode {
            Opcode::AppLocalPut => Some(StateWrite::LocalPut),
            Opcode::AppGlobalPut => Some(StateWrite::GlobalPut),
            Opcode::AppLocalDel => Some(StateWrite::LocalDelete),
            Opcode::AppGlobalDel => Some(StateWrite::GlobalDelete),
            _ => None,
        }
    }

    fn opcode(self) -> Opcode
        ensures { result ≡ write_opcode self }
    {
        match self {
            StateWrite::LocalPut => Opcode::AppLocalPut,
            StateWrite::GlobalPut => Opcode::AppGlobalPut,
            StateWrite::LocalDelete => Opcode::AppLocalDel,
            StateWrite::GlobalDelete => Opcode::AppGlobalDel,
        }
    }

    #[tactic(auto, unfolding(avm_ops::specs::Effect::effect))]
    #[inline(always)]
    fn execute(&self, alloc: Global, _instr: &Instr, cpu: &mut Cpu, env: &mut Env) -> Executed
        ensures { Executes (write_opcode self.now)
            _instr.now.immediates cpu.old env.old result cpu.new env.new }
    {
        match self {
            StateWrite::LocalPut => local_put(alloc, cpu, env),
            StateWrite::GlobalPut => global_put(alloc, cpu, env),
            StateWrite::LocalDelete => local_delete(alloc, cpu, env),
            StateWrite::GlobalDelete => global_delete(alloc, cpu, env),
        }
    }
}

/// How many bytes a value has.
fn value_length(value: &Value) -> usize
    ensures { result ≡ value_length value.now }
{
    match value {
        Value::Uint(_) => 0,
        Value::Bytes(bytes) => bytes.len(),
    }
}

/// The limit on an application's global state.
fn global_limit(row: Option<&Application>) -> Schema
    ensures { result ≡ schema_in (λ row. row.global_schema) (option_copied row.entry) }
{
    match row {
        Some(row) => row.global_schema,
        None => Schema { uints: 0, bytes: 0 },
    }
}

/// The limit on each local state of an application.
fn local_limit(row: Option<&Application>) -> Schema
    ensures { result ≡ schema_in (λ row. row.local_schema) (option_copied row.entry) }
{
    match row {
        Some(row) => row.local_schema,
        None => Schema { uints: 0, bytes: 0 },
    }
}

/// Whether an entry keeps its kind where its value becomes another.
fn keeps_kind(old: Option<&Value>, new: &Value) -> bool
    ensures { result ≡ keeps_kind (option_copied old.entry) (Some new.now) }
{
    matches!(
        (old, new),
        (Some(Value::Uint(_)), Value::Uint(_)) | (Some(Value::Bytes(_)), Value::Bytes(_))
    )
}

/// The counts where an entry's value becomes another, if they keep to the limit.
fn counts_within(
    old: Option<&Value>,
    new: &Value,
    counts: EntryCounts,
    limit: Schema,
) -> Option<EntryCounts>
    ensures { MatchOption result (is_within (counts_after (option_copied old.entry) (Some new.now)
        counts) limit ≡ false) (λ after. (after ≡ counts_after (option_copied old.entry)
        (Some new.now) counts) × (is_within after limit ≡ true)) }
{
    counts.without(old).with_within(new, limit)
}

/// Whether a value may be put under a key of a state: it is of the old one's kind, or the counts then keep to the limit.
#[tactic(auto, using(avm_states::proofs::Counts::follow_puts))]
fn test_schema(state: &State, key: &StateKey, value: &Value, limit: Schema) -> Result<(), Fault>
    ensures { result ≡ schema_test state.now key.now value.now limit }
{
    // A state is in order, as its length says.
    let _count = state.len();
    let old = state.get(key);
    if keeps_kind(old, value) || counts_within(old, value, state.counts(), limit).is_some() {
        Ok(())
    } else {
        Err(Fault::Schema)
    }
}

/// The counts of the global state of the application that runs after a put, where they change.
fn counts_of_put(
    alloc: Global,
    env: &Env,
    old: Option<&Value>,
    new: &Value,
) -> Result<Option<EntryCounts>, Stop>
    ensures { (m : Machine) (key : List ℕ) → Answers (after_put (context_of m env.now) key new.now)
        result (answer_from (known_to env.now) (global_put_over (context_of m env.now) key new.now
        (option_copied old.entry) (keeps_kind (option_copied old.entry) (Some new.now)))) }
{
    if keeps_kind(old, new) {
        return Ok(None);
    }
    let counts = global_counts(alloc, env)?;
    let limit = global_limit(application(alloc, env, env.current())?);
    match counts_within(old, new, counts, limit) {
        Some(after) => Ok(Some(after)),
        None => Err(Stop::Fault(Fault::Schema)),
    }
}

/// The counts of the global state of the application that runs after a delete, where they change.
fn counts_of_delete(
    alloc: Global,
    env: &Env,
    old: Option<&Value>,
) -> Result<Option<EntryCounts>, Stop>
    ensures { (m : Machine) (key : List ℕ)
        → Answers (after_delete (context_of m env.now) key) result (answer_from (known_to env.now)
        (global_delete_of (context_of m env.now) key (option_copied old.entry))) }
{
    match old {
        Some(_) => Ok(Some(global_counts(alloc, env)?.without(old))),
        None => Ok(None),
    }
}

fn local_put(alloc: Global, cpu: &mut Cpu, env: &mut Env) -> Executed
    ensures row { Does result cpu.new env.new (known_row local_put cpu.old env.old) }
    ensures writes { env.new ≡ record env.old { writes = env.new.writes } }
    ensures unchanged { IfStopped result ((cpu.new ≡ cpu.old) × (env.new ≡ env.old)) }
{
    let (index, key, value) = cpu.uint_bytes_and_value()?;
    let who = account(env.call(), index)?;
    let current = env.current();
    let Some(state) = local_state(alloc, env, who, current)? else {
        return Err(Stop::Fault(Fault::NotOptedIn));
    };
    let Some(state_key) = StateKey::of(key) else {
        return Err(Stop::Fault(Fault::KeyLength));
    };
    if value_length(value) > MAX_VALUE_BYTES {
        return Err(Stop::Fault(Fault::TooLong));
    }
    let limit = local_limit(application(alloc, env, current)?);
    test_schema(state, &state_key, value, limit)?;
    let copy = value.clone()?;
    env.put_entry(who, current, state_key, copy)?;
    cpu.drop_top(3);
    Ok(Flow::Next)
}

fn global_put(alloc: Global, cpu: &mut Cpu, env: &mut Env) -> Executed
    ensures row { Does result cpu.new env.new (known_row global_put cpu.old env.old) }
    ensures writes { env.new ≡ record env.old { writes = env.new.writes } }
    ensures unchanged { IfStopped result ((cpu.new ≡ cpu.old) × (env.new ≡ env.old)) }
{
    let (key, value) = cpu.bytes_and_value()?;
    let Some(state_key) = StateKey::of(key) else {
        return Err(Stop::Fault(Fault::KeyLength));
    };
    if value_length(value) > MAX_VALUE_BYTES {
        return Err(Stop::Fault(Fault::TooLong));
    }
    let current = env.current();
    let old = global_entry(alloc, env, current, key)?;
    let after = counts_of_put(alloc, env, old, value)?;
    let copy = value.clone()?;
    env.write(Item::Key(current, state_key), ItemValue::Key(copy))?;
    if let Some(after) = after {
        env.write(Item::Counts(current), ItemValue::Counts(after))?;
    }
    cpu.drop_top(2);
    Ok(Flow::Next)
}

fn local_delete(alloc: Global, cpu: &mut Cpu, env: &mut Env) -> Executed
    ensures row { Does result cpu.new env.new (known_row local_delete cpu.old env.old) }
    ensures writes { env.new ≡ record env.old { writes = env.new.writes } }
    ensures unchanged { IfStopped result ((cpu.new ≡ cpu.old) × (env.new ≡ env.old)) }
{
    let (index, key) = cpu.uint_and_bytes()?;
    let who = account(env.call(), index)?;
    let current = env.current();
    let Some(state) = local_state(alloc, env, who, current)? else {
        return Err(Stop::Fault(Fault::NotOptedIn));
    };
    if state.value_of(key).is_some() {
        if let Some(state_key) = StateKey::of(key) {
            env.remove_entry(who, current, &state_key)?;
        }
    }
    cpu.drop_top(2);
    Ok(Flow::Next)
}

fn global_delete(alloc: Global, cpu: &mut Cpu, env: &mut Env) -> Executed
    ensures row { Does result cpu.new env.new (known_row global_delete cpu.old env.old) }
    ensures writes { env.new ≡ record env.old { writes = env.new.writes } }
    ensures unchanged { IfStopped result ((cpu.new ≡ cpu.old) × (env.new ≡ env.old)) }
{
    let key = cpu.one_bytes()?;
    let current = env.current();
    let old = global_entry(alloc, env, current, key)?;
    let counts = counts_of_delete(alloc, env, old)?;
    if let (Some(after), Some(state_key)) = (counts, StateKey::of(key)) {
        env.write(Item::Key(current, state_key), ItemValue::Absent)?;
        env.write(Item::Counts(current), ItemValue::Counts(after))?;
    }
    cpu.drop_top(1);
    Ok(Flow::Next)
}

impl Op for StateWrite {
    ghost opcode = { write_opcode };

    fn code(&self) -> u8 {
        self.opcode().code()
    }

    fn exec(&self, alloc: Global, instr: &Instr, cpu: &mut Cpu, env: &mut Env) -> Executed {
        self.execute(alloc, instr, cpu, env)
    }

    fn carry_out(&self, alloc: Global, instr: &Instr, cpu: &mut Cpu, env: &mut Env) -> Control {
        Control::of(alloc, self.execute(alloc, instr, cpu, env))
    }
}
