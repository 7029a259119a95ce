//! What is known of the items that instructions ask for.

ghost use Rattle.std.specs.Prelude.{◌≡◌, Some, MatchResult};
ghost use Rattle.std.specs.Option.{option_copied};
ghost use Rattle.avm_items.specs.Asks.{answer_from};
ghost use Rattle.avm_items.specs.Environments.{known_to};
ghost use Rattle.avm_ops.specs.States.{application, global_counts, global_entry, local_state};
ghost use Rattle.avm_state_ops.specs.Parts.{Answers, StopsFor};

use avm_items::{Env, Item, ItemValue};
use avm_ledger::Application;
use avm_ops::Stop;
use avm_states::{EntryCounts, State};
use std::alloc::Global;
use teal_value::{Address, StateKey, Value};

/// The value of an item that is known.
#[inline(always)]
pub(crate) fn known<'a>(alloc: Global, env: &'a Env, item: &Item) -> Result<&'a ItemValue, Stop>
    ensures { MatchResult result (λ v. known_to env.now item.now ≡ Some v.now)
        (StopsFor (known_to env.now item.now) item.now) }
{
    match env.value(item) {
        Some(value) => Ok(value),
        None => match Box::new(alloc, item.copied()) {
            Ok(item) => Err(Stop::Need(item)),
            Err(_refused) => Err(Stop::Memory),
        },
    }
}

/// An application, if it is there.
pub(crate) fn application<'a>(
    alloc: Global,
    env: &'a Env,
    id: u64,
) -> Result<Option<&'a Application>, Stop>
    ensures { Answers option_copied result (answer_from (known_to env.now) (application id)) }
{
    match known(alloc, env, &Item::App(id))? {
        ItemValue::App(row) => Ok(Some(row.get())),
        _ => Ok(None),
    }
}

/// An account's local state of an application, if it is opted in.
pub(crate) fn local_state<'a>(
    alloc: Global,
    env: &'a Env,
    who: Address,
    id: u64,
) -> Result<Option<&'a State>, Stop>
    ensures { Answers option_copied result (answer_from (known_to env.now) (local_state who id)) }
{
    match known(alloc, env, &Item::Local(who, id))? {
        ItemValue::Local(state) => Ok(Some(state.get())),
        _ => Ok(None),
    }
}

/// The value of a global key. No key has more than 64 bytes, so none is asked for under a longer one.
pub(crate) fn global_entry<'a>(
    alloc: Global,
    env: &'a Env,
    id: u64,
    key: &[u8],
) -> Result<Option<&'a Value>, Stop>
    ensures { Answers option_copied result
        (answer_from (known_to env.now) (global_entry id key.now)) }
{
    let Some(key) = StateKey::of(key) else {
        return Ok(None);
    };
    match known(alloc, env, &Item::Key(id, key))? {
        ItemValue::Key(value) => Ok(Some(value)),
        _ => Ok(None),
    }
}

/// The counts of the global state of the application that runs.
pub(crate) fn global_counts(alloc: Global, env: &Env) -> Result<EntryCounts, Stop>
    ensures { Answers (λ n. n) result
        (answer_from (known_to env.now) (global_counts env.now.current)) }
{
    match known(alloc, env, &Item::Counts(env.current()))? {
        ItemValue::Counts(counts) => Ok(*counts),
        _ => Ok(EntryCounts::none()),
    }
}
