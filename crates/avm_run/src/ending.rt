//! What comes after a call's program.

ghost use Rattle.std.specs.Prelude.{◌≡◌, ◌∷◌, [], IfOk};
ghost use Rattle.avm_call.specs.Calls.{cleared, completed, deleted, ending, sender_item};

use avm_call::{Call, Cause, Ended, Outcome};
use avm_items::{Completion, Item, ItemMap, ItemValue};
use avm_ledger::Application;
use std::alloc::{AllocError, Global};

/// How a call ends, and the items that it writes.
#[derive(Drop)]
pub(crate) struct Ending {
    pub outcome: Outcome,
    pub writes: ItemMap,
}

/// What an approved call writes beside what its program wrote.
fn completed(
    alloc: Global,
    call: &Call,
    id: u64,
    row: &Application,
    writes: ItemMap,
) -> Result<ItemMap, AllocError>
    ensures { IfOk result (λ after. after ≡ completed call.now id row.now writes) }
{
    let fields = call.fields();
    let mut writes = writes;
    match fields.completion {
        Completion::NoOp | Completion::OptIn => {}
        Completion::CloseOut | Completion::ClearState => {
            writes.insert(Item::Local(fields.sender, id), ItemValue::Absent)?;
        }
        Completion::UpdateApplication => {
            let row = call.updated(alloc, row)?;
            writes.insert(Item::App(id), ItemValue::App(row))?;
        }
        Completion::DeleteApplication => {
            writes.remove_global_state(id);
            writes.insert(Item::App(id), ItemValue::Absent)?;
        }
    }
    Ok(writes)
}

/// The local state goes, whatever the program said.
pub(crate) fn cleared(
    alloc: Global,
    call: &Call,
    id: u64,
    cause: Cause,
) -> Result<Ending, AllocError>
    ensures { IfOk result (λ e. (e.outcome, e.writes) ≡ cleared call.now id cause) }
{
    let mut writes = ItemMap::new(alloc);
    writes.insert(Item::Local(call.fields().sender, id), ItemValue::Absent)?;
    Ok(Ending {
        outcome: Outcome::ClearedAnyway(cause),
        writes,
    })
}

/// An outcome that changes nothing.
fn without_writes(alloc: Global, outcome: Outcome) -> Ending
    ensures same { result.outcome ≡ outcome }
    ensures none { result.writes ≡ [] }
{
    Ending {
        outcome,
        writes: ItemMap::new(alloc),
    }
}

/// How a call ends whose program ended so, having written these items.
pub(crate) fn end_call(
    alloc: Global,
    call: &Call,
    id: u64,
    row: &Application,
    writes: ItemMap,
    ended: Ended,
) -> Result<Ending, AllocError>
    ensures { IfOk result
        (λ e. (e.outcome, e.writes) ≡ ending call.now id row.now (writes, ended)) }
{
    let clears = call.fields().completion == Completion::ClearState;
    match ended {
        Ended::Approved => Ok(Ending {
            outcome: Outcome::Approved,
            writes: completed(alloc, call, id, row, writes)?,
        }),
        Ended::Rejected if clears => cleared(alloc, call, id, Cause::Rejected),
        Ended::Rejected => Ok(without_writes(alloc, Outcome::Rejected)),
        Ended::Faulted(fault, place) if clears => {
            cleared(alloc, call, id, Cause::Faulted(fault, place))
        }
        Ended::Faulted(fault, place) => Ok(without_writes(alloc, Outcome::Faulted(fault, place))),
    }
}
