//! The tests before a call's program, and what is prepared for it.

ghost use Rattle.std.specs.Prelude.{◌≡◌, ◌<◌, ◌-◌, ◌^◌, [], true, Err, IfOk};
ghost use Rattle.avm_ledger.specs.declared.header.Header.{Header};
ghost use Rattle.avm_items.specs.declared.item.Item.TheVariants as item;
ghost use Rattle.avm_items.specs.Acts.{reads};
ghost use Rattle.avm_items.specs.Asks.{answer_from};
ghost use Rattle.avm_items.specs.CallFields.{creates};
ghost use Rattle.avm_items.specs.Items.{application_in, next_id_in, value_in};
ghost use Rattle.avm_call.specs.Calls.{admitted, call_result, called_target, new_application, is_opted_in, new_target, opt_in_test, prepared, sender_item, target};
ghost use Rattle.avm_run.specs.Tests.{HasRoom, IsAdmitted, Tests};

use avm_call::{Call, Why};
use avm_items::{CallData, Completion, Item, ItemMap, ItemValue};
use avm_ledger::SharedApplication;
use avm_states::{EntryCounts, SharedState, State};
use std::alloc::{AllocError, Global};

/// Why the tests before a program give nothing.
#[derive(Drop)]
pub(crate) enum AdmissionStop {
    /// The call is refused.
    Refused(Why),
    /// They ask for an item that was not supplied.
    Need(Item),
    /// Memory was refused.
    Memory,
}

impl From<AllocError> for AdmissionStop {
    ghost use Rattle.avm_run.specs.declared.admission.AdmissionStop.TheVariants as admission_stop;

    ghost from_gives = { λ _ h. h ≡ admission_stop.Memory };

    fn from(_error: AllocError) -> AdmissionStop {
        AdmissionStop::Memory
    }
}

/// The application of a call that passed the tests: its id, and its row where it stands.
#[derive(Drop)]
pub(crate) struct Admitted {
    pub id: u64,
    pub row: Option<SharedApplication>,
}

/// The item that a call asks for first.
pub(crate) fn first_item(call: &Call) -> Item
    ensures { (header : Header)
        → answer_from (value_in []) (call_result call.now header) ≡ Err result }
{
    match call.fields().application {
        0 => Item::NextApp,
        id => Item::App(id),
    }
}

/// The id of the next application.
fn next_id(items: &ItemMap) -> Result<u64, AdmissionStop>
    ensures { Tests result (answer_from (value_in items.now) (reads next_id_in item.NextApp)) }
{
    match items.get(&Item::NextApp) {
        Some(ItemValue::NextApp(id)) => Ok(*id),
        Some(_) => Ok(0),
        None => Err(AdmissionStop::Need(Item::NextApp)),
    }
}

/// An application without its state, where it stands.
fn application(items: &ItemMap, id: u64) -> Result<Option<SharedApplication>, AdmissionStop>
    ensures { Tests result (answer_from (value_in items.now) (reads application_in (item.App id))) }
{
    let app = Item::App(id);
    match items.get(&app) {
        Some(ItemValue::App(row)) => Ok(Some(row.clone()?)),
        Some(_) => Ok(None),
        None => Err(AdmissionStop::Need(app)),
    }
}

/// The sender's local state.
fn sender_item(call: &CallData, id: u64) -> Item
    ensures { result ≡ sender_item call.now id }
{
    Item::Local(call.sender, id)
}

fn is_opted_in(call: &CallData, items: &ItemMap, id: u64) -> Result<bool, AdmissionStop>
    ensures { Tests result (answer_from (value_in items.now) (is_opted_in call.now id)) }
{
    let local = sender_item(call, id);
    match items.get(&local) {
        Some(ItemValue::Local(_)) => Ok(true),
        Some(_) => Ok(false),
        None => Err(AdmissionStop::Need(local)),
    }
}

/// The application that a creation makes.
fn new_target(alloc: Global, call: &Call, items: &ItemMap) -> Result<Admitted, AdmissionStop>
    requires { creates call.now ≡ true }
    ensures tests { IsAdmitted result (answer_from (value_in items.now) (new_target call.now)) }
    ensures room { IfOk result (λ t. t.id < 2 ^ 64 - 1) }
{
    let id = next_id(items)?;
    if id == u64::MAX {
        return Err(AdmissionStop::Refused(Why::IdsEnd));
    }
    let row = call.created(alloc)?;
    Ok(Admitted { id, row: Some(row) })
}

/// The application of any other call.
fn called_target(call: &Call, items: &ItemMap) -> Result<Admitted, AdmissionStop>
    ensures { IsAdmitted result (answer_from (value_in items.now) (called_target call.now)) }
{
    let fields = call.fields();
    let row = application(items, fields.application)?;
    if row.is_none() && fields.completion != Completion::ClearState {
        return Err(AdmissionStop::Refused(Why::NoApp));
    }
    Ok(Admitted {
        id: fields.application,
        row,
    })
}

/// Whether the sender may opt in, close out or clear.
fn test_opt_in(call: &CallData, items: &ItemMap, id: u64) -> Result<(), AdmissionStop>
    ensures { Tests result (answer_from (value_in items.now) (opt_in_test call.now id)) }
{
    match call.completion {
        Completion::OptIn => {
            if is_opted_in(call, items, id)? {
                return Err(AdmissionStop::Refused(Why::AlreadyIn));
            }
        }
        Completion::CloseOut | Completion::ClearState => {
            if !is_opted_in(call, items, id)? {
                return Err(AdmissionStop::Refused(Why::NotIn));
            }
        }
        _ => {}
    }
    Ok(())
}

/// The application of a call.
fn target_of(alloc: Global, call: &Call, items: &ItemMap) -> Result<Admitted, AdmissionStop>
    ensures tests { IsAdmitted result (answer_from (value_in items.now) (target call.now)) }
    ensures room { IfOk result (λ t. HasRoom call.now t.id) }
{
    if call.fields().application == 0 {
        new_target(alloc, call, items)
    } else {
        called_target(call, items)
    }
}

/// The tests before a call's program.
pub(crate) fn admit(alloc: Global, call: &Call, items: &ItemMap) -> Result<Admitted, AdmissionStop>
    ensures tests { IsAdmitted result (answer_from (value_in items.now) (admitted call.now)) }
    ensures room { IfOk result (λ t. HasRoom call.now t.id) }
{
    let admitted = target_of(alloc, call, items)?;
    match test_opt_in(call.fields(), items, admitted.id) {
        Ok(()) => Ok(admitted),
        Err(halt) => Err(halt),
    }
}

/// What a creation writes before its program runs: the next id, the application, and that its global state is empty.
fn new_application(alloc: Global, call: &Call, id: u64) -> Result<ItemMap, AllocError>
    requires new { creates call.now ≡ true }
    requires room { id < 2 ^ 64 - 1 }
    ensures { IfOk result (λ writes. writes ≡ new_application call.now id) }
{
    let row = call.created(alloc)?;
    let mut writes = ItemMap::new(alloc);
    writes.insert(Item::NextApp, ItemValue::NextApp(id + 1))?;
    writes.insert(Item::App(id), ItemValue::App(row))?;
    writes.insert(Item::Counts(id), ItemValue::Counts(EntryCounts::none()))?;
    Ok(writes)
}

/// What is written before the program runs, mostly nothing, which then has the room that is handed over.
pub(crate) fn prepared(
    alloc: Global,
    call: &Call,
    id: u64,
    room: ItemMap,
) -> Result<ItemMap, AllocError>
    requires id { HasRoom call.now id }
    requires none { room ≡ [] }
    ensures { IfOk result (λ writes. writes ≡ prepared call.now id) }
{
    let fields = call.fields();
    let mut writes = if fields.application == 0 {
        new_application(alloc, call, id)?
    } else {
        room
    };
    if fields.completion == Completion::OptIn {
        let state = SharedState::new(alloc, State::new(alloc))?;
        writes.insert(sender_item(fields, id), ItemValue::Local(state))?;
    }
    Ok(writes)
}
