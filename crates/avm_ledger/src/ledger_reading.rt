//! Ledgers read from bytes.

ghost use Rattle.std.specs.Prelude.{◌≡◌, ◌+◌, List, None, ℕ};
ghost use Rattle.std.specs.Option.{option_copied};
ghost use Rattle.teal_value.specs.Answer.{Gives};
ghost use Rattle.avm_ledger.specs.LedgerReader.{account_at, applications_at, id_between, is_no_lower, ledger_at, limited_schema_at, local_id_at, local_room, local_states_at, next_id_at, program_at, rises_from_pair, row_at, schemas_at, stored_application_at, stored_in};

use crate::application::{Application, StoredApplication};
use crate::fields::Fields;
use crate::ledger_fault::{LedgerError, LedgerFault};
use crate::shared_application::SharedApplication;
use crate::sorted_map::map_of;
use crate::state_reading::{shared_state_of, state_of};
use crate::stored_program::StoredProgram;
use avm_states::{MAX_GLOBAL_ENTRIES, MAX_LOCAL_ENTRIES, Schema, SharedState};
use std::alloc::Global;
use std::cmp::Ordering;
use std::collections::BTreeMap;
use teal_check::check;
use teal_value::{Address, Failure};

/// The parts of a ledger, before their rules are kept in one type.
#[derive(Debug, Drop)]
pub(crate) struct Parts {
    pub next_id: u64,
    pub applications: BTreeMap<u64, StoredApplication>,
    pub local_states: BTreeMap<(Address, u64), SharedState>,
}

/// The parts of the ledger that the bytes are.
pub(crate) fn parts_of(alloc: Global, bytes: &[u8]) -> Result<Parts, LedgerError>
    ensures { Gives (λ l. record {
      next_id = l.next_id;
      applications = l.applications.entries;
      local_states = l.local_states.entries;
    }) result (ledger_at bytes.now) }
{
    let (next_id, rest) = next_id_of(Fields::new(bytes))?;
    let (count, rest) = rest.u32(LedgerFault::Truncated)?;
    let (applications, rest) = applications_of(alloc, count, next_id, rest)?;
    let applications = map_of(alloc, applications)?;
    let (count, rest) = rest.u32(LedgerFault::Truncated)?;
    let (local_states, rest) = local_states_of(alloc, count, next_id, &applications, rest)?;
    if !rest.is_empty() {
        return Err(Failure::Fault(LedgerFault::Rest));
    }
    let local_states = map_of(alloc, local_states)?;
    Ok(Parts {
        next_id,
        applications,
        local_states,
    })
}

/// The id that the next creation takes, which is not 0.
pub fn next_id_of(fields: Fields<'_>) -> Result<(u64, Fields<'_>), LedgerError>
    ensures { Gives (λ x. x) result (next_id_at fields.entry) }
{
    let (next_id, rest) = fields.u64(LedgerFault::Truncated)?;
    if next_id < 1 {
        return Err(Failure::Fault(LedgerFault::Malformed));
    }
    Ok((next_id, rest))
}

/// So many applications by rising id, each below the next id. Programs are shared with the application before where they
/// are the same, since applications of one kind mostly stand one behind another.
fn applications_of(
    alloc: Global,
    count: u32,
    next_id: u64,
    fields: Fields<'_>,
) -> Result<(Vec<(u64, StoredApplication)>, Fields<'_>), LedgerError>
    ensures { Gives (λ x. (x.0.items, x.1)) result
        (applications_at count 0 next_id fields.entry) }
{
    let mut applications = Vec::new(alloc);
    let mut before = 0;
    let mut rest = fields;
    for _ in 0..count {
        let (id, next) = id_of(before, next_id, rest)?;
        let last = applications
            .last()
            .map(|entry: &(u64, StoredApplication)| entry.1.row.get());
        let (application, next) = application_of(alloc, last, next)?;
        applications.push((id, application))?;
        before = id;
        rest = next;
    }
    Ok((applications, rest))
}

/// An id above the one before and below the next id.
fn id_of(before: u64, next_id: u64, fields: Fields<'_>) -> Result<(u64, Fields<'_>), LedgerError>
    ensures { Gives (λ x. x) result (id_between before next_id fields.entry) }
{
    let (id, rest) = fields.u64(LedgerFault::Truncated)?;
    if id <= before || id >= next_id {
        return Err(Failure::Fault(LedgerFault::Malformed));
    }
    Ok((id, rest))
}

/// An application that stands behind the last one, if any.
fn application_of<'a>(
    alloc: Global,
    last: Option<&Application>,
    fields: Fields<'a>,
) -> Result<(StoredApplication, Fields<'a>), LedgerError>
    ensures { Gives (λ x. x) result (stored_application_at fields.entry) }
{
    let (row, rest) = row_of(alloc, last, fields)?;
    let schema = row.global_schema;
    let (state, rest) = state_of(alloc, entries_within(schema), schema, rest)?;
    let row = SharedApplication::new(alloc, row)?;
    Ok((StoredApplication { row, state }, rest))
}

/// An application without its global state, which stands behind the last one, if any.
pub fn row_of<'a>(
    alloc: Global,
    last: Option<&Application>,
    fields: Fields<'a>,
) -> Result<(Application, Fields<'a>), LedgerError>
    ensures { Gives (λ x. x) result (row_at fields.entry) }
{
    let (creator, rest) = fields.address(LedgerFault::Truncated)?;
    let (approval, rest) = program_of(alloc, last.map(|last| &last.approval), rest)?;
    let (clear, rest) = program_of(alloc, last.map(|last| &last.clear), rest)?;
    let ((global_schema, local_schema), rest) = schemas_of(rest)?;
    let row = Application {
        creator,
        approval,
        clear,
        global_schema,
        local_schema,
    };
    Ok((row, rest))
}

/// The schemas of an application's global state and of its local states.
#[inline(always)]
fn schemas_of(fields: Fields<'_>) -> Result<((Schema, Schema), Fields<'_>), LedgerError>
    ensures { Gives (λ x. x) result (schemas_at fields.entry) }
{
    let (global_schema, rest) = schema_of(MAX_GLOBAL_ENTRIES, fields)?;
    let (local_schema, rest) = schema_of(MAX_LOCAL_ENTRIES, rest)?;
    Ok(((global_schema, local_schema), rest))
}

/// A program, checked; or that of the last application, shared, where it has the same bytes.
fn program_of<'a>(
    alloc: Global,
    last: Option<&StoredProgram>,
    fields: Fields<'a>,
) -> Result<(StoredProgram, Fields<'a>), LedgerError>
    ensures { Gives (λ x. x) result (program_at fields.entry) }
{
    let (bytes, rest) = fields.string(LedgerFault::Truncated)?;
    if let Some(last) = last {
        if last.as_slice() == bytes {
            return Ok((last.clone()?, rest));
        }
    }
    match check(alloc, bytes) {
        Ok(program) => Ok((StoredProgram::new(program), rest)),
        Err(Failure::Memory) => Err(Failure::Memory),
        Err(Failure::Fault(_)) => Err(Failure::Fault(LedgerFault::Malformed)),
    }
}

/// A schema that allows at most so many entries.
pub fn schema_of(most: u16, fields: Fields<'_>) -> Result<(Schema, Fields<'_>), LedgerError>
    ensures { Gives (λ x. x) result (limited_schema_at most fields.entry) }
{
    let (schema, rest) = fields.schema(LedgerFault::Truncated)?;
    if entries_within(schema) > most {
        return Err(Failure::Fault(LedgerFault::Malformed));
    }
    Ok((schema, rest))
}

/// How many entries a schema allows in all.
fn entries_within(schema: Schema) -> u16
    ensures { result ≡ schema.uints + schema.bytes }
{
    u16::from(schema.uints) + u16::from(schema.bytes)
}

/// So many local states by rising account and application.
fn local_states_of<'a>(
    alloc: Global,
    count: u32,
    next_id: u64,
    applications: &BTreeMap<u64, StoredApplication>,
    fields: Fields<'a>,
) -> Result<(Vec<((Address, u64), SharedState)>, Fields<'a>), LedgerError>
    ensures { Gives (λ x. (x.0.items, x.1)) result
        (local_states_at count None next_id applications.now.entries fields.entry) }
{
    let mut local_states = Vec::new(alloc);
    let mut before = None;
    let mut rest = fields;
    for _ in 0..count {
        let (who, next) = account_of(before, rest)?;
        let (id, next) = local_id_of(before, next_id, who, next)?;
        let (most, kinds) = room_of(applications.get(&id));
        let (state, next) = shared_state_of(alloc, most, kinds, next)?;
        local_states.push(((who, id), state))?;
        before = Some((who, id));
        rest = next;
    }
    Ok((local_states, rest))
}

/// An account that is not below the one before.
fn account_of(
    before: Option<(Address, u64)>,
    fields: Fields<'_>,
) -> Result<(Address, Fields<'_>), LedgerError>
    ensures { Gives (λ x. x) result (account_at before fields.entry) }
{
    let (who, rest) = fields.address(LedgerFault::Truncated)?;
    if !is_no_lower(before, who) {
        return Err(Failure::Fault(LedgerFault::Malformed));
    }
    Ok((who, rest))
}

fn is_no_lower(before: Option<(Address, u64)>, who: Address) -> bool
    ensures { result ≡ is_no_lower before who }
{
    match before {
        None => true,
        Some((before, _)) => before.cmp(&who) != Ordering::Greater,
    }
}

/// An id that exists, with its account above those before.
fn local_id_of(
    before: Option<(Address, u64)>,
    next_id: u64,
    who: Address,
    fields: Fields<'_>,
) -> Result<(u64, Fields<'_>), LedgerError>
    ensures { Gives (λ x. x) result (local_id_at before next_id who fields.entry) }
{
    let (id, rest) = id_of(0, next_id, fields)?;
    if !rises_from(before, who, id) {
        return Err(Failure::Fault(LedgerFault::Malformed));
    }
    Ok((id, rest))
}

fn rises_from(before: Option<(Address, u64)>, who: Address, id: u64) -> bool
    ensures { result ≡ rises_from_pair before (who, id) }
{
    match before {
        None => true,
        Some(before) => before.cmp(&(who, id)) == Ordering::Less,
    }
}

/// How many entries a local state may have in all, and of each kind.
fn room_of(application: Option<&StoredApplication>) -> (u16, Schema)
    ensures { record { entries = result.0; kinds = result.1 }
        ≡ local_room (option_copied application.entry) }
{
    match application {
        Some(application) => {
            let schema = application.row.get().local_schema;
            (entries_within(schema), schema)
        }
        None => {
            let kinds = Schema {
                uints: MAX_LOCAL_ENTRIES as u8,
                bytes: MAX_LOCAL_ENTRIES as u8,
            };
            (MAX_LOCAL_ENTRIES, kinds)
        }
    }
}
