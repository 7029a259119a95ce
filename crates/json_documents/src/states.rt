//! States: arrays of keys with their values.

ghost use Rattle.std.specs.Prelude.{◌≡◌, [], None};
ghost use Rattle.teal_value.specs.Answer.{Gives};
ghost use Rattle.avm_ledger.specs.LedgerReader.{local_room, room_of_schema};
ghost use Rattle.json.specs.Value.{value_view};
ghost use Rattle.json_documents.specs.Members.{optional};
ghost use Rattle.json_documents.specs.States.{kind_of, new_entry, short_key, short_value, state, value_of_kind, within};

use crate::arrays::{Gather, each};
use crate::document_fault::DocumentFault;
use crate::entries::Entries;
use crate::fault::{Fault, FieldError, in_member};
use crate::members::{Form, optional, reject_unknown, required};
use crate::plain::{Bytes, Uint};
use crate::tables::{KEY_VALUE, VALUE};
use avm_states::{MAX_LOCAL_ENTRIES, MAX_VALUE_BYTES, Schema, State};
use json::Value;
use std::alloc::Global;
use std::marker::Model;
use teal_value::{ByteString, StateKey, Value as StateValue};

/// Whether a value is a byte string, by the number of its type.
#[derive(Clone, Copy)]
struct KindForm;

impl Form for KindForm {
    type Read = bool;

    ghost use Rattle.json_documents.specs.States.{kind};

    ghost meaning = { λ _. kind };

    fn read(&self, alloc: Global, value: &Value<'_>) -> Result<bool, FieldError> {
        let number = Uint.read(alloc, value)?;
        kind_of(alloc, number)
    }
}

fn kind_of(alloc: Global, number: u64) -> Result<bool, FieldError>
    ensures { Gives (λ b. b) result (kind_of number) }
{
    match number {
        1 => Ok(true),
        2 => Ok(false),
        _ => Err(Fault::here(alloc, DocumentFault::ValueType)),
    }
}

/// The value of a key.
#[derive(Clone, Copy)]
struct ValueForm;

impl Form for ValueForm {
    type Read = StateValue;

    ghost use Rattle.json_documents.specs.States.{value};

    ghost meaning = { λ _. value };

    fn read(&self, alloc: Global, value: &Value<'_>) -> Result<StateValue, FieldError> {
        reject_unknown(alloc, &VALUE, value)?;
        let is_bytes = required(alloc, &KindForm, value, "type")?;
        let bytes = optional(alloc, &Bytes, ByteString::new(), value, "bytes")?;
        let number = optional(alloc, &Uint, 0, value, "uint")?;
        value_of_kind(alloc, is_bytes, bytes, number)
    }
}

fn value_of_kind(
    alloc: Global,
    is_bytes: bool,
    bytes: ByteString,
    number: u64,
) -> Result<StateValue, FieldError>
    ensures { Gives (λ v. v) result (value_of_kind is_bytes bytes number) }
{
    if is_bytes {
        if number == 0 {
            return short_value(alloc, bytes);
        }
    } else if bytes.len() == 0 {
        return Ok(StateValue::Uint(number));
    }
    Err(Fault::here(alloc, DocumentFault::OtherKind))
}

fn short_value(alloc: Global, bytes: ByteString) -> Result<StateValue, FieldError>
    ensures { Gives (λ v. v) result (short_value bytes) }
{
    if bytes.len() <= MAX_VALUE_BYTES {
        Ok(StateValue::Bytes(bytes))
    } else {
        Err(in_member(Fault::here(alloc, DocumentFault::TooLong), "bytes"))
    }
}

/// A key.
#[derive(Clone, Copy)]
struct KeyForm;

impl Form for KeyForm {
    type Read = StateKey;

    ghost use Rattle.json_documents.specs.States.{key};

    ghost meaning = { λ _. key };

    fn read(&self, alloc: Global, value: &Value<'_>) -> Result<StateKey, FieldError> {
        let bytes = Bytes.read(alloc, value)?;
        short_key(alloc, bytes.as_slice())
    }
}

fn short_key(alloc: Global, bytes: &[u8]) -> Result<StateKey, FieldError>
    ensures { Gives (λ key. key) result (short_key bytes.now) }
{
    match StateKey::of(bytes) {
        Some(key) => Ok(key),
        None => Err(Fault::here(alloc, DocumentFault::KeyLength)),
    }
}

/// Keys with their values, no key twice.
#[derive(Clone, Copy)]
struct KeyValues;

impl Gather for KeyValues {
    type Gathered = Entries;

    ghost use Rattle.json_documents.specs.States.{with_key_value};

    ghost adding = { λ _. with_key_value };

    fn add(
        &self,
        alloc: Global,
        so_far: Entries,
        element: &Value<'_>,
    ) -> Result<Entries, FieldError> {
        reject_unknown(alloc, &KEY_VALUE, element)?;
        let key = required(alloc, &KeyForm, element, "key")?;
        let value = required(alloc, &ValueForm, element, "value")?;
        new_entry(alloc, so_far, key, value)
    }
}

fn new_entry(
    alloc: Global,
    entries: Entries,
    key: StateKey,
    value: StateValue,
) -> Result<Entries, FieldError>
    ensures { Gives (λ e. e) result (new_entry entries key value) }
{
    if entries.has(&key) {
        return Err(in_member(Fault::here(alloc, DocumentFault::Twice), "key"));
    }
    Ok(entries.with(key, value)?)
}

/// A state of at most so many entries, and of each kind.
#[derive(Clone, Copy)]
pub(crate) struct StateForm {
    most: u16,
    kinds: Schema,
}

impl Model for StateForm {
    ghost use Rattle.avm_ledger.specs.LedgerReader.{Room};

    ghost Value = { Room };

    ghost view = { λ f. record { entries = f.most; kinds = f.kinds } };

    ghost inverse = { λ r. record { most = r.entries; kinds = r.kinds } };
}

impl StateForm {
    /// Under a schema.
    pub fn under(schema: Schema) -> StateForm
        ensures { result ≡ room_of_schema schema }
    {
        StateForm {
            most: u16::from(schema.uints) + u16::from(schema.bytes),
            kinds: schema,
        }
    }

    /// Of an account, where the application is gone: as many entries of any kind as a local schema may allow.
    pub fn of_deleted() -> StateForm
        ensures { result ≡ local_room None }
    {
        StateForm {
            most: MAX_LOCAL_ENTRIES,
            kinds: Schema {
                uints: MAX_LOCAL_ENTRIES as u8,
                bytes: MAX_LOCAL_ENTRIES as u8,
            },
        }
    }
}

impl Form for StateForm {
    type Read = State;

    ghost use Rattle.json_documents.specs.States.{state};

    ghost meaning = { state };

    #[tactic(auto, unfolding(crate::specs::States::state))]
    fn read(&self, alloc: Global, value: &Value<'_>) -> Result<State, FieldError> {
        let entries = each(alloc, &KeyValues, Entries::new(alloc), value)?;
        within(alloc, *self, entries)
    }
}

/// A state within this room, which has no entries where it is missing.
pub(crate) fn optional_state(
    alloc: Global,
    form: StateForm,
    object: &Value<'_>,
    name: &'static str,
) -> Result<State, FieldError>
    ensures { Gives (λ s. s) result (optional name.now (state form) [] (value_view object.now)) }
{
    optional(alloc, &form, State::new(alloc), object, name)
}

/// The entries as a state, where there is room for them.
fn within(alloc: Global, form: StateForm, entries: Entries) -> Result<State, FieldError>
    ensures { Gives (λ s. s) result (within form entries) }
{
    if entries.len() > usize::from(form.most) {
        return Err(Fault::here(alloc, DocumentFault::Schema));
    }
    let state = entries.into_state(alloc)?;
    let counts = state.counts();
    let kinds = form.kinds;
    if counts.uints() <= usize::from(kinds.uints) && counts.bytes() <= usize::from(kinds.bytes) {
        Ok(state)
    } else {
        Err(Fault::here(alloc, DocumentFault::Schema))
    }
}
