//! Values of items.

ghost use Rattle.std.specs.Prelude.{◌≡◌, ◌↔◌, IfErr, IfOk, IsTrue};
ghost use Rattle.avm_states.specs.Entries.{with_entry, without_entry};
ghost use Rattle.avm_items.specs.Items.{local_changed};
ghost use Rattle.avm_items.specs.SameValues.{is_same_application, is_same_schema, is_same_value};

use avm_ledger::{Application, SharedApplication};
use avm_states::{EntryCounts, Schema, SharedState};
use std::alloc::AllocError;
use teal_value::{StateKey, Value};

/// The value of an item. A value of another kind than its item's says as little as `Absent`.
#[derive(Debug, Drop)]
pub enum ItemValue {
    /// The ledger has no such application, key or local state.
    Absent,
    NextApp(u64),
    App(SharedApplication),
    Counts(EntryCounts),
    Key(Value),
    Local(SharedState),
}

/// Whether two schemas are the same.
pub(crate) fn is_same_schema(schema: Schema, other: Schema) -> bool
    ensures { result ≡ is_same_schema schema other }
{
    schema.uints == other.uints && schema.bytes == other.bytes
}

/// Whether two states have as many entries of each kind.
pub(crate) fn is_same_counts(counts: EntryCounts, other: EntryCounts) -> bool
    ensures { result ≡ is_same_schema counts other }
{
    counts.uints() == other.uints() && counts.bytes() == other.bytes()
}

/// Whether two applications are the same.
pub(crate) fn is_same_application(app: &Application, other: &Application) -> bool
    ensures { result ≡ is_same_application app.now other.now }
{
    app.creator.0 == other.creator.0
        && app.approval.as_slice() == other.approval.as_slice()
        && app.clear.as_slice() == other.clear.as_slice()
        && is_same_schema(app.global_schema, other.global_schema)
        && is_same_schema(app.local_schema, other.local_schema)
}

impl ItemValue {
    /// A copy of the value, which shares an application or a local state.
    pub fn clone(&self) -> Result<ItemValue, AllocError>
        ensures { IfOk result (λ copy. copy ≡ self.now) }
    {
        match self {
            ItemValue::Absent => Ok(ItemValue::Absent),
            ItemValue::NextApp(id) => Ok(ItemValue::NextApp(*id)),
            ItemValue::App(row) => Ok(ItemValue::App(row.clone()?)),
            ItemValue::Counts(counts) => Ok(ItemValue::Counts(*counts)),
            ItemValue::Key(value) => Ok(ItemValue::Key(value.clone()?)),
            ItemValue::Local(state) => Ok(ItemValue::Local(state.clone()?)),
        }
    }

    /// Whether two values are the same. It takes no memory.
    pub fn is_same(&self, other: &ItemValue) -> bool
        ensures test { result ≡ is_same_value self.now other.now }
        ensures same { IsTrue result ↔ (self.now ≡ other.now) }
    {
        match (self, other) {
            (ItemValue::Absent, ItemValue::Absent) => true,
            (ItemValue::NextApp(id), ItemValue::NextApp(other)) => id == other,
            (ItemValue::App(row), ItemValue::App(other)) => is_same_application(
                row.get(),
                other.get(),
            ),
            (ItemValue::Counts(counts), ItemValue::Counts(other)) => is_same_counts(
                *counts, *other,
            ),
            (ItemValue::Key(value), ItemValue::Key(other)) => value == other,
            (ItemValue::Local(state), ItemValue::Local(other)) => state == other,
            _ => false,
        }
    }

    /// Puts an entry into a local state, as [`SharedState::insert`]. Any other value stays.
    pub(crate) fn put_entry(&mut self, key: StateKey, value: Value) -> Result<(), AllocError>
        ensures ok { IfOk result
            (λ _. self.new ≡ local_changed (λ state. with_entry state key value) self.old) }
        ensures memory { IfErr result (λ _. self.new ≡ self.old) }
    {
        if let ItemValue::Local(state) = self {
            state.insert(key, value)?;
        }
        Ok(())
    }

    /// Takes a key out of a local state, as [`SharedState::remove`]. Any other value stays.
    pub(crate) fn remove_entry(&mut self, key: &StateKey) -> Result<(), AllocError>
        ensures ok { IfOk result
            (λ _. self.new ≡ local_changed (λ state. without_entry state key.now) self.old) }
        ensures memory { IfErr result (λ _. self.new ≡ self.old) }
    {
        if let ItemValue::Local(state) = self {
            state.remove(key)?;
        }
        Ok(())
    }
}
