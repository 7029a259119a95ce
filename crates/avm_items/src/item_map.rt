//! Maps from items to their values.

ghost use Rattle.std.specs.Prelude.{◌≡◌, ◌↔◌, ◌∷◌, [], IfErr, IfNone, IfOk, IfSome, IsTrue, filter, is_some, length, not};
ghost use Rattle.std.specs.BTreeMap.{is_at};
ghost use Rattle.std.specs.Option.{option_copied};
ghost use Rattle.avm_states.specs.Entries.{with_entry, without_entry};
ghost use Rattle.avm_items.specs.Items.{IsInItemOrder, is_global_of, item_cmp, state_of, value_in, with_item, with_state_changed};
ghost use Rattle.avm_items.specs.LedgerItems.{pruned, value_before};
ghost use Rattle.avm_items.specs.SameValues.{is_same_value};

use crate::item::Item;
use crate::item_value::ItemValue;
use avm_states::sorted_entries::{place_of, put, value_of};
use std::alloc::{AllocError, Global};
use std::cmp::Ordering;
use std::marker::Model;
use teal_value::{StateKey, Value};

/// How many items are looked through one by one: whether two are the same is found sooner than which comes first.
const FEW: usize = 8;

/// The values of some items, which contracts see as the list of them by rising item.
///
/// They lie in one list, since a call mostly has a few: a new item moves those behind it.
#[derive(Drop)]
pub struct ItemMap {
    values: Vec<(Item, ItemValue)>,
}

impl Model for ItemMap {
    ghost use Rattle.avm_items.specs.Items.{IsInItemOrder, ItemMap};

    ghost Value = { ItemMap };

    ghost view = { λ m. m.values.items };

    ghost invariant = { λ m. IsInItemOrder m.values.items };
}

impl ItemMap {
    /// No items. It takes no memory.
    pub fn new(alloc: Global) -> ItemMap
        ensures { result ≡ [] }
    {
        ItemMap {
            values: Vec::new(alloc),
        }
    }

    /// How many items have a value here.
    pub fn len(&self) -> usize
        ensures { result ≡ length self.now }
    {
        self.values.len()
    }

    /// The value of an item, found in logarithmic time.
    #[inline(always)]
    pub fn get(&self, item: &Item) -> Option<&ItemValue>
        ensures { option_copied result ≡ value_in self.now item.now }
    {
        let values = self.values.as_slice();
        if values.is_empty() {
            None
        } else if values.len() <= FEW {
            value_among_few(values, item)
        } else {
            value_of(values, item)
        }
    }

    /// Whether an item has a local state here.
    pub fn has_state(&self, item: &Item) -> bool
        ensures { result ≡ is_some (state_of (value_in self.now item.now)) }
    {
        matches!(self.get(item), Some(ItemValue::Local(_)))
    }

    /// The items with their values, by rising item.
    pub fn as_slice(&self) -> &[(Item, ItemValue)]
        ensures all { result.now ≡ self.now }
        ensures order { IsInItemOrder self.now }
    {
        self.values.as_slice()
    }

    /// The items with their values, by rising item, without a copy.
    pub fn into_vec(self) -> Vec<(Item, ItemValue)>
        ensures all { result.items ≡ self }
        ensures order { IsInItemOrder self }
    {
        self.values
    }

    /// No items, in the room of a list that is not needed any more.
    pub(crate) fn in_room_of(values: Vec<(Item, ItemValue)>) -> ItemMap
        ensures { result ≡ [] }
    {
        let mut values = values;
        values.clear();
        ItemMap { values }
    }

    /// The same, in a list without room for more where there is memory for one: for a map that stays, since a list with
    /// room is of more use to the next map that grows.
    pub fn without_room(self, alloc: Global) -> ItemMap
        ensures { result ≡ self }
    {
        let (fitted, _room) = self.fitted(alloc);
        fitted
    }

    /// The same, as [`ItemMap::without_room`] gives it, and no items in the room that it had.
    pub fn fitted(self, alloc: Global) -> (ItemMap, ItemMap)
        ensures same { result.0 ≡ self }
        ensures room { result.1 ≡ [] }
    {
        let mut values = self.values;
        if values.len() < values.capacity() {
            if let Ok(mut exact) = Vec::with_capacity(alloc, values.len()) {
                if exact.append(&mut values).is_ok() {
                    return (ItemMap { values: exact }, ItemMap::in_room_of(values));
                }
            }
        }
        (ItemMap { values }, ItemMap::new(alloc))
    }

    /// Whether these are the same items with the same values. Nothing is copied.
    pub fn is_same(&self, other: &ItemMap) -> bool
        ensures { IsTrue result ↔ (self.now ≡ other.now) }
    {
        are_same_entries(self.values.as_slice(), other.values.as_slice())
    }

    /// Takes the items out whose values are those of before; what has no value in `before` was absent.
    pub fn prune(&mut self, before: &ItemMap)
        ensures { self.new ≡ pruned (value_before (value_in before.now)) self.old }
    {
        self.values
            .retain(|entry| !before.is_before(&entry.0, &entry.1));
    }

    /// Whether an item had this value; one without a value here was absent.
    fn is_before(&self, item: &Item, value: &ItemValue) -> bool
        ensures { result ≡ is_same_value (value_before (value_in self.now) item.now) value.now }
    {
        match self.get(item) {
            Some(before) => before.is_same(value),
            None => value.is_same(&ItemValue::Absent),
        }
    }

    /// Takes the counts and the keys of an application's global state out.
    pub fn remove_global_state(&mut self, id: u64)
        ensures { self.new ≡ filter (λ e. not (is_global_of id e.0)) self.old }
    {
        self.values.retain(|entry| !entry.0.is_global_of(id));
    }

    /// Takes all items out, and keeps the room that they had.
    pub fn clear(&mut self)
        ensures { self.new ≡ [] }
    {
        self.values.clear();
    }

    /// Gives an item a value, in place of the one that it may have had.
    #[inline(always)]
    pub fn insert(&mut self, item: Item, value: ItemValue) -> Result<(), AllocError>
        ensures ok { IfOk result (λ _. self.new ≡ with_item self.old item value) }
        ensures memory { IfErr result (λ _. self.new ≡ self.old) }
    {
        put(&mut self.values, item, value)?;
        Ok(())
    }

    /// Gives a key of the local state that an item has here a value, in place where no other copy shares the state. Where
    /// it has none, nothing changes.
    pub fn put_entry(&mut self, item: &Item, key: StateKey, value: Value) -> Result<(), AllocError>
        ensures ok { IfOk result (λ _. self.new ≡ with_state_changed (λ state.
            with_entry state key value) self.old item.now (value_in self.old item.now)) }
        ensures memory { IfErr result (λ _. self.new ≡ self.old) }
    {
        match place_of(self.values.as_slice(), item) {
            Ok(place) => self.values[place].1.put_entry(key, value),
            Err(_) => Ok(()),
        }
    }

    /// Takes a key out of the local state that an item has here, in place where no other copy shares the state. Where it
    /// has none, nothing changes.
    pub fn remove_entry(&mut self, item: &Item, key: &StateKey) -> Result<(), AllocError>
        ensures ok { IfOk result (λ _. self.new ≡ with_state_changed (λ state.
            without_entry state key.now) self.old item.now (value_in self.old item.now)) }
        ensures memory { IfErr result (λ _. self.new ≡ self.old) }
    {
        match place_of(self.values.as_slice(), item) {
            Ok(place) => self.values[place].1.remove_entry(key),
            Err(_) => Ok(()),
        }
    }
}

/// The value of an item, looked for in one entry after another.
#[inline(always)]
fn value_among_few<'a>(entries: &'a [(Item, ItemValue)], item: &Item) -> Option<&'a ItemValue>
    ensures { option_copied result ≡ value_in entries.now item.now }
{
    for index in 0..entries.len() {
        let (other, value) = &entries[index];
        if is_item(item, other) {
            return Some(value);
        }
    }
    None
}

/// Whether an item is the other one.
#[tactic(auto, using(crate::proofs::Orders::same_or_ordered))]
#[inline]
fn is_item(item: &Item, other: &Item) -> bool
    ensures { result ≡ is_at (item_cmp item.now) other.now }
{
    item == other
}

/// Whether two lists have the same items with the same values.
fn are_same_entries(entries: &[(Item, ItemValue)], others: &[(Item, ItemValue)]) -> bool
    ensures { IsTrue result ↔ (entries.now ≡ others.now) }
{
    if entries.len() != others.len() {
        return false;
    }
    for index in 0..entries.len() {
        if !is_same_entry(&entries[index], &others[index]) {
            return false;
        }
    }
    true
}

/// Whether an item with its value is the same as another.
fn is_same_entry(entry: &(Item, ItemValue), other: &(Item, ItemValue)) -> bool
    ensures { IsTrue result ↔ (entry.now ≡ other.now) }
{
    is_same_item(&entry.0, &other.0) && entry.1.is_same(&other.1)
}

/// Whether two items are the same.
#[tactic(auto, using(crate::proofs::Puts::item_same, crate::proofs::SameItems::item_ties))]
fn is_same_item(item: &Item, other: &Item) -> bool
    ensures { IsTrue result ↔ (item.now ≡ other.now) }
{
    match item.cmp(other) {
        Ordering::Equal => true,
        Ordering::Less | Ordering::Greater => false,
    }
}
