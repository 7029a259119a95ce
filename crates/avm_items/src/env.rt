//! What a call knows while its program runs.

ghost use Rattle.std.specs.Prelude.{◌≡◌, [], IfErr, IfOk};
ghost use Rattle.std.specs.Arc.{arc_value};
ghost use Rattle.std.specs.Option.{option_copied};
ghost use Rattle.avm_items.specs.CallFields.{new_keys};
ghost use Rattle.avm_states.specs.Entries.{with_entry, without_entry};
ghost use Rattle.avm_items.specs.Environments.{known_to, with_state_written};
ghost use Rattle.avm_items.specs.Items.{state_of, with_item};
ghost use Rattle.avm_items.specs.declared.item.Item.TheVariants.{Local};

use crate::call_data::CallData;
use crate::item::Item;
use crate::item_map::ItemMap;
use crate::item_value::ItemValue;
use avm_ledger::Header;
use avm_states::SharedState;
use std::alloc::{AllocError, Global};
use std::marker::Model;
use std::mem;
use std::sync::Arc;
use teal_value::{Address, StateKey, Value};

/// What a call knows while its program runs: its fields, the block's header, the application that runs, the items that
/// it was given, and those that it has written.
pub struct Env {
    call: Arc<CallData>,
    header: Header,
    current: u64,
    reads: ItemMap,
    writes: ItemMap,
    /// The value that the keys of a new application have, to be lent.
    absent: ItemValue,
}

/// Written out, so that whoever owns one drops it by one call and not part by part.
impl Drop for Env {
    #[inline]
    fn drop(self) {
        let Env {
            call: _,
            header: _,
            current: _,
            reads: _,
            writes: _,
            absent: _,
        } = self;
    }
}

impl Model for Env {
    ghost use Rattle.std.specs.Prelude.{◌≡◌};
    ghost use Rattle.std.specs.Arc.{arc_value};
    ghost use Rattle.avm_items.specs.Environments.{Environment};
    ghost use Rattle.avm_items.specs.declared.item_value.ItemValue.TheVariants.{Absent};

    ghost Value = { Environment };

    ghost view = { λ e. record { call = arc_value e.call; header = e.header; current = e.current; reads = e.reads; writes = e.writes } };

    ghost invariant = { λ e. e.absent ≡ Absent };
}

impl Env {
    /// What a call knows that has read and written these items. It takes no memory.
    pub fn from_items(
        call: Arc<CallData>,
        header: Header,
        current: u64,
        reads: ItemMap,
        writes: ItemMap,
    ) -> Env
        ensures { result ≡ record {
          call = arc_value call;
          header = header;
          current = current;
          reads = reads;
          writes = writes;
        } }
    {
        Env {
            call,
            header,
            current,
            reads,
            writes,
            absent: ItemValue::Absent,
        }
    }

    /// The fields of the call.
    pub fn call(&self) -> &CallData
        ensures { result.now ≡ self.now.call }
    {
        &self.call
    }

    /// The header of the block that the call is in.
    pub fn header(&self) -> &Header
        ensures { result.now ≡ self.now.header }
    {
        &self.header
    }

    /// The id of the application that runs.
    pub fn current(&self) -> u64
        ensures { result ≡ self.now.current }
    {
        self.current
    }

    /// The items that the call was given, with their values.
    pub fn reads(&self) -> &ItemMap
        ensures { result.now ≡ self.now.reads }
    {
        &self.reads
    }

    /// The items that the call has written, with their values.
    pub fn writes(&self) -> &ItemMap
        ensures { result.now ≡ self.now.writes }
    {
        &self.writes
    }

    /// The value of an item, if it is known: what the call has written; else, of a key of the application that it makes,
    /// that it is absent; else what it was given.
    pub fn value(&self, item: &Item) -> Option<&ItemValue>
        ensures { option_copied result ≡ known_to self.now item.now }
    {
        if let Some(value) = self.writes.get(item) {
            return Some(value);
        }
        match self.new_key(item) {
            Some(value) => Some(value),
            None => self.reads.get(item),
        }
    }

    /// That a key of the application that the call makes is absent.
    fn new_key(&self, item: &Item) -> Option<&ItemValue>
        ensures { option_copied result ≡ new_keys self.now.call self.now.current item.now }
    {
        match item {
            Item::Key(id, _) if self.call.application == 0 && *id == self.current => Some(
                &self.absent,
            ),
            _ => None,
        }
    }

    /// Gives the call the value of an item.
    #[inline(always)]
    pub fn read(&mut self, item: Item, value: ItemValue) -> Result<(), AllocError>
        ensures ok { IfOk result
            (λ _. self.new ≡ record self.old { reads = with_item self.old.reads item value }) }
        ensures memory { IfErr result (λ _. self.new ≡ self.old) }
    {
        self.reads.insert(item, value)
    }

    /// Writes an item.
    #[inline(always)]
    pub fn write(&mut self, item: Item, value: ItemValue) -> Result<(), AllocError>
        ensures ok { IfOk result
            (λ _. self.new ≡ record self.old { writes = with_item self.old.writes item value }) }
        ensures memory { IfErr result (λ _. self.new ≡ self.old) }
    {
        self.writes.insert(item, value)
    }

    /// The local state that an item has, if it is known, shared.
    fn shared_state(&self, item: &Item) -> Result<Option<SharedState>, AllocError>
        ensures { IfOk result (λ state. state ≡ state_of (known_to self.now item.now)) }
    {
        match self.value(item) {
            Some(ItemValue::Local(state)) => Ok(Some(state.clone()?)),
            _ => Ok(None),
        }
    }

    /// Puts an entry into an account's local state of an application, if the state is known: into the one that the call has
    /// written, in place; else into a copy, which it writes.
    pub fn put_entry(
        &mut self,
        who: Address,
        id: u64,
        key: StateKey,
        value: Value,
    ) -> Result<(), AllocError>
        ensures ok { IfOk result (λ _. self.new ≡ with_state_written (λ state. with_entry state
            key value) self.old (Local who id) (known_to self.old (Local who id))) }
        ensures memory { IfErr result (λ _. self.new ≡ self.old) }
    {
        let item = Item::Local(who, id);
        if self.writes.has_state(&item) {
            return self.writes.put_entry(&item, key, value);
        }
        let Some(mut state) = self.shared_state(&item)? else {
            return Ok(());
        };
        state.insert(key, value)?;
        self.writes.insert(item, ItemValue::Local(state))
    }

    /// Takes a key out of an account's local state of an application, if the state is known: out of the one that the call
    /// has written, in place; else out of a copy, which it writes.
    pub fn remove_entry(&mut self, who: Address, id: u64, key: &StateKey) -> Result<(), AllocError>
        ensures ok { IfOk result (λ _. self.new ≡ with_state_written (λ state. without_entry state
            key.now) self.old (Local who id) (known_to self.old (Local who id))) }
        ensures memory { IfErr result (λ _. self.new ≡ self.old) }
    {
        let item = Item::Local(who, id);
        if self.writes.has_state(&item) {
            return self.writes.remove_entry(&item, key);
        }
        let Some(mut state) = self.shared_state(&item)? else {
            return Ok(());
        };
        state.remove(key)?;
        self.writes.insert(item, ItemValue::Local(state))
    }

    /// Keeps the room of the items that a call was given and of those that it wrote, for the next call's.
    pub fn keep_room(&mut self, reads: ItemMap, writes: ItemMap)
        ensures { self.new ≡ record self.old { reads = []; writes = [] } }
    {
        self.reads = reads;
        self.reads.clear();
        self.writes = writes;
        self.writes.clear();
    }

    /// Takes out the items that the call was given. It takes no memory.
    pub fn take_reads(&mut self, alloc: Global) -> ItemMap
        ensures taken { result ≡ self.old.reads }
        ensures left { self.new ≡ record self.old { reads = [] } }
    {
        mem::replace(&mut self.reads, ItemMap::new(alloc))
    }

    /// Takes out the items that the call has written. It takes no memory.
    pub fn take_writes(&mut self, alloc: Global) -> ItemMap
        ensures taken { result ≡ self.old.writes }
        ensures left { self.new ≡ record self.old { writes = [] } }
    {
        mem::replace(&mut self.writes, ItemMap::new(alloc))
    }

    /// Takes out the items that the call was given and those that it has written. It takes no memory.
    pub fn take_items(&mut self, alloc: Global) -> (ItemMap, ItemMap)
        ensures taken { result ≡ (self.old.reads, self.old.writes) }
        ensures left { self.new ≡ record self.old { reads = []; writes = [] } }
    {
        let reads = self.take_reads(alloc);
        let writes = self.take_writes(alloc);
        (reads, writes)
    }
}
