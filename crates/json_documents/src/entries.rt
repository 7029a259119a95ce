//! Entries as they are read, found by their keys.

ghost use Rattle.std.specs.Prelude.{◌≡◌, [], IfOk, is_some, length};
ghost use Rattle.avm_states.specs.Entries.{value_of_key, with_entry};

use avm_states::State;
use std::alloc::{AllocError, Global};
use std::collections::BTreeMap;
use std::marker::Model;
use teal_value::{StateKey, Value};

/// Entries by rising key, as many as there may come. A state is a list, which is slow to grow where it is long.
#[derive(Drop)]
pub(crate) struct Entries {
    map: BTreeMap<StateKey, Value>,
}

impl Model for Entries {
    ghost use Rattle.std.specs.Prelude.{List, ℕ};
    ghost use Rattle.teal_value.specs.declared.value.Value.{Value as StateValue};

    ghost Value = { List (List ℕ × StateValue) };

    ghost view = { λ e. e.map.entries };
}

impl Entries {
    /// No entries. It takes no memory.
    pub fn new(alloc: Global) -> Entries
        ensures { result ≡ [] }
    {
        Entries {
            map: BTreeMap::new(alloc),
        }
    }

    /// How many there are.
    pub fn len(&self) -> usize
        ensures { result ≡ length self.now }
    {
        self.map.len()
    }

    /// Whether there is one of this key.
    pub fn has(&self, key: &StateKey) -> bool
        ensures { result ≡ is_some (value_of_key self.now key.now) }
    {
        self.map.contains_key(key)
    }

    /// The entries with one more.
    pub fn with(self, key: StateKey, value: Value) -> Result<Entries, AllocError>
        ensures { IfOk result (λ entries. entries ≡ with_entry self key value) }
    {
        let mut map = self.map;
        map.insert(key, value)?;
        Ok(Entries { map })
    }

    /// The entries as a state, in room for just these.
    pub fn into_state(self, alloc: Global) -> Result<State, AllocError>
        ensures { IfOk result (λ state. state ≡ self) }
    {
        let mut map = self.map;
        let mut state = State::with_room(alloc, map.len())?;
        while let Some((key, value)) = map.pop_first() {
            state.insert(key, value)?;
        }
        Ok(state)
    }
}
