//! States of applications and accounts.

ghost use Rattle.std.specs.Prelude.{◌≡◌, ◌≤◌, [], None, IfErr, IfOk, IfSome, length, List, ℕ};
ghost use Rattle.std.specs.Option.{option_copied};
ghost use Rattle.teal_value.specs.Keys.{most_key_bytes};
ghost use Rattle.avm_states.specs.Entries.{value_of_key, with_entry, without_entry, IsInKeyOrder};
ghost use Rattle.avm_states.specs.Schemas.{counts_in};

use crate::entry_counts::EntryCounts;
use crate::sorted_entries::{put, take, value_of};
use std::alloc::{AllocError, Global};
use std::marker::Model;
use teal_value::{StateKey, Value};

/// The most bytes of a byte string that is the value of a key (AVM specification, "State").
pub const MAX_VALUE_BYTES: usize = 64;

/// A global or local state: its entries by rising key, which contracts see as the list of them.
#[derive(Debug)]
pub struct State {
    entries: Vec<(StateKey, Value)>,
    /// How many of the entries are uints, and how many byte strings.
    counts: EntryCounts,
}

/// Written out, so that how one is dropped is proved here once, and not in each crate that owns one.
impl Drop for State {
    #[inline]
    fn drop(self) {
        let State {
            entries: _,
            counts: _,
        } = self;
    }
}

impl Model for State {
    ghost use Rattle.std.specs.Prelude.{List, ℕ};
    ghost use Rattle.teal_value.specs.declared.value.Value.{Value as StateValue};

    ghost Value = { List (List ℕ × StateValue) };

    ghost use Rattle.avm_states.specs.Entries.{IsInKeyOrder};
    ghost use Rattle.avm_states.specs.Schemas.{IsCounted};

    ghost view = { λ s. s.entries.items };

    ghost invariant = { λ s. IsCounted s.entries.items s.counts × IsInKeyOrder s.entries.items };
}

impl State {
    /// No entries. It takes no memory.
    pub fn new(alloc: Global) -> Self
        ensures { result ≡ [] }
    {
        State {
            entries: Vec::new(alloc),
            counts: EntryCounts::none(),
        }
    }

    /// No entries, in room for so many.
    pub fn with_room(alloc: Global, entries: usize) -> Result<Self, AllocError>
        ensures { IfOk result (λ state. state ≡ []) }
    {
        Ok(State {
            entries: Vec::with_capacity(alloc, entries)?,
            counts: EntryCounts::none(),
        })
    }

    /// How many entries there are.
    pub fn len(&self) -> usize
        ensures len { result ≡ length self.now }
        ensures order { IsInKeyOrder self.now }
    {
        let _counts = self.counts;
        self.entries.len()
    }

    /// How many uints and how many byte strings there are.
    pub fn counts(&self) -> EntryCounts
        ensures { result ≡ counts_in self.now }
    {
        self.counts
    }

    /// The value of a key, found in logarithmic time.
    pub fn get(&self, key: &StateKey) -> Option<&Value>
        ensures { option_copied result ≡ value_of_key self.now key.now }
    {
        value_of(self.entries.as_slice(), key)
    }

    /// The value of the key of these bytes. Bytes too many for a key have none.
    #[tactic(auto, using(crate::proofs::Counts::no_long_key))]
    pub fn value_of(&self, key: &[u8]) -> Option<&Value>
        ensures value { option_copied result ≡ value_of_key self.now key.now }
        ensures short { IfSome result (λ _. length key.now ≤ most_key_bytes) }
    {
        let _counts = self.counts;
        match StateKey::of(key) {
            Some(key) => {
                let _bytes = key.as_slice();
                self.get(&key)
            }
            None => None,
        }
    }

    /// The entries by rising key.
    pub fn as_slice(&self) -> &[(StateKey, Value)]
        ensures all { result.now ≡ self.now }
        ensures order { IsInKeyOrder self.now }
    {
        self.entries.as_slice()
    }

    /// Gives a key a value, in place of the one that it may have had, which is answered. Only a new key can want
    /// memory.
    #[inline(always)]
    pub fn insert(&mut self, key: StateKey, value: Value) -> Result<Option<Value>, AllocError>
        ensures old { IfOk result (λ old. old ≡ value_of_key self.old key) }
        ensures set { IfOk result (λ _. self.new ≡ with_entry self.old key value) }
        ensures unchanged { IfErr result (λ _. self.new ≡ self.old) }
        ensures only_new { IfErr result (λ _. value_of_key self.old key ≡ None) }
        ensures order { IsInKeyOrder self.new }
    {
        let _bytes = key.as_slice();
        let counts = self.counts;
        let count = EntryCounts::of(&value);
        let old = put(&mut self.entries, key, value)?;
        let _room = self.entries.len();
        self.counts = counts.without(old.as_ref()).and(count);
        Ok(old)
    }

    /// Takes a key out, and answers the value that it had.
    pub fn remove(&mut self, key: &StateKey) -> Option<Value>
        ensures old { result ≡ value_of_key self.old key.now }
        ensures removed { self.new ≡ without_entry self.old key.now }
        ensures order { IsInKeyOrder self.new }
    {
        let old = take(&mut self.entries, key);
        self.counts = self.counts.without(old.as_ref());
        old
    }

    /// A copy of the state, in memory of its own.
    pub fn clone(&self) -> Result<State, AllocError>
        ensures { IfOk result (λ copy. copy ≡ self.now) }
    {
        let entries = self.entries.clone()?;
        Ok(State {
            entries,
            counts: self.counts,
        })
    }
}

impl Clone for State {
    ghost is_clone = { λ state copy. copy ≡ state };

    fn clone(&self) -> Result<State, AllocError> {
        State::clone(self)
    }
}

impl PartialEq for State {
    ghost use Rattle.std.specs.Cmp.{partial_equiv_from_equiv, on_equiv, and_equiv};
    ghost use Rattle.std.specs.Cmp.Lexicographic.{pointwise, lists_equiv, nat_list_eq_equiv};
    ghost use Rattle.teal_value.specs.SameValueLaws.{is_same_equiv};
    ghost use Rattle.avm_states.specs.Entries.{is_same_entry};

    ghost eq = { pointwise is_same_entry };

    ghost laws = { partial_equiv_from_equiv (lists_equiv (and_equiv (on_equiv (λ e. e.0) nat_list_eq_equiv) (on_equiv (λ e. e.1) is_same_equiv))) };

    fn eq(&self, other: &State) -> bool {
        self.entries == other.entries
    }
}

impl Eq for State {
    ghost use Rattle.std.specs.Cmp.{on_equiv, and_equiv};
    ghost use Rattle.std.specs.Cmp.Lexicographic.{lists_equiv, nat_list_eq_equiv};
    ghost use Rattle.teal_value.specs.SameValueLaws.{is_same_equiv};

    ghost laws = { lists_equiv (and_equiv (on_equiv (λ e. e.0) nat_list_eq_equiv) (on_equiv (λ e. e.1) is_same_equiv)) };
}
