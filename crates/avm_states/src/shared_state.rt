//! States that are shared.

ghost use Rattle.std.specs.Prelude.{◌≡◌, IfErr, IfOk};
ghost use Rattle.std.specs.Arc.{arc_value};
ghost use Rattle.avm_states.specs.Entries.{value_of_key, with_entry, without_entry};

use crate::state::State;
use std::alloc::{AllocError, Global};
use std::marker::Model;
use std::sync::Arc;
use teal_value::{StateKey, Value};

/// A state that all its copies share. Contracts see it as the state.
#[derive(Debug)]
pub struct SharedState {
    state: Arc<State>,
}

/// Written out, so that how one is dropped is proved here once, and not in each crate that owns one.
impl Drop for SharedState {
    #[inline]
    fn drop(self) {
        let SharedState { state: _ } = self;
    }
}

impl Model for SharedState {
    ghost use Rattle.std.specs.Prelude.{List, ℕ};
    ghost use Rattle.std.specs.Arc.{arc_value};
    ghost use Rattle.teal_value.specs.declared.value.Value.{Value as StateValue};

    ghost Value = { List (List ℕ × StateValue) };

    ghost view = { λ s. arc_value s.state };
}

impl SharedState {
    /// The state, to be shared.
    pub fn new(alloc: Global, state: State) -> Result<SharedState, AllocError>
        ensures { IfOk result (λ shared. shared ≡ state) }
    {
        let state = Arc::new(alloc, state)?;
        Ok(SharedState { state })
    }

    /// The state itself.
    pub fn get(&self) -> &State
        ensures { result.now ≡ self.now }
    {
        &self.state
    }

    /// The same state. Nothing of it is copied.
    pub fn clone(&self) -> Result<SharedState, AllocError>
        ensures { IfOk result (λ copy. copy ≡ self.now) }
    {
        let state = Arc::try_clone(&self.state)?;
        Ok(SharedState { state })
    }

    /// Gives a key a value, in place of the one that it may have had, which is answered: in place where no other copy
    /// shares the state, else in a copy of the state, which takes its place here.
    pub fn insert(&mut self, key: StateKey, value: Value) -> Result<Option<Value>, AllocError>
        ensures old { IfOk result (λ old. old ≡ value_of_key self.old key) }
        ensures set { IfOk result (λ _. self.new ≡ with_entry self.old key value) }
        ensures unchanged { IfErr result (λ _. self.new ≡ self.old) }
    {
        let state = Arc::make_mut(&mut self.state)?;
        state.insert(key, value)
    }

    /// Takes a key out, and answers the value that it had: in place or in a copy, as [`SharedState::insert`].
    pub fn remove(&mut self, key: &StateKey) -> Result<Option<Value>, AllocError>
        ensures old { IfOk result (λ old. old ≡ value_of_key self.old key.now) }
        ensures removed { IfOk result (λ _. self.new ≡ without_entry self.old key.now) }
        ensures unchanged { IfErr result (λ _. self.new ≡ self.old) }
    {
        let state = Arc::make_mut(&mut self.state)?;
        Ok(state.remove(key))
    }
}

impl Clone for SharedState {
    ghost is_clone = { λ state copy. copy ≡ state };

    fn clone(&self) -> Result<SharedState, AllocError> {
        SharedState::clone(self)
    }
}

impl PartialEq for SharedState {
    ghost use Rattle.std.specs.Cmp.{partial_equiv_from_equiv, on_equiv, and_equiv};
    ghost use Rattle.std.specs.Cmp.Lexicographic.{pointwise, lists_equiv, nat_list_eq_equiv};
    ghost use Rattle.teal_value.specs.SameValueLaws.{is_same_equiv};
    ghost use Rattle.avm_states.specs.Entries.{is_same_entry};

    ghost eq = { pointwise is_same_entry };

    ghost laws = { partial_equiv_from_equiv (lists_equiv (and_equiv (on_equiv (λ e. e.0) nat_list_eq_equiv) (on_equiv (λ e. e.1) is_same_equiv))) };

    fn eq(&self, other: &SharedState) -> bool {
        self.state == other.state
    }
}

impl Eq for SharedState {
    ghost use Rattle.std.specs.Cmp.{on_equiv, and_equiv};
    ghost use Rattle.std.specs.Cmp.Lexicographic.{lists_equiv, nat_list_eq_equiv};
    ghost use Rattle.teal_value.specs.SameValueLaws.{is_same_equiv};

    ghost laws = { lists_equiv (and_equiv (on_equiv (λ e. e.0) nat_list_eq_equiv) (on_equiv (λ e. e.1) is_same_equiv)) };
}
