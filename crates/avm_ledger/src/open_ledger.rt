//! Ledgers that are being changed.

ghost use Rattle.std.specs.Prelude.{◌≡◌, ℕ, None, IfErr, IfOk, IsSome};
ghost use Rattle.std.specs.Map.Iter.{ShowsInOrder, deref_pair};
ghost use Rattle.std.specs.Option.{option_copied, option_map};
ghost use Rattle.teal_value.specs.declared.address.Address.{Address};
ghost use Rattle.avm_states.specs.Entries.{Entries, with_entry, without_entry};
ghost use Rattle.avm_ledger.specs.Ledgers.{IsInOrder, IsOrderly, application_at, global_value, local_state_at, with_application, with_local_state, with_row, with_state, without_application, without_local_state};

use crate::application::StoredApplication;
use crate::ledger::Ledger;
use crate::shared_application::SharedApplication;
use avm_states::{SharedState, State};
use std::alloc::{AllocError, Global};
use std::collections::BTreeMap;
use std::collections::btree_map::Iter;
use std::marker::Model;
use std::mem;
use teal_value::{Address, StateKey, Value};

/// A ledger that is being changed, which contracts see as one: its maps are in order, and its next id may be any, also
/// that of an application. So items are put one after another in whatever order they come.
#[derive(Debug)]
pub struct OpenLedger {
    pub(crate) next_id: u64,
    pub(crate) applications: BTreeMap<u64, StoredApplication>,
    pub(crate) local_states: BTreeMap<(Address, u64), SharedState>,
}

/// Written out, so that whoever owns one drops it by one call and not part by part.
impl Drop for OpenLedger {
    #[inline]
    fn drop(self) {
        let OpenLedger {
            next_id: _,
            applications: _,
            local_states: _,
        } = self;
    }
}

impl Model for OpenLedger {
    ghost use Rattle.avm_ledger.specs.Ledgers.{Ledger as LedgerMaps, IsInOrder};

    ghost Value = { LedgerMaps };

    ghost view = { λ l. record { next_id = l.next_id; applications = l.applications.entries; local_states = l.local_states.entries } };

    ghost invariant = { λ l. IsInOrder (record { next_id = l.next_id; applications = l.applications.entries; local_states = l.local_states.entries }) };
}

impl OpenLedger {
    /// The ledger, once no application has the next id or one above it.
    pub fn close(self) -> Ledger
        requires { IsOrderly self }
        ensures { result ≡ self }
    {
        let OpenLedger {
            next_id,
            applications,
            local_states,
        } = self;
        Ledger::from_parts(next_id, applications, local_states)
    }

    /// The id of the next application.
    pub fn next_id(&self) -> u64
        ensures id { result ≡ self.now.next_id }
        ensures order { IsInOrder self.now }
    {
        self.next_id
    }

    /// The global state of an application.
    pub fn global_state(&self, id: u64) -> Option<&State>
        ensures { option_copied result
            ≡ option_map (λ app. app.state) (application_at self.now id) }
    {
        match self.applications.get(&id) {
            Some(app) => Some(&app.state),
            None => None,
        }
    }

    /// An account's local state of an application.
    pub fn local_state(&self, who: &Address, id: u64) -> Option<&SharedState>
        ensures { option_copied result ≡ local_state_at self.now who.now id }
    {
        self.local_states.get(&(*who, id))
    }

    /// The local states by rising account and application.
    pub fn local_states(&self) -> Iter<'_, (Address, u64), SharedState>
        ensures rest { result ≡ self.now.local_states }
        ensures runs { ShowsInOrder (deref_pair {K = Address × ℕ} {X = Entries}) }
    {
        self.local_states.iter()
    }

    /// Sets the id of the next application.
    pub fn set_next_id(&mut self, id: u64)
        ensures { self.new ≡ record self.old { next_id = id } }
    {
        self.next_id = id;
    }

    /// Sets an application, and answers the one that it replaces. One that stands keeps its global state, a new one has
    /// an empty one. Only for a new one memory is wanted.
    pub fn set_application(
        &mut self,
        alloc: Global,
        id: u64,
        row: SharedApplication,
    ) -> Result<Option<SharedApplication>, AllocError>
        ensures old { IfOk result
            (λ old. old ≡ option_map (λ app. app.row) (application_at self.old id)) }
        ensures set { IfOk result (λ _.
            self.new ≡ with_application self.old id (with_row (application_at self.old id) row)) }
        ensures unchanged { IfErr result (λ _. self.new ≡ self.old) }
        ensures only_new { IfErr result (λ _. application_at self.old id ≡ None) }
    {
        if let Some(app) = self.applications.get_mut(&id) {
            let old = mem::replace(&mut app.row, row);
            return Ok(Some(old));
        }
        let state = State::new(alloc);
        self.applications
            .insert(id, StoredApplication { row, state })?;
        Ok(None)
    }

    /// Takes an application out, with its global state, and answers both. Local states of it stay.
    pub fn remove_application(&mut self, id: u64) -> Option<StoredApplication>
        ensures old { result ≡ application_at self.old id }
        ensures removed { self.new ≡ without_application self.old id }
    {
        self.applications.remove(&id)
    }

    /// Gives a key of the global state of an application a value, and answers the one that it replaces. Where the
    /// application is gone, nothing is set. Only a new key can be refused, as by [`State::insert`].
    #[inline(always)]
    pub fn set_key(
        &mut self,
        id: u64,
        key: StateKey,
        value: Value,
    ) -> Result<Option<Value>, AllocError>
        ensures old { IfOk result (λ old. old ≡ global_value self.old id key) }
        ensures set { IfOk result (λ _. self.new ≡ with_state self.old id
            (λ state. with_entry state key value) (application_at self.old id)) }
        ensures unchanged { IfErr result (λ _. self.new ≡ self.old) }
        ensures only_new { IfErr result (λ _. global_value self.old id key ≡ None) }
        ensures only_there { IfErr result (λ _. IsSome (application_at self.old id)) }
    {
        let Some(app) = self.applications.get_mut(&id) else {
            return Ok(None);
        };
        app.state.insert(key, value)
    }

    /// Takes a key out of the global state of an application, and answers the value that it had.
    pub fn remove_key(&mut self, id: u64, key: &StateKey) -> Option<Value>
        ensures old { result ≡ global_value self.old id key.now }
        ensures removed { self.new ≡ with_state self.old id
            (λ state. without_entry state key.now) (application_at self.old id) }
    {
        let app = self.applications.get_mut(&id)?;
        app.state.remove(key)
    }

    /// Sets an account's local state of an application, and answers the one that it replaces. Only for a new one memory
    /// is wanted.
    pub fn set_local_state(
        &mut self,
        who: Address,
        id: u64,
        state: SharedState,
    ) -> Result<Option<SharedState>, AllocError>
        ensures old { IfOk result (λ old. old ≡ local_state_at self.old who id) }
        ensures set { IfOk result (λ _. self.new ≡ with_local_state self.old who id state) }
        ensures unchanged { IfErr result (λ _. self.new ≡ self.old) }
        ensures only_new { IfErr result (λ _. local_state_at self.old who id ≡ None) }
    {
        match self.local_states.insert((who, id), state) {
            Ok(old) => Ok(old),
            Err(_) => Err(AllocError),
        }
    }

    /// Takes an account's local state of an application out, and answers it.
    pub fn remove_local_state(&mut self, who: &Address, id: u64) -> Option<SharedState>
        ensures old { result ≡ local_state_at self.old who.now id }
        ensures removed { self.new ≡ without_local_state self.old who.now id }
    {
        self.local_states.remove(&(*who, id))
    }
}
