//! Ledgers.

ghost use Rattle.std.specs.Prelude.{◌≡◌, [], ℕ, length, IfErr, IfOk};
ghost use Rattle.std.specs.Map.Iter.{ShowsInOrder, deref_pair};
ghost use Rattle.std.specs.Option.{option_copied, option_map};
ghost use Rattle.teal_value.specs.Answer.{Gives};
ghost use Rattle.teal_value.specs.declared.address.Address.{Address};
ghost use Rattle.avm_ledger.specs.declared.application.StoredApplication.{StoredApplication};
ghost use Rattle.avm_states.specs.Entries.{Entries};
ghost use Rattle.avm_ledger.specs.Ledgers.{IsOrderly, application_at, creation, empty_ledger, global_value, local_state_at};

use crate::application::{Application, StoredApplication};
use crate::ids_end::IdsEnd;
use crate::open_ledger::OpenLedger;
use crate::shared_application::SharedApplication;
use crate::stored_program::StoredProgram;
use avm_states::{Schema, SharedState, State};
use std::alloc::{AllocError, Global};
use std::collections::BTreeMap;
use std::collections::btree_map::Iter;
use std::marker::Model;
use teal_check::Program;
use teal_value::{Address, Failure, StateKey, Value};

/// A ledger: applications with their global states, the local states of accounts, and the id of the next application,
/// which no application has, nor one above it. What it finds it finds in logarithmic time. It is changed as an
/// [`OpenLedger`].
#[derive(Debug)]
pub struct Ledger {
    next_id: u64,
    applications: BTreeMap<u64, StoredApplication>,
    local_states: BTreeMap<(Address, u64), SharedState>,
}

/// Written out, so that whoever owns one drops it by one call and not part by part.
impl Drop for Ledger {
    #[inline]
    fn drop(self) {
        let Ledger {
            next_id: _,
            applications: _,
            local_states: _,
        } = self;
    }
}

impl Model for Ledger {
    ghost use Rattle.avm_ledger.specs.Ledgers.{Ledger as LedgerMaps, IsOrderly};

    ghost Value = { LedgerMaps };

    ghost view = { λ l. record { next_id = l.next_id; applications = l.applications.entries; local_states = l.local_states.entries } };

    ghost invariant = { λ l. IsOrderly (record { next_id = l.next_id; applications = l.applications.entries; local_states = l.local_states.entries }) };
}

impl Ledger {
    /// The ledger without applications and local states, whose next id is 1. It takes no memory.
    pub fn new(alloc: Global) -> Ledger
        ensures { result ≡ empty_ledger }
    {
        Ledger {
            next_id: 1,
            applications: BTreeMap::new(alloc),
            local_states: BTreeMap::new(alloc),
        }
    }

    // The ledger of these parts.
    pub(crate) fn from_parts(
        next_id: u64,
        applications: BTreeMap<u64, StoredApplication>,
        local_states: BTreeMap<(Address, u64), SharedState>,
    ) -> Ledger
        requires { IsOrderly (record {
          next_id = next_id;
          applications = applications.entries;
          local_states = local_states.entries;
        }) }
        ensures { result ≡ record {
          next_id = next_id;
          applications = applications.entries;
          local_states = local_states.entries;
        } }
    {
        Ledger {
            next_id,
            applications,
            local_states,
        }
    }

    /// The ledger as one that can be changed.
    pub fn open(self) -> OpenLedger
        ensures same { result ≡ self }
        ensures orderly { IsOrderly self }
    {
        let Ledger {
            next_id,
            applications,
            local_states,
        } = self;
        OpenLedger {
            next_id,
            applications,
            local_states,
        }
    }

    /// What every ledger keeps: its maps are in order, and no application has the next id or one above it. It does no work.
    pub fn holds(&self)
        ensures { IsOrderly self.now }
    {
        let _next_id = self.next_id;
    }

    /// Adds an application with an empty global state, and answers its id, which is the next one.
    ///
    /// Refused is a creation where the next id is 2^64 - 1.
    pub fn create(
        &mut self,
        alloc: Global,
        creator: Address,
        approval: &Program,
        clear: &Program,
        global_schema: Schema,
        local_schema: Schema,
    ) -> Result<u64, Failure<IdsEnd>>
        ensures created { Gives (λ id. (id, self.new)) result (creation self.old (record {
          creator = creator;
          approval = approval.now.bytes;
          clear = clear.now.bytes;
          global_schema = global_schema;
          local_schema = local_schema;
        })) }
        ensures unchanged { IfErr result (λ _. self.new ≡ self.old) }
    {
        let id = self.next_id;
        if id == u64::MAX {
            return Err(Failure::Fault(IdsEnd::IdsEnd));
        }
        let app = new_application(alloc, creator, approval, clear, global_schema, local_schema)?;
        self.applications.insert(id, app)?;
        self.next_id = id + 1;
        Ok(id)
    }

    /// The id of the next application.
    pub fn next_id(&self) -> u64
        ensures { result ≡ self.now.next_id }
    {
        self.next_id
    }

    /// How many applications there are.
    pub fn application_count(&self) -> usize
        ensures { result ≡ length self.now.applications }
    {
        self.applications.len()
    }

    /// The applications with their global states, by rising id.
    pub fn applications(&self) -> Iter<'_, u64, StoredApplication>
        ensures rest { result ≡ self.now.applications }
        ensures runs { ShowsInOrder (deref_pair {K = ℕ} {X = StoredApplication}) }
    {
        self.applications.iter()
    }

    /// How many local states there are.
    pub fn local_state_count(&self) -> usize
        ensures { result ≡ length self.now.local_states }
    {
        self.local_states.len()
    }

    /// The local states by rising account and application.
    pub fn local_states(&self) -> Iter<'_, (Address, u64), SharedState>
        ensures rest { result ≡ self.now.local_states }
        ensures runs { ShowsInOrder (deref_pair {K = Address × ℕ} {X = Entries}) }
    {
        self.local_states.iter()
    }

    /// An application, without its global state.
    pub fn application(&self, id: u64) -> Option<&SharedApplication>
        ensures { option_copied result ≡ option_map (λ app. app.row) (application_at self.now id) }
    {
        match self.applications.get(&id) {
            Some(app) => Some(&app.row),
            None => None,
        }
    }

    /// The global state of an application.
    pub fn global_state(&self, id: u64) -> Option<&State>
        ensures { option_copied result
            ≡ option_map (λ app. app.state) (application_at self.now id) }
    {
        match self.applications.get(&id) {
            Some(app) => Some(&app.state),
            None => None,
        }
    }

    /// The value of a key of an application's global state.
    #[inline(always)]
    pub fn global_value(&self, id: u64, key: &StateKey) -> Option<&Value>
        ensures { option_copied result ≡ global_value self.now id key.now }
    {
        match self.applications.get(&id) {
            Some(app) => app.state.get(key),
            None => None,
        }
    }

    /// An account's local state of an application.
    pub fn local_state(&self, who: &Address, id: u64) -> Option<&SharedState>
        ensures { option_copied result ≡ local_state_at self.now who.now id }
    {
        self.local_states.get(&(*who, id))
    }

    /// A copy of the ledger, which shares its applications and local states.
    pub fn clone(&self) -> Result<Ledger, AllocError>
        ensures { IfOk result (λ copy. copy ≡ self.now) }
    {
        let applications = self.applications.clone()?;
        let local_states = self.local_states.clone()?;
        Ok(Ledger {
            next_id: self.next_id,
            applications,
            local_states,
        })
    }
}

// An application of this account, with these programs and schemas and an empty global state.
fn new_application(
    alloc: Global,
    creator: Address,
    approval: &Program,
    clear: &Program,
    global_schema: Schema,
    local_schema: Schema,
) -> Result<StoredApplication, AllocError>
    ensures { IfOk result (λ app. app ≡ record {
      row = record {
        creator = creator;
        approval = approval.now.bytes;
        clear = clear.now.bytes;
        global_schema = global_schema;
        local_schema = local_schema;
      };
      state = [];
    }) }
{
    let row = Application {
        creator,
        approval: StoredProgram::new(approval.clone()?),
        clear: StoredProgram::new(clear.clone()?),
        global_schema,
        local_schema,
    };
    Ok(StoredApplication {
        row: SharedApplication::new(alloc, row)?,
        state: State::new(alloc),
    })
}
