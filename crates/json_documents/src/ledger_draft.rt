//! Ledgers as they are put together.

ghost use Rattle.std.specs.Prelude.{◌≡◌, ◌++◌, IfOk, OnOk};
ghost use Rattle.std.specs.Option.{option_copied};
ghost use Rattle.avm_ledger.specs.Ledgers.{application_at, empty_ledger, local_state_at, with_application, with_local_state};
ghost use Rattle.avm_ledger.specs.Encodings.{application_bytes, counted_bytes, ledger_bytes, local_state_bytes, u32_bytes};
ghost use Rattle.avm_items.specs.SameValues.{is_same_application, is_same_schema};
ghost use Rattle.json_documents.specs.Drafts.{is_same_stored, raised};

use crate::ids::Id;
use avm_ledger::encoding::{
    put_local_state, put_long_count, put_schema, put_state, put_string, put_u64,
};
use avm_states::{Schema, State};
use std::alloc::{AllocError, Global};
use std::collections::BTreeMap;
use std::marker::Model;
use teal_value::{Address, ByteString};

/// An application with its global state, which contracts see as one of a ledger. Its programs keep the rules of programs, and
/// are not decoded, since their bytes alone are written.
pub(crate) struct ApplicationDraft {
    pub creator: Address,
    pub approval: ByteString,
    pub clear: ByteString,
    pub global_schema: Schema,
    pub local_schema: Schema,
    pub state: State,
}

/// Written out, so that whoever owns one drops it by one call and not part by part.
impl Drop for ApplicationDraft {
    #[inline]
    fn drop(self) {
        let ApplicationDraft {
            creator: _,
            approval: _,
            clear: _,
            global_schema: _,
            local_schema: _,
            state: _,
        } = self;
    }
}

impl Model for ApplicationDraft {
    ghost use Rattle.avm_ledger.specs.declared.application.StoredApplication.{StoredApplication};

    ghost Value = { StoredApplication };

    ghost view = { λ a. record { row = record { creator = a.creator; approval = a.approval; clear = a.clear; global_schema = a.global_schema; local_schema = a.local_schema }; state = a.state } };
}

impl ApplicationDraft {
    /// The schema of each local state.
    pub fn local_schema(&self) -> Schema
        ensures { result ≡ self.now.row.local_schema }
    {
        self.local_schema
    }

    /// Whether two applications are the same, with their states.
    pub fn is_same(&self, other: &ApplicationDraft) -> bool
        ensures { result ≡ is_same_stored self.now other.now }
    {
        self.has_same_row(other) && self.state == other.state
    }

    fn has_same_row(&self, other: &ApplicationDraft) -> bool
        ensures { result ≡ is_same_application self.now.row other.now.row }
    {
        self.creator.0.as_slice() == other.creator.0.as_slice()
            && self.approval.as_slice() == other.approval.as_slice()
            && self.clear.as_slice() == other.clear.as_slice()
            && is_same_schema(self.global_schema, other.global_schema)
            && is_same_schema(self.local_schema, other.local_schema)
    }

    /// Appends the encoding of the application of an id.
    fn put(&self, bytes: &mut Vec<u8>, id: u64) -> Result<(), AllocError>
        ensures { OnOk result
            (bytes.new.items ≡ bytes.old.items ++ application_bytes (id, self.now)) }
    {
        put_u64(bytes, id)?;
        bytes.extend_from_slice(&self.creator.0)?;
        put_string(bytes, self.approval.as_slice())?;
        put_string(bytes, self.clear.as_slice())?;
        put_schema(bytes, self.global_schema)?;
        put_schema(bytes, self.local_schema)?;
        put_state(bytes, &self.state)
    }
}

fn is_same_schema(schema: Schema, other: Schema) -> bool
    ensures { result ≡ is_same_schema schema other }
{
    schema.uints == other.uints && schema.bytes == other.bytes
}

/// A ledger that is being put together, which contracts see as one. Each application and each local state raises the next id
/// above its own.
pub(crate) struct LedgerDraft {
    next_id: u64,
    applications: BTreeMap<u64, ApplicationDraft>,
    local_states: BTreeMap<(Address, u64), State>,
}

/// Written out, so that whoever owns one drops it by one call and not part by part.
impl Drop for LedgerDraft {
    #[inline]
    fn drop(self) {
        let LedgerDraft {
            next_id: _,
            applications: _,
            local_states: _,
        } = self;
    }
}

impl Model for LedgerDraft {
    ghost use Rattle.avm_ledger.specs.Ledgers.{Ledger};

    ghost Value = { Ledger };

    ghost view = { λ l. record { next_id = l.next_id; applications = l.applications.entries; local_states = l.local_states.entries } };
}

impl LedgerDraft {
    /// No applications and no local states, with this next id. It takes no memory.
    pub fn new(alloc: Global, next_id: u64) -> LedgerDraft
        ensures { result ≡ record empty_ledger { next_id = next_id } }
    {
        LedgerDraft {
            next_id,
            applications: BTreeMap::new(alloc),
            local_states: BTreeMap::new(alloc),
        }
    }

    /// The application of an id.
    pub fn application(&self, id: u64) -> Option<&ApplicationDraft>
        ensures { option_copied result ≡ application_at self.now id }
    {
        self.applications.get(&id)
    }

    /// An account's local state of an application.
    pub fn local_state(&self, who: Address, id: u64) -> Option<&State>
        ensures { option_copied result ≡ local_state_at self.now who id }
    {
        self.local_states.get(&(who, id))
    }

    /// The ledger with an application.
    pub fn with_application(
        self,
        id: Id,
        application: ApplicationDraft,
    ) -> Result<LedgerDraft, AllocError>
        ensures { IfOk result (λ l. l ≡ raised id (with_application self id application)) }
    {
        let mut ledger = self;
        ledger.applications.insert(id.number(), application)?;
        ledger.next_id = ledger.next_id.max(id.next());
        Ok(ledger)
    }

    /// The ledger with an account's local state of an application.
    pub fn with_local_state(
        self,
        who: Address,
        id: Id,
        state: State,
    ) -> Result<LedgerDraft, AllocError>
        ensures { IfOk result (λ l. l ≡ raised id (with_local_state self who id state)) }
    {
        let mut ledger = self;
        ledger.local_states.insert((who, id.number()), state)?;
        ledger.next_id = ledger.next_id.max(id.next());
        Ok(ledger)
    }

    /// The ledger's one encoding.
    pub fn canonical(&self, alloc: Global) -> Result<Vec<u8>, AllocError>
        ensures { IfOk result (λ bytes. bytes.items ≡ ledger_bytes self.now) }
    {
        let mut bytes = Vec::new(alloc);
        put_u64(&mut bytes, self.next_id)?;
        self.put_applications(&mut bytes)?;
        self.put_local_states(&mut bytes)?;
        Ok(bytes)
    }

    fn put_applications(&self, bytes: &mut Vec<u8>) -> Result<(), AllocError>
        ensures { OnOk result (bytes.new.items
            ≡ bytes.old.items ++ counted_bytes u32_bytes application_bytes self.now.applications) }
    {
        put_long_count(bytes, self.applications.len())?;
        for (id, application) in self.applications.iter() {
            application.put(bytes, *id)?;
        }
        Ok(())
    }

    fn put_local_states(&self, bytes: &mut Vec<u8>) -> Result<(), AllocError>
        ensures { OnOk result (bytes.new.items
            ≡ bytes.old.items ++ counted_bytes u32_bytes local_state_bytes self.now.local_states) }
    {
        put_long_count(bytes, self.local_states.len())?;
        for (key, state) in self.local_states.iter() {
            put_local_state(bytes, key, state)?;
        }
        Ok(())
    }
}
