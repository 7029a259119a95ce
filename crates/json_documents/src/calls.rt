//! Calls that were read.

ghost use Rattle.std.specs.Prelude.{◌≡◌, ◌++◌, ◌∷◌, [], IfOk, length};
ghost use Rattle.json_documents.specs.Transactions.{empty_batch, with_call};

use crate::groups::Groups;
use avm_call::Call;
use avm_items::CallData;
use std::alloc::{AllocError, Global};
use std::marker::Model;
use std::sync::Arc;

/// The fields of a call, which contracts see as such. The programs that it brings are not kept decoded.
#[derive(Drop)]
pub(crate) struct SharedCall {
    fields: Arc<CallData>,
}

impl Model for SharedCall {
    ghost use Rattle.std.specs.Arc.{arc_value};
    ghost use Rattle.avm_items.specs.declared.call_data.CallData.{CallData};

    ghost Value = { CallData };

    ghost view = { λ c. arc_value c.fields };
}

impl SharedCall {
    /// The fields of a call, shared with it.
    pub fn of(call: &Call) -> Result<SharedCall, AllocError>
        ensures { IfOk result (λ fields. fields ≡ call.now) }
    {
        Ok(SharedCall {
            fields: call.shared_fields()?,
        })
    }

    /// What the call says.
    pub fn fields(&self) -> &CallData
        ensures { result.now ≡ self.now }
    {
        &self.fields
    }
}

/// Calls, which contracts see as the list of their fields.
#[derive(Drop)]
pub(crate) struct Calls {
    calls: Vec<SharedCall>,
}

impl Model for Calls {
    ghost use Rattle.std.specs.Prelude.{List};
    ghost use Rattle.avm_items.specs.declared.call_data.CallData.{CallData};

    ghost Value = { List CallData };

    ghost view = { λ c. c.calls.items };
}

impl Calls {
    /// No calls. They take no memory.
    pub fn new(alloc: Global) -> Calls
        ensures { result ≡ [] }
    {
        Calls {
            calls: Vec::new(alloc),
        }
    }

    /// How many there are.
    pub fn len(&self) -> usize
        ensures { result ≡ length self.now }
    {
        self.calls.len()
    }

    /// The calls, lent.
    pub fn as_slice(&self) -> &[SharedCall]
        ensures { result.now ≡ self.now }
    {
        self.calls.as_slice()
    }

    /// The calls with one more.
    fn with(self, call: SharedCall) -> Result<Calls, AllocError>
        ensures { IfOk result (λ calls. calls ≡ self ++ call ∷ []) }
    {
        let mut calls = self.calls;
        calls.push(call)?;
        Ok(Calls { calls })
    }
}

/// The calls of transactions, and their groups.
pub(crate) struct Batch {
    calls: Calls,
    groups: Groups,
}

/// Written out, so that whoever owns one drops it by one call and not part by part.
impl Drop for Batch {
    #[inline]
    fn drop(self) {
        let Batch {
            calls: _,
            groups: _,
        } = self;
    }
}

impl Model for Batch {
    ghost use Rattle.json_documents.specs.Transactions.{Batch as CallBatch};

    ghost Value = { CallBatch };

    ghost view = { λ b. record { calls = b.calls; groups = b.groups } };
}

impl Batch {
    /// No calls. They take no memory.
    pub fn new(alloc: Global) -> Batch
        ensures { result ≡ empty_batch }
    {
        Batch {
            calls: Calls::new(alloc),
            groups: Groups::new(alloc),
        }
    }

    /// How many calls there are.
    pub fn len(&self) -> usize
        ensures { result ≡ length self.now.calls }
    {
        self.calls.len()
    }

    /// The groups.
    pub fn groups(&self) -> &Groups
        ensures { result.now ≡ self.now.groups }
    {
        &self.groups
    }

    /// The batch with one call more, and its group, if it has one.
    pub fn with(self, call: SharedCall, group: Option<[u8; 32]>) -> Result<Batch, AllocError>
        ensures { IfOk result (λ batch. batch ≡ with_call self call group) }
    {
        let Batch { calls, groups } = self;
        Ok(Batch {
            calls: calls.with(call)?,
            groups: groups.with(group)?,
        })
    }

    /// The calls alone.
    pub fn into_calls(self) -> Calls
        ensures { result ≡ self.calls }
    {
        let Batch { calls, groups: _ } = self;
        calls
    }
}
