//! Calls that have ended.

ghost use Rattle.std.specs.Prelude.{◌≡◌, Ok};
ghost use Rattle.avm_ledger.specs.declared.header.Header.{Header as BlockHeader};
ghost use Rattle.avm_items.specs.declared.call_data.CallData.{CallData as Fields};
ghost use Rattle.avm_items.specs.Items.{Known, Look, value_in};
ghost use Rattle.avm_items.specs.Locality.{LookAgrees, Extends};
ghost use Rattle.avm_call.specs.AskedFor.{AreAskedFor};
ghost use Rattle.avm_run.specs.Results.{IsResult, ResultOverMore, ResultOnLedgers};

use crate::running::{Spare, keep_room};
use avm_call::{Call, Outcome};
use avm_items::ItemMap;
use avm_ledger::Header;
use std::alloc::Global;
use std::marker::Model;

/// A call that has ended, with the items that it read, those that it wrote, and its outcome. The definition of the call,
/// over the items read alone, gives this outcome and these writes, so every ledger that agrees with them does.
pub struct Finished {
    call: Call,
    header: Header,
    reads: ItemMap,
    writes: ItemMap,
    outcome: Outcome,
}

/// Written out, so that whoever owns one drops it by one call and not part by part.
impl Drop for Finished {
    #[inline]
    fn drop(self) {
        let Finished {
            call: _,
            header: _,
            reads: _,
            writes: _,
            outcome: _,
        } = self;
    }
}

impl Model for Finished {
    ghost use Rattle.avm_run.specs.Results.{CallRecord, IsFinishedCall};

    ghost Value = { CallRecord };

    ghost view = { λ f. record { call = f.call; header = f.header; reads = f.reads; writes = f.writes; outcome = f.outcome } };

    ghost invariant = { λ f. IsFinishedCall (record { call = f.call; header = f.header; reads = f.reads; writes = f.writes; outcome = f.outcome }) };
}

impl Finished {
    pub(crate) fn new(
        call: Call,
        header: Header,
        reads: ItemMap,
        writes: ItemMap,
        outcome: Outcome,
    ) -> Finished
        requires result { IsResult call header reads outcome writes }
        requires asked { AreAskedFor reads call header }
        ensures { result ≡ record {
          call = call;
          header = header;
          reads = reads;
          writes = writes;
          outcome = outcome;
        } }
    {
        Finished {
            call,
            header,
            reads,
            writes,
            outcome,
        }
    }

    /// The call.
    pub fn call(&self) -> &Call
        ensures { result.now ≡ self.now.call }
    {
        &self.call
    }

    /// The header of the block for which it ran.
    pub fn header(&self) -> &Header
        ensures { result.now ≡ self.now.header }
    {
        &self.header
    }

    /// The items that it was given.
    pub fn reads(&self) -> &ItemMap
        ensures { result.now ≡ self.now.reads }
    {
        &self.reads
    }

    /// The items that it writes; none has the value that it was given.
    pub fn writes(&self) -> &ItemMap
        ensures { result.now ≡ self.now.writes }
    {
        &self.writes
    }

    /// The same, with lists that have no room for more. The room that they had is left for the next call.
    pub(crate) fn fitted(self, alloc: Global, spare: &mut Option<Spare>) -> Finished
        ensures { result ≡ self }
    {
        let Finished {
            call,
            header,
            reads,
            writes,
            outcome,
        } = self;
        let (reads, reads_room) = reads.fitted(alloc);
        let (writes, writes_room) = writes.fitted(alloc);
        keep_room(spare, reads_room, writes_room);
        Finished {
            call,
            header,
            reads,
            writes,
            outcome,
        }
    }

    /// The items that it was given and those that it writes, without a copy.
    pub fn into_lists(self) -> (ItemMap, ItemMap)
        ensures { (result.0 ≡ self.reads) × (result.1 ≡ self.writes) }
    {
        let Finished {
            call: _,
            header: _,
            reads,
            writes,
            outcome: _,
        } = self;
        (reads, writes)
    }

    /// How the call ended.
    pub fn outcome(&self) -> Outcome
        ensures { result ≡ self.now.outcome }
    {
        self.outcome
    }

    /// That the definition of the call gives this outcome, and writes of which these are left where what was given is
    /// taken out: over the items read, over all that is known beside them, and on every ledger that agrees with them. The
    /// call asks for each item that it was given.
    pub fn holds(&self)
        ensures over_reads { IsResult self.now.call
            self.now.header self.now.reads self.now.outcome self.now.writes }
        ensures over_more { ResultOverMore self.now }
        ensures on_ledgers { ResultOnLedgers self.now }
        ensures asked { AreAskedFor self.now.reads self.now.call self.now.header }
    {
        let _outcome = &self.outcome;
    }
}
