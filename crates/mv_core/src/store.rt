//! Stores.

ghost use Rattle.std.specs.Prelude.{◌≡◌, ◌⊎◌, ◌↔◌, ◌<◌, ◌+◌, suc, None, IfErr, IfOk, IsErrOf, OnErr, OnOk, length};
ghost use Rattle.std.specs.Option.{option_copied};
ghost use Rattle.teal_value.specs.declared.failure.Failure.TheVariants.{Fault};
ghost use Rattle.avm_items.specs.LedgerItems.{at};
ghost use Rattle.avm_laws.specs.LedgerLooks.{IsOfLedger};
ghost use Rattle.mv_history.specs.History.{entries_below};
ghost use Rattle.mv_history.specs.Schedule.{IsConsistentWorld};
ghost use Rattle.mv_history.specs.World.{after_abandon, after_begin};
ghost use Rattle.mv_chain.specs.Stores.{HoldEntries};
ghost use Rattle.mv_parts.specs.CallHistory.{meaning_of, same_item};
ghost use Rattle.mv_parts.specs.CallNumbers.{call_of};
ghost use Rattle.mv_parts.specs.SerialCalls.{AreSerialCalls, ledger_of};
ghost use Rattle.mv_shards.specs.Writing.{versions_for};
ghost use Rattle.mv_parts.specs.Journals.{IsBeginRefusal, begin_fault};
ghost use Rattle.mv_core.specs.declared.faults.ReadFault.TheVariants.{Unknown};
ghost use Rattle.mv_core.specs.declared.faults.StateFault.TheVariants.{Pruned};
ghost use Rattle.mv_core.specs.AttemptSlots.{HasLiveNumber};
ghost use Rattle.std.specs.Arc.{arc_value};
ghost use Rattle.avm_block.specs.CallsFaults.{IsCallsRefusal, calls_fault};
ghost use Rattle.mv_core.specs.Calls.{as_journal, first_store};
ghost use Rattle.mv_core.specs.Commits.{IsCommitRefusal, IsCommitted, MayCommit};
ghost use Rattle.mv_core.specs.Stores.{IsFirstRead, IsPrune, IsReadAgain};

use crate::committing::{commit_at, store_error};
use crate::faults::{
    AbandonFault, CommitFault, ReadError, ReadFault, RefusedCommit, StateError, StateFault,
};
use crate::opening::empty_slots;
use crate::reading::read_at;
use crate::ticket::{Ticket, index_of};
use avm_block::CallsError;
use avm_call::Call;
use avm_items::{Item, ItemValue};
use avm_ledger::{Header, Ledger};
use avm_run::Finished;
use mv_parts::{BeginError, Entry, Journal, every_consistent_world_of_calls_is_serial, open_parts};
use mv_shards::{Attempt, Held};
use std::alloc::Global;
use std::marker::Model;
use std::sync::Arc;
use teal_value::Failure;

/// A journal, all shards, and a slot for the attempt of each call.
#[derive(Drop)]
pub struct Store {
    pub(crate) journal: Journal,
    pub(crate) held: Held,
    pub(crate) attempts: Vec<Option<Attempt>>,
}

impl Model for Store {
    ghost use Rattle.mv_core.specs.Calls.{IsKeptByJournal, shown_by};
    ghost use Rattle.mv_core.specs.SeenStores.{Store};

    ghost Value = { Store };

    ghost view = { λ s. shown_by s.journal s.held s.attempts.items };

    ghost invariant = { λ s. IsKeptByJournal s.journal s.held s.attempts.items };
}

impl Store {
    /// A store in which nothing has begun. It takes the memory for the attempts of all calls.
    pub fn open(
        alloc: Global,
        base: Ledger,
        header: Header,
        calls: Arc<Vec<Call>>,
    ) -> Result<Store, CallsError>
        ensures opened { IfOk result
            (λ store. store ≡ first_store base header (arc_value calls).items) }
        ensures opens { OnOk result (calls_fault header (arc_value calls).items ≡ None) }
        ensures refused { IfErr result (IsCallsRefusal header (arc_value calls).items) }
    {
        let count = calls.len();
        base.holds();
        match open_parts(alloc, base, header, calls) {
            Ok((journal, held)) => match empty_slots(alloc, count) {
                Ok(attempts) => Ok(Store {
                    journal,
                    held,
                    attempts,
                }),
                Err(_) => Err(Failure::Memory),
            },
            Err(refused) => Err(refused),
        }
    }

    /// A call begins, at the next timestamp.
    pub fn begin(&mut self, number: u32) -> Result<Ticket, BeginError>
        ensures event { OnOk result
            (self.new ≡ record self.old { world = after_begin self.old.world number }) }
        ensures ticket { IfOk result
            (λ ticket. ticket ≡ record { number = number; timestamp = self.old.world.clock + 1 }) }
        ensures begins { OnOk result (begin_fault (as_journal self.old) number ≡ None) }
        ensures unchanged { OnErr result (self.new ≡ self.old) }
        ensures refused { IfErr result (IsBeginRefusal (as_journal self.old) number) }
    {
        match self.journal.begin(number) {
            Ok(attempt) => {
                let timestamp = attempt.timestamp();
                self.attempts[number as usize - 1] = Some(attempt);
                Ok(Ticket { number, timestamp })
            }
            Err(refused) => Err(refused),
        }
    }

    /// Reads an item at the timestamp of a live attempt, and marks the version that is found. An item that the attempt has
    /// read gives its value again.
    pub fn read(&mut self, ticket: &Ticket, item: Item) -> Result<ItemValue, ReadError>
        ensures ok { IfOk result (λ value.
            IsFirstRead self.old self.new ticket.now.number ticket.now.timestamp item value
            ⊎ IsReadAgain self.old self.new ticket.now.number ticket.now.timestamp item value) }
        ensures unchanged { OnErr result (self.new ≡ self.old) }
        ensures unknown { IsErrOf result (Fault Unknown)
            ↔ (HasLiveNumber self.old.world.live ticket.now.number ticket.now.timestamp → ⊥) }
    {
        match index_of(&self.attempts, ticket) {
            Some(index) => match read_at(&mut self.held, &mut self.attempts, index, item) {
                Ok(value) => Ok(value),
                Err(Failure::Memory) => Err(Failure::Memory),
                Err(Failure::Fault(_pruned)) => unreachable!(),
            },
            None => Err(Failure::Fault(ReadFault::Unknown)),
        }
    }

    /// A call that has ended joins the committed ones, at its attempt's timestamp, which is answered. Where it is refused,
    /// nothing has changed, and the call is handed back. All memory is taken before the first change.
    pub fn commit(&mut self, ticket: &Ticket, finished: Finished) -> Result<u64, RefusedCommit>
        ensures timestamp { IfOk result (λ timestamp. timestamp ≡ ticket.now.timestamp) }
        ensures may { OnOk result
            (MayCommit self.old ticket.now.number ticket.now.timestamp finished) }
        ensures committed { OnOk result
            (IsCommitted self.old self.new ticket.now.number ticket.now.timestamp finished) }
        ensures refused { IfErr result (λ refused. IsCommitRefusal self.old
            ticket.now.number ticket.now.timestamp finished refused.error) }
        ensures back { IfErr result (λ refused. refused.finished ≡ finished) }
        ensures unchanged { OnErr result (self.new ≡ self.old) }
    {
        match index_of(&self.attempts, ticket) {
            Some(index) => {
                // What a finished call and a journal keep, as they say.
                finished.holds();
                self.journal.holds();
                match commit_at(
                    &mut self.journal,
                    &mut self.held,
                    &mut self.attempts,
                    index,
                    finished,
                ) {
                    Ok(timestamp) => Ok(timestamp),
                    Err(refused) => Err(RefusedCommit {
                        error: store_error(refused.error),
                        finished: refused.finished,
                    }),
                }
            }
            None => Err(RefusedCommit {
                error: Failure::Fault(CommitFault::Unknown),
                finished,
            }),
        }
    }

    /// A live attempt ends, and leaves its marks.
    pub fn abandon(&mut self, ticket: &Ticket) -> Result<(), AbandonFault>
        ensures event { OnOk result (self.new
            ≡ record self.old { world = after_abandon self.old.world ticket.now.timestamp }) }
        ensures live { OnOk result
            (HasLiveNumber self.old.world.live ticket.now.number ticket.now.timestamp) }
        ensures unknown { OnErr result
            (HasLiveNumber self.old.world.live ticket.now.number ticket.now.timestamp → ⊥) }
        ensures unchanged { OnErr result (self.new ≡ self.old) }
    {
        match index_of(&self.attempts, ticket) {
            Some(index) => match self.attempts[index].take() {
                Some(attempt) => match self.journal.abandon(attempt) {
                    Ok(()) => Ok(()),
                    Err(_back) => unreachable!(),
                },
                None => unreachable!(),
            },
            None => Err(AbandonFault::Unknown),
        }
    }

    /// Raises the low mark to a timestamp, as far as the clock and the live attempts allow, and drops the versions that no
    /// read from there on can find. It takes no memory.
    pub fn prune(&mut self, timestamp: u64)
        ensures { IsPrune self.old self.new timestamp }
    {
        self.journal.prune(&mut self.held, timestamp);
    }

    /// The ledger after the committed calls with timestamps up to this one.
    pub fn state_at(&self, alloc: Global, timestamp: u64) -> Result<Ledger, StateError>
        ensures ledger { IfOk result (λ ledger. ledger ≡ ledger_of self.now.base
            self.now.header self.now.calls (entries_below (suc timestamp) self.now.world.entries)) }
        ensures pruned { IsErrOf result (Fault Pruned) ↔ timestamp < self.now.world.low }
    {
        if timestamp < self.journal.low() {
            return Err(Failure::Fault(StateFault::Pruned));
        }
        Ok(self.journal.ledger_at(alloc, timestamp)?)
    }

    /// How many versions of an item are held: one where no commit has written it. It takes no memory, and looks only at
    /// the item's own versions.
    pub fn versions(&self, item: &Item) -> usize
        ensures { result ≡ length (versions_for self.now.shard_slots item.now) }
    {
        self.held.version_count(item)
    }

    /// The ledger before all calls.
    pub fn base(&self) -> &Ledger
        ensures { result.now ≡ self.now.base }
    {
        self.journal.base()
    }

    /// The call of a number, from 1.
    pub fn call(&self, number: u32) -> Option<&Call>
        ensures { option_copied result ≡ call_of self.now.calls number }
    {
        self.journal.call(number)
    }

    /// The committed calls, by rising timestamp.
    pub fn entries(&self) -> &[Entry]
        ensures { result.now ≡ self.now.world.entries }
    {
        self.journal.entries()
    }

    /// The low mark: there is no state below it any more.
    pub fn low(&self) -> u64
        ensures { result ≡ self.now.world.low }
    {
        self.journal.low()
    }

    /// The header that the calls are made under.
    pub fn header(&self) -> &Header
        ensures { result.now ≡ self.now.header }
    {
        self.journal.header()
    }

    /// What every store keeps: its committed calls, by rising timestamp, are those of one thread, and each version that it
    /// holds is an entry's. It does no work.
    pub fn holds(&self)
        ensures serial { AreSerialCalls self.now.base
            self.now.header self.now.calls self.now.world }
        ensures consistent { IsConsistentWorld same_item IsOfLedger
            (meaning_of self.now.header self.now.calls) (at self.now.base) self.now.world }
        ensures versions { HoldEntries (λ value. value) same_item (at self.now.base)
            self.now.world.low self.now.world.entries (versions_for self.now.shard_slots) }
    {
        let _count = self.attempts.len();
        every_consistent_world_of_calls_is_serial();
    }
}
