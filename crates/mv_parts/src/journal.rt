//! The journal.

ghost use Rattle.std.specs.Prelude.{◌≡◌, ◌+◌, ◌↔◌, ◌<◌, ◌≤◌, length, IfOk, IfErr, IfNone, IfSome, IsOk, IsTrue, OnErr, OnOk, None};
ghost use Rattle.std.specs.Option.{option_copied};
ghost use Rattle.avm_ledger.specs.Ledgers.{IsOrderly};
ghost use Rattle.mv_history.specs.Settled.{settled_count};
ghost use Rattle.mv_history.specs.World.{after_abandon, after_begin, fresh_attempt, low_after_prune};
ghost use Rattle.mv_parts.specs.CallNumbers.{call_of};
ghost use Rattle.mv_parts.specs.SerialCalls.{AreOfCalls, AreSerialCalls};
ghost use Rattle.mv_shards.specs.Helds.{ArePruned};
ghost use Rattle.teal_value.specs.declared.failure.Failure.TheVariants.{Fault, Memory};
ghost use Rattle.mv_parts.specs.Commits.{AreCovered, IsCommitRefusal, IsCommitted, IsForeign, IsOwnCall, IsTestRefusal, IsWriteError, IsWriteRefusal, MayCommit, MayWrite, reading};
ghost use Rattle.mv_parts.specs.CommitTests.{IsOpenAt};
ghost use Rattle.mv_shards.specs.TestedWrites.{IsUnwritten};
ghost use Rattle.mv_parts.specs.Agreeing.{AllAgree};
ghost use Rattle.mv_parts.specs.Journals.{AreLiveCalls, IsBeginRefusal, IsConsistentJournal, IsLive, begin_fault};
ghost use Rattle.avm_block.specs.CallsFaults.{calls_fault};

use crate::begin_fault::{BeginError, BeginFault};
use crate::call_state::CallState;
use crate::commit_fault::{CommitError, CommitFault, RefusedCommit};
use crate::commit_tests::{is_own_call, late, late_fault, moved};
use crate::committing::{entry_of, index_of, insert_entry, write_all, write_tested};
use crate::entry::Entry;
use crate::entry_tests::{late_by_entries, moved_by_entries};
use crate::live::LiveCalls;
use crate::serial_calls::every_consistent_world_of_calls_is_serial;
use avm_call::Call;
use avm_items::ItemMap;
use avm_ledger::{Base, Header, Ledger};
use avm_run::Finished;
use mv_shards::{Attempt, Held, WriteError, WriteFault};
use std::alloc::Global;
use std::marker::Model;
use std::sync::Arc;
use teal_value::Failure;

/// The committed calls by rising timestamp, the clock, and which calls are live.
pub struct Journal {
    pub(crate) alloc: Global,
    pub(crate) base: Arc<Base>,
    pub(crate) header: Header,
    pub(crate) calls: Arc<Vec<Call>>,
    pub(crate) clock: u64,
    pub(crate) low: u64,
    pub(crate) entries: Vec<Entry>,
    pub(crate) states: Vec<CallState>,
    pub(crate) live: LiveCalls,
}

/// Written out, so that whoever owns one drops it by one call and not part by part.
impl Drop for Journal {
    #[inline]
    fn drop(self) {
        let Journal {
            alloc: _,
            base: _,
            header: _,
            calls: _,
            clock: _,
            low: _,
            entries: _,
            states: _,
            live: _,
        } = self;
    }
}

impl Model for Journal {
    ghost use Rattle.std.specs.Arc.{arc_value};
    ghost use Rattle.mv_parts.specs.Journals.{IsKeptJournal, Journal, journal_of};

    ghost Value = { Journal };

    ghost view = { λ j. journal_of (arc_value j.base) j.header (arc_value j.calls).items j.clock j.low j.entries.items j.live };

    ghost invariant = { λ j. IsKeptJournal (arc_value j.base) j.header (arc_value j.calls).items j.clock j.low j.entries.items j.states.items j.live };
}

impl Journal {
    /// A call begins, at the next timestamp. The attempt has read nothing.
    pub fn begin(&mut self, number: u32) -> Result<Attempt, BeginError>
        ensures event { OnOk result
            (self.new ≡ record self.old { world = after_begin self.old.world number }) }
        ensures attempt { IfOk result
            (λ attempt. attempt ≡ fresh_attempt number (self.old.world.clock + 1)) }
        ensures begins { OnOk result (begin_fault self.old number ≡ None) }
        ensures unchanged { OnErr result (self.new ≡ self.old) }
        ensures refused { IfErr result (IsBeginRefusal self.old number) }
    {
        if let Some(fault) = self.begin_fault(number) {
            return Err(Failure::Fault(fault));
        }
        let timestamp = self.clock + 1;
        match self.live.insert(timestamp, number) {
            Ok(()) => {
                self.states[number as usize - 1] = CallState::Live;
                self.clock = timestamp;
                Ok(Attempt::new(self.alloc, number, timestamp))
            }
            Err(_) => Err(Failure::Memory),
        }
    }

    /// Why a call does not begin, other than that memory ran out.
    fn begin_fault(&self, number: u32) -> Option<BeginFault>
        ensures { result ≡ begin_fault self.now number }
    {
        if number == 0 {
            return Some(BeginFault::NoCall);
        }
        match self.states.get(number as usize - 1) {
            None => Some(BeginFault::NoCall),
            Some(CallState::Committed) => Some(BeginFault::Done),
            Some(CallState::Live) => Some(BeginFault::Taken),
            Some(CallState::Idle) => {
                if self.clock == u64::MAX {
                    Some(BeginFault::ClockEnd)
                } else {
                    None
                }
            }
        }
    }

    /// An attempt ends without a commit, and its call may begin again. One that is not live is handed back.
    pub fn abandon(&mut self, attempt: Attempt) -> Result<(), Attempt>
        ensures event { OnOk result (self.new
            ≡ record self.old { world = after_abandon self.old.world attempt.timestamp }) }
        ensures live { IsOk result ↔ IsLive self.old.world attempt }
        ensures unchanged { OnErr result (self.new ≡ self.old) }
        ensures back { IfErr result (λ back. back ≡ attempt) }
    {
        if !self.is_live(&attempt) {
            return Err(attempt);
        }
        self.live.remove(attempt.timestamp());
        self.states[attempt.number() as usize - 1] = CallState::Idle;
        Ok(())
    }

    /// Whether an attempt is live: one of its number, at its timestamp.
    pub fn is_live(&self, attempt: &Attempt) -> bool
        ensures { IsTrue result ↔ IsLive self.now.world attempt.now }
    {
        match self.live.number_at(attempt.timestamp()) {
            Some(number) => number == attempt.number(),
            None => false,
        }
    }

    /// Raises the low mark to a timestamp, as far as the clock and the live attempts allow, and that of each shard that is
    /// held to the journal's. It takes no memory.
    pub fn prune(&mut self, held: &mut Held, timestamp: u64)
        ensures event { self.new ≡ record self.old
            { world = record self.old.world { low = low_after_prune self.old.world timestamp } } }
        ensures held { ArePruned (low_after_prune self.old.world timestamp) held.old held.new }
    {
        let low = self.low_after(timestamp);
        self.low = low;
        held.prune(low);
    }

    /// The low mark after a prune at a timestamp.
    fn low_after(&self, timestamp: u64) -> u64
        ensures { result ≡ low_after_prune self.now.world timestamp }
    {
        let bound = timestamp.min(self.clock);
        match self.live.first() {
            Some((first, _number)) => self.low.max(bound.min(first)),
            None => self.low.max(bound),
        }
    }

    /// How many of the entries, from the first, are settled: those not above the low mark that a prune would make now. They stay
    /// as they are, whatever comes after ([`every_call_keeps_settled_entries`](crate::every_call_keeps_settled_entries)).
    pub fn settled(&self) -> usize
        ensures count { result ≡ settled_count self.now.world }
        ensures few { result ≤ length self.now.world.entries }
    {
        self.holds();
        index_of(&self.entries, self.low_after(self.clock))
    }

    /// A call that has ended joins the committed ones, at its attempt's timestamp, and is written to the shards that are held.
    /// Its reads are checked against the entries, and its writes against the marks of the entries' reads and of the shards'. It
    /// gives the timestamp. Where it is refused, nothing that is seen of either has changed, and what was given is handed back.
    ///
    /// The shards need not agree with the journal, so the entries are asked one by one, for each item: in time that grows with
    /// their number, and for a write with its square. [`commit_agreeing`](Journal::commit_agreeing) asks the shards.
    pub fn commit(
        &mut self,
        held: &mut Held,
        attempt: Attempt,
        finished: Finished,
    ) -> Result<u64, RefusedCommit>
        requires { AreCovered held.old attempt.reads finished.writes }
        ensures committed { IfOk result (λ timestamp. (timestamp ≡ attempt.timestamp)
            × MayCommit self.old held.old attempt finished
            × IsCommitted self.old self.new held.old held.new attempt finished) }
        ensures refused { IfErr result
            (λ refused. IsCommitRefusal self.old held.old attempt finished refused.error) }
        ensures back { IfErr result (λ refused. (refused.attempt ≡ attempt)
            × (refused.finished ≡ finished)) }
        ensures unchanged { OnErr result ((self.new ≡ self.old) × (held.new ≡ held.old)) }
    {
        if let Some(fault) = self.commit_fault(held, &attempt, &finished) {
            return Err(RefusedCommit {
                error: Failure::Fault(fault),
                attempt,
                finished,
            });
        }
        self.write(held, attempt, finished)
    }

    /// The same, where the shards that are held agree with the journal: they alone are asked. So none of them is foreign.
    pub fn commit_agreeing(
        &mut self,
        held: &mut Held,
        attempt: Attempt,
        finished: Finished,
    ) -> Result<u64, RefusedCommit>
        requires covers { AreCovered held.old attempt.reads finished.writes }
        requires agree { AllAgree self.old held.old }
        ensures committed { IfOk result (λ timestamp. (timestamp ≡ attempt.timestamp)
            × MayCommit self.old held.old attempt finished
            × IsCommitted self.old self.new held.old held.new attempt finished) }
        ensures refused { IfErr result
            (λ refused. IsCommitRefusal self.old held.old attempt finished refused.error) }
        ensures none_foreign { IfErr result (λ refused. IsForeign refused.error → ⊥) }
        ensures back { IfErr result (λ refused. (refused.attempt ≡ attempt)
            × (refused.finished ≡ finished)) }
        ensures unchanged { OnErr result ((self.new ≡ self.old) × (held.new ≡ held.old)) }
    {
        if let Some(fault) = self.own_fault(&attempt, &finished) {
            return Err(RefusedCommit {
                error: Failure::Fault(fault),
                attempt,
                finished,
            });
        }
        self.commit_own(held, attempt, finished)
    }

    /// The same, where the call is known to be the attempt's own if what the attempt has read is what the call was given. So
    /// the call's list of reads serves, and the attempt's is not asked.
    pub fn commit_own(
        &mut self,
        held: &mut Held,
        attempt: Attempt,
        finished: Finished,
    ) -> Result<u64, RefusedCommit>
        requires covers { AreCovered held.old finished.reads finished.writes }
        requires agree { AllAgree self.old held.old }
        requires own { IsOwnCall self.old.calls
            self.old.header (reading attempt finished) finished }
        ensures committed { IfOk result (λ timestamp. (timestamp ≡ attempt.timestamp)
            × MayCommit self.old held.old (reading attempt finished) finished
            × IsCommitted self.old self.new held.old held.new (reading attempt finished) finished) }
        ensures refused { IfErr result (λ refused. IsCommitRefusal
            self.old held.old (reading attempt finished) finished refused.error) }
        ensures none_foreign { IfErr result (λ refused. IsForeign refused.error → ⊥) }
        ensures back { IfErr result (λ refused. (refused.attempt ≡ attempt)
            × (refused.finished ≡ finished)) }
        ensures unchanged { OnErr result ((self.new ≡ self.old) × (held.new ≡ held.old)) }
    {
        if !self.is_live(&attempt) {
            return Err(RefusedCommit {
                error: Failure::Fault(CommitFault::Unknown),
                attempt,
                finished,
            });
        }
        let timestamp = attempt.timestamp();
        self.holds();
        held.holds();
        // What a finished call keeps, and the order of the live calls, as their readers say.
        finished.holds();
        let _first = self.live.first();
        match write_tested(&mut self.entries, held, &finished, timestamp) {
            Ok(()) => {
                self.live.remove(timestamp);
                self.states[attempt.number() as usize - 1] = CallState::Committed;
                insert_entry(&mut self.entries, entry_of(self.alloc, &attempt, finished));
                Ok(timestamp)
            }
            Err(error) => Err(RefusedCommit {
                error: self.write_error(
                    held,
                    finished.reads(),
                    finished.writes(),
                    timestamp,
                    error,
                ),
                attempt,
                finished,
            }),
        }
    }

    /// Why it is not written to shards that agree. Where memory ran out, the tests may not have been made.
    fn write_error(
        &self,
        held: &Held,
        reads: &ItemMap,
        writes: &ItemMap,
        timestamp: u64,
        error: WriteError,
    ) -> CommitError
        requires covers { AreCovered held.now reads.now writes.now }
        requires agree { AllAgree self.now held.now }
        requires open { IsOpenAt self.now timestamp }
        requires error { IsUnwritten timestamp reads.now writes.now held.now error }
        ensures error { IsWriteError self.now held.now timestamp reads.now writes.now result }
        ensures not_foreign { IsForeign result → ⊥ }
    {
        self.holds();
        held.holds();
        match error {
            Failure::Fault(WriteFault::Moved(item)) => Failure::Fault(CommitFault::Moved { item }),
            Failure::Fault(WriteFault::Late(item, late)) => {
                Failure::Fault(late_fault(&item, late))
            }
            Failure::Memory => {
                match self.agreeing_write_fault(held, reads, writes, timestamp) {
                    Some(fault) => Failure::Fault(fault),
                    None => Failure::Memory,
                }
            }
        }
    }

    /// Why an attempt does not commit whatever it read and its call wrote: it is not live, or the call is not its own.
    fn own_fault(&self, attempt: &Attempt, finished: &Finished) -> Option<CommitFault>
        ensures some { IfSome result
            (λ fault. (held : _) → IsTestRefusal self.now held attempt.now finished.now fault) }
        ensures not_foreign { IfSome result (λ fault. IsForeign (Fault fault) → ⊥) }
        ensures live { IfNone result (IsLive self.now.world attempt.now) }
        ensures own { IfNone result
            (IsOwnCall self.now.calls self.now.header attempt.now finished.now) }
    {
        if !self.is_live(attempt) {
            return Some(CommitFault::Unknown);
        }
        if is_own_call(&self.calls, &self.header, attempt, finished) {
            None
        } else {
            Some(CommitFault::Stranger)
        }
    }

    /// Why an attempt does not commit, other than that memory ran out, by the entries.
    fn commit_fault(
        &self,
        held: &Held,
        attempt: &Attempt,
        finished: &Finished,
    ) -> Option<CommitFault>
        requires { AreCovered held.now attempt.now.reads finished.now.writes }
        ensures some { IfSome result (IsTestRefusal self.now held.now attempt.now finished.now) }
        ensures none { IfNone result (MayCommit self.now held.now attempt.now finished.now) }
    {
        self.holds();
        match self.own_fault(attempt, finished) {
            Some(fault) => Some(fault),
            None => self.write_fault(
                held,
                attempt.reads(),
                finished.writes(),
                attempt.timestamp(),
            ),
        }
    }

    /// Why a live attempt's own call does not commit, by the entries.
    fn write_fault(
        &self,
        held: &Held,
        reads: &ItemMap,
        writes: &ItemMap,
        timestamp: u64,
    ) -> Option<CommitFault>
        requires covers { AreCovered held.now reads.now writes.now }
        requires open { IsOpenAt self.now timestamp }
        ensures some { IfSome result
            (IsWriteRefusal self.now held.now timestamp reads.now writes.now) }
        ensures none { IfNone result (MayWrite self.now held.now timestamp reads.now writes.now) }
    {
        match moved_by_entries(self.base(), self.entries(), reads, timestamp) {
            Some(item) => Some(CommitFault::Moved { item }),
            None => match held.foreign(writes, timestamp) {
                Some(shard) => Some(CommitFault::Foreign { shard }),
                None => late_by_entries(self.entries(), held, writes, timestamp),
            },
        }
    }

    /// The same, by shards that agree with the journal.
    fn agreeing_write_fault(
        &self,
        held: &Held,
        reads: &ItemMap,
        writes: &ItemMap,
        timestamp: u64,
    ) -> Option<CommitFault>
        requires covers { AreCovered held.now reads.now writes.now }
        requires agree { AllAgree self.now held.now }
        requires open { IsOpenAt self.now timestamp }
        ensures some { IfSome result
            (IsWriteRefusal self.now held.now timestamp reads.now writes.now) }
        ensures not_foreign { IfSome result (λ fault. IsForeign (Fault fault) → ⊥) }
        ensures none { IfNone result (MayWrite self.now held.now timestamp reads.now writes.now) }
    {
        self.holds();
        held.holds();
        match moved(held, reads, timestamp) {
            Some(item) => Some(CommitFault::Moved { item }),
            None => late(held, writes, timestamp),
        }
    }

    /// Commits what passed the tests. Memory is taken before anything changes.
    fn write(
        &mut self,
        held: &mut Held,
        attempt: Attempt,
        finished: Finished,
    ) -> Result<u64, RefusedCommit>
        requires covers { AreCovered held.old attempt.reads finished.writes }
        requires may { MayCommit self.old held.old attempt finished }
        ensures committed { IfOk result (λ timestamp. (timestamp ≡ attempt.timestamp)
            × IsCommitted self.old self.new held.old held.new attempt finished) }
        ensures memory { IfErr result (λ refused. refused.error ≡ Memory) }
        ensures back { IfErr result (λ refused. (refused.attempt ≡ attempt)
            × (refused.finished ≡ finished)) }
        ensures unchanged { OnErr result ((self.new ≡ self.old) × (held.new ≡ held.old)) }
    {
        let timestamp = attempt.timestamp();
        // What a finished call keeps, and the order of the live calls, as their readers say.
        finished.holds();
        let _first = self.live.first();
        match write_all(&mut self.entries, held, &attempt, &finished) {
            Ok(()) => {
                self.live.remove(timestamp);
                self.states[attempt.number() as usize - 1] = CallState::Committed;
                insert_entry(&mut self.entries, entry_of(self.alloc, &attempt, finished));
                Ok(timestamp)
            }
            Err(_) => Err(RefusedCommit {
                error: Failure::Memory,
                attempt,
                finished,
            }),
        }
    }

    /// The ledger before all calls.
    pub fn base(&self) -> &Ledger
        ensures { result.now ≡ self.now.base }
    {
        self.base.ledger()
    }

    /// The header under which the calls are made.
    pub fn header(&self) -> &Header
        ensures { result.now ≡ self.now.header }
    {
        &self.header
    }

    /// All calls, in the order of their numbers.
    pub fn calls(&self) -> &[Call]
        ensures { result.now ≡ self.now.calls }
    {
        self.calls.as_slice()
    }

    /// The call of a number, from 1.
    pub fn call(&self, number: u32) -> Option<&Call>
        ensures { option_copied result ≡ call_of self.now.calls number }
    {
        if number == 0 {
            return None;
        }
        self.calls.get(number as usize - 1)
    }

    /// The last timestamp given.
    pub fn clock(&self) -> u64
        ensures { result ≡ self.now.world.clock }
    {
        self.clock
    }

    /// The low mark: no state below it is asked for any more.
    pub fn low(&self) -> u64
        ensures { result ≡ self.now.world.low }
    {
        self.low
    }

    /// The committed calls, by rising timestamp.
    pub fn entries(&self) -> &[Entry]
        ensures { result.now ≡ self.now.world.entries }
    {
        self.entries.as_slice()
    }

    /// What every journal keeps, whatever was done with it: the committed calls are those of one thread, by rising
    /// timestamp. It does no work.
    pub fn holds(&self)
        ensures serial { AreSerialCalls self.now.base
            self.now.header self.now.calls self.now.world }
        ensures orderly { IsOrderly self.now.base }
        ensures opened { calls_fault self.now.header self.now.calls ≡ None }
        ensures consistent { IsConsistentJournal self.now }
        ensures are_calls { AreOfCalls self.now.calls self.now.world.entries }
        ensures live_calls { AreLiveCalls self.now.calls self.now.world.live }
        ensures few { length self.now.world.entries ≤ length self.now.calls }
    {
        let _clock = self.clock;
        every_consistent_world_of_calls_is_serial();
    }
}
