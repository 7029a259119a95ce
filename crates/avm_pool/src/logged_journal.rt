//! The journal that knows its log.

ghost use Rattle.std.specs.Prelude.{◌≡◌, ◌+◌, ◌↔◌, ◌≤◌, [], IfErr, IfOk, IsOk, IsTrue, OnErr, OnOk, None, length};
ghost use Rattle.mv_history.specs.Settled.{settled_count};
ghost use Rattle.mv_history.specs.World.{after_abandon, after_begin, fresh_attempt, low_after_prune};
ghost use Rattle.mv_shards.specs.Helds.{ArePruned};
ghost use Rattle.mv_parts.specs.Commits.{AreCovered, IsCommitRefusal, IsForeign, IsOwnCall, MayCommit, reading};
ghost use Rattle.mv_parts.specs.Journals.{IsBeginRefusal, IsLive, begin_fault, first_journal};
ghost use Rattle.avm_pool.specs.Logged.{AreCurrent, IsJournalOver, IsLoggedCommit, IsLoggedRefusal};
ghost use Rattle.mv_parts.specs.Agreeing.{AllAgree};

use crate::commit_log::CommitLog;
use crate::held_notes::{are_current, note_all, renumber};
use crate::logged_held::LoggedHeld;
use crate::naming::Naming;
use avm_run::Finished;
use mv_parts::{BeginError, Entry, Journal, RefusedCommit, every_call_keeps_agreement};
use mv_shards::{Attempt, SHARD_COUNT};
use std::marker::Model;
use teal_value::Failure;

/// A journal, the log of its commits, and for each shard the number of the last commit that read or wrote an item of it.
#[derive(Drop)]
pub struct LoggedJournal<J: Naming> {
    journal: Journal,
    log: CommitLog<J>,
    last: [usize; SHARD_COUNT],
}

impl<J: Naming> Model for LoggedJournal<J> {
    ghost use Rattle.avm_pool.specs.Logged.{IsLoggedJournal, LoggedJournal};

    ghost Value = { LoggedJournal };

    ghost view = { λ j. record { journal = j.journal; log = j.log.entries; last = j.last } };

    ghost invariant = { λ j. IsLoggedJournal J.base J.header J.calls j.journal j.log.entries j.log.room j.last };
}

impl<J: Naming> LoggedJournal<J> {
    /// A journal of which no call has begun, with a log that has no entry and room for all calls.
    pub fn new(journal: Journal, log: CommitLog<J>) -> LoggedJournal<J>
        requires journal { journal ≡ first_journal J.base J.header J.calls }
        requires log { (log.entries ≡ []) × (length J.calls ≤ log.room) }
        ensures journal { (result.journal ≡ journal) × (result.log ≡ []) }
    {
        LoggedJournal {
            journal,
            log,
            last: [0; SHARD_COUNT],
        }
    }

    /// A call begins, as [`Journal::begin`] says.
    pub fn begin(&mut self, number: u32) -> Result<Attempt, BeginError>
        ensures event { OnOk result (self.new.journal
            ≡ record self.old.journal { world = after_begin self.old.journal.world number }) }
        ensures attempt { IfOk result
            (λ attempt. attempt ≡ fresh_attempt number (self.old.journal.world.clock + 1)) }
        ensures begins { OnOk result (begin_fault self.old.journal number ≡ None) }
        ensures unchanged { OnErr result (self.new ≡ self.old) }
        ensures refused { IfErr result (IsBeginRefusal self.old.journal number) }
    {
        self.journal.begin(number)
    }

    /// An attempt ends without a commit, as [`Journal::abandon`] says.
    pub fn abandon(&mut self, attempt: Attempt) -> Result<(), Attempt>
        ensures event { OnOk result (self.new.journal ≡ record self.old.journal
            { world = after_abandon self.old.journal.world attempt.timestamp }) }
        ensures live { IsOk result ↔ IsLive self.old.journal.world attempt }
        ensures unchanged { OnErr result (self.new ≡ self.old) }
        ensures back { IfErr result (λ back. back ≡ attempt) }
    {
        self.journal.abandon(attempt)
    }

    /// Raises the low mark as far as clock and live attempts allow, and that of each shard that is held to the journal's.
    pub fn prune(&mut self, held: &mut LoggedHeld<J>)
        ensures event { self.new.journal ≡ record self.old.journal {
          world = record self.old.journal.world
              { low = low_after_prune self.old.journal.world self.old.journal.world.clock };
        } }
        ensures held { ArePruned
            (low_after_prune self.old.journal.world self.old.journal.world.clock)
            held.old.slots held.new.slots }
    {
        let clock = self.journal.clock();
        held.prune(&mut self.journal, clock);
    }

    /// Whether no commit since has read or written an item of any shard that is held, and each has the journal's low mark. Then
    /// these shards agree with the journal.
    pub fn agrees(&self, held: &LoggedHeld<J>) -> bool
        ensures current { IsTrue result
            ↔ AreCurrent self.now.journal.world.low self.now.last held.now.notes }
        ensures agree { IsTrue result → AllAgree self.now.journal held.now.slots }
    {
        let whole = self.log.prefix();
        are_current(&held.notes, &whole, &self.last, self.journal.low())
    }

    /// An attempt's own call joins the committed ones, as [`Journal::commit_own`] says, and the log. Where a shard that is held
    /// does not agree, which nothing in a program makes happen, it is refused as where memory ran out.
    pub fn commit(
        &mut self,
        held: &mut LoggedHeld<J>,
        attempt: Attempt,
        finished: Finished,
    ) -> Result<u64, RefusedCommit>
        requires covers { AreCovered held.old.slots finished.reads finished.writes }
        requires own { IsOwnCall J.calls J.header (reading attempt finished) finished }
        ensures committed { IfOk result (λ timestamp. (timestamp ≡ attempt.timestamp)
            × MayCommit self.old.journal held.old.slots (reading attempt finished) finished
            × IsLoggedCommit self.old self.new
            held.old held.new (reading attempt finished) finished) }
        ensures refused { IfErr result (λ refused. IsLoggedRefusal
            self.old held.old (reading attempt finished) finished refused.error) }
        ensures none_foreign { IfErr result (λ refused. IsForeign refused.error → ⊥) }
        ensures back { IfErr result (λ refused. (refused.attempt ≡ attempt)
            × (refused.finished ≡ finished)) }
        ensures unchanged { OnErr result ((self.new ≡ self.old) × (held.new ≡ held.old)) }
    {
        if self.agrees(held) {
            return self.commit_current(held, attempt, finished);
        }
        Err(RefusedCommit {
            error: Failure::Memory,
            attempt,
            finished,
        })
    }

    /// The same, where the shards agree.
    fn commit_current(
        &mut self,
        held: &mut LoggedHeld<J>,
        attempt: Attempt,
        finished: Finished,
    ) -> Result<u64, RefusedCommit>
        requires covers { AreCovered held.old.slots finished.reads finished.writes }
        requires own { IsOwnCall J.calls J.header (reading attempt finished) finished }
        requires agree { AllAgree self.old.journal held.old.slots }
        ensures committed { IfOk result (λ timestamp. (timestamp ≡ attempt.timestamp)
            × MayCommit self.old.journal held.old.slots (reading attempt finished) finished
            × IsLoggedCommit self.old self.new
            held.old held.new (reading attempt finished) finished) }
        ensures refused { IfErr result (λ refused. IsCommitRefusal self.old.journal
            held.old.slots (reading attempt finished) finished refused.error) }
        ensures none_foreign { IfErr result (λ refused. IsForeign refused.error → ⊥) }
        ensures back { IfErr result (λ refused. (refused.attempt ≡ attempt)
            × (refused.finished ≡ finished)) }
        ensures unchanged { OnErr result ((self.new ≡ self.old) × (held.new ≡ held.old)) }
    {
        every_call_keeps_agreement();
        self.journal.holds();
        let entry = self
            .log
            .offer(attempt.timestamp(), attempt.number(), &finished);
        match self.journal.commit_own(&mut held.held, attempt, finished) {
            Ok(timestamp) => {
                self.journal.holds();
                self.log.add(entry);
                let whole = self.log.prefix();
                note_all(&mut held.notes, &whole);
                renumber(&mut self.last, &held.notes, whole.len());
                Ok(timestamp)
            }
            Err(refused) => Err(refused),
        }
    }

    /// The journal.
    pub fn journal(&self) -> &Journal
        ensures journal { result.now ≡ self.now.journal }
        ensures over { IsJournalOver J.base J.header J.calls result.now }
    {
        &self.journal
    }

    /// The journal, without its log.
    pub fn into_journal(self) -> Journal
        ensures journal { result ≡ self.journal }
        ensures over { IsJournalOver J.base J.header J.calls result }
    {
        self.journal
    }
}
