//! The journal and the shards of a draft, before any call has begun.

ghost use Rattle.std.specs.Prelude.{◌≡◌, [], IfOk, None};
ghost use Rattle.std.specs.Arc.{arc_value};
ghost use Rattle.avm_block.specs.CallsFaults.{calls_fault};
ghost use Rattle.mv_parts.specs.Journals.{first_journal};
ghost use Rattle.mv_parts.specs.Opening.{first_slots};
ghost use Rattle.mv_parts.specs.Agreeing.{AllAgree};

use crate::block_prefix::BlockPrefix;
use crate::commit_log::{CommitLog, OpenedLog};
use crate::draft::SharedDraft;
use crate::locked_work::ShardLock;
use crate::logged_journal::LoggedJournal;
use crate::logged_shard::LoggedShard;
use crate::naming::Naming;
use mv_parts::{Journal, every_call_keeps_agreement, open_on};
use mv_shards::{Held, SHARD_COUNT};
use std::alloc::{AllocError, Global};
use std::sync::{Arc, Mutex};
use teal_value::Failure;

impl<'a> SharedDraft<'a> {
    /// What stands before all calls of the draft in a block, if there are several workers, who go ahead with it.
    pub fn prefix(&self, workers: usize) -> Result<Option<BlockPrefix>, AllocError> {
        if workers < 2 {
            return Ok(None);
        }
        let prefix = BlockPrefix::begin(self.alloc, self.base.digest(), &self.header, &self.calls)?;
        Ok(Some(prefix))
    }

    /// A journal of which no call has begun, and its shards behind locks of their own.
    pub fn open<J: Naming>(
        &self,
        log: OpenedLog,
    ) -> Result<(LoggedJournal<J>, Vec<ShardLock<J>>), AllocError>
        requires opens { calls_fault self.now.header (arc_value self.now.calls).items ≡ None }
        requires book { log.seen.book ≡ J.book }
        requires draft { (arc_value self.now.base.now ≡ J.base) × (self.now.header ≡ J.header)
            × ((arc_value self.now.calls).items ≡ J.calls) }
    {
        let log = log.named::<J>(self.alloc, self.calls.len())?;
        let (journal, held) = self.open_held()?;
        every_call_keeps_agreement();
        let shards = locked(self.alloc, held, &log)?;
        Ok((LoggedJournal::new(journal, log), shards))
    }

    /// The journal, and its shards held together.
    fn open_held(&self) -> Result<(Journal, Held), AllocError>
        requires opens { calls_fault self.now.header (arc_value self.now.calls).items ≡ None }
        ensures journal { IfOk result (λ opened. opened.0 ≡ first_journal (arc_value self.now.base.now)
            self.now.header (arc_value self.now.calls).items) }
        ensures shards { IfOk result (λ opened. opened.1 ≡ first_slots (arc_value self.now.base.now)) }
    {
        let base = Arc::try_clone(self.base)?;
        let calls = Arc::try_clone(&self.calls)?;
        match open_on(self.alloc, base, self.header, calls) {
            Ok(opened) => Ok(opened),
            Err(Failure::Memory) => Err(AllocError),
            Err(Failure::Fault(_fault)) => unreachable!(),
        }
    }
}

/// Each of the shards behind a lock of its own, by index.
fn locked<J: Naming>(
    alloc: Global,
    mut held: Held,
    log: &CommitLog<J>,
) -> Result<Vec<ShardLock<J>>, AllocError>
    requires empty { log.now.entries ≡ [] }
    requires agree { AllAgree (first_journal J.base J.header J.calls) held }
{
    let mut shards = Vec::with_capacity(alloc, SHARD_COUNT)?;
    for _ in 0..SHARD_COUNT {
        shards.push(Mutex::new(take(&mut held, log)))?;
    }
    shards.reverse();
    Ok(shards)
}

/// The last of the shards, which agrees with a log that has no entry.
fn take<J: Naming>(held: &mut Held, log: &CommitLog<J>) -> Option<LoggedShard<J>>
    requires empty { log.now.entries ≡ [] }
    requires agree { AllAgree (first_journal J.base J.header J.calls) held.old }
    ensures { AllAgree (first_journal J.base J.header J.calls) held.new }
{
    match held.take() {
        Some(shard) => Some(LoggedShard::new(shard, log.prefix())),
        None => None,
    }
}
