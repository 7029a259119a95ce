//! Shards that are held together, each with what it agrees with.

ghost use Rattle.std.specs.Prelude.{◌≡◌, ◌↔◌, IfErr, IfNone, IfSome, IsTrue, None, OnErr, OnOk, Some, get_or, set};
ghost use Rattle.std.proofs.Common.{replicate};
ghost use Rattle.mv_history.specs.World.{low_after_prune};
ghost use Rattle.mv_shards.specs.Helds.{AreFree, AreHeld, ArePruned, IsLastTaken};
ghost use Rattle.mv_shards.specs.Indexes.{shard_count};

use crate::held_notes::{Note, raise};
use crate::logged_shard::LoggedShard;
use crate::naming::Naming;
use avm_items::ItemMap;
use mv_parts::{Journal, every_call_keeps_agreement};
use mv_shards::{Held, SHARD_COUNT};
use std::alloc::Global;
use std::marker::Model;

/// Some of the shards, each at its index, with what each agrees with.
#[derive(Drop)]
pub struct LoggedHeld<J: Naming> {
    pub(crate) held: Held,
    pub(crate) notes: [Note<J>; SHARD_COUNT],
}

impl<J: Naming> Model for LoggedHeld<J> {
    ghost use Rattle.avm_pool.specs.Logged.{AreNoted, LoggedHeld};

    ghost Value = { LoggedHeld };

    ghost view = { λ h. record { slots = h.held; notes = h.notes } };

    ghost invariant = { λ h. AreNoted J.base J.header J.calls h.held h.notes };
}

impl<J: Naming> LoggedHeld<J> {
    /// No shard is held. It takes no memory.
    pub fn new(alloc: Global) -> LoggedHeld<J>
        ensures { result
            ≡ record { slots = replicate shard_count None; notes = replicate shard_count None } }
    {
        LoggedHeld {
            held: Held::new(alloc),
            notes: [
                None, None, None, None, None, None, None, None, None, None, None, None, None, None,
                None, None,
            ],
        }
    }

    /// Holds a shard too, as [`Held::add`] does.
    pub fn add(&mut self, shard: LoggedShard<J>) -> Result<(), LoggedShard<J>>
        ensures ok { OnOk result (self.new ≡ record {
          slots = set self.old.slots shard.shard.index (Some shard.shard);
          notes = set self.old.notes shard.shard.index (Some (shard.shard.low, shard.seen));
        }) }
        ensures err { OnErr result (self.new ≡ self.old) }
        ensures back { IfErr result (λ back. back ≡ shard) }
    {
        let (shard, seen) = shard.into_parts();
        let (index, low) = (usize::from(shard.index()), shard.low());
        match self.held.add(shard) {
            Ok(()) => {
                self.notes[index] = Some((low, seen));
                Ok(())
            }
            Err(shard) => Err(LoggedShard::new(shard, seen)),
        }
    }

    /// Gives the last of the shards that are held back.
    pub fn take(&mut self) -> Option<LoggedShard<J>>
        ensures last { IfSome result
            (λ shard. IsLastTaken self.old.slots self.new.slots shard.shard) }
        ensures seen { IfSome result (λ shard. get_or self.old.notes shard.shard.index None
            ≡ Some (shard.shard.low, shard.seen)) }
        ensures none { IfNone result (AreFree self.old.slots 0 × (self.new ≡ self.old)) }
    {
        let Some(shard) = self.held.take() else {
            return None;
        };
        match self.notes[usize::from(shard.index())].take() {
            Some((_low, seen)) => Some(LoggedShard::new(shard, seen)),
            None => unreachable!(),
        }
    }

    /// Whether the shards of all these items are held.
    pub fn covers(&self, items: &ItemMap) -> bool
        ensures { IsTrue result ↔ AreHeld self.now.slots items.now }
    {
        self.held.covers(items)
    }

    /// Has a journal prune them, as [`Journal::prune`] does.
    pub(crate) fn prune(&mut self, journal: &mut Journal, timestamp: u64)
        ensures event { journal.new ≡ record journal.old
            { world = record journal.old.world { low = low_after_prune journal.old.world timestamp } } }
        ensures held { ArePruned (low_after_prune journal.old.world timestamp)
            self.old.slots self.new.slots }
    {
        every_call_keeps_agreement();
        journal.prune(&mut self.held, timestamp);
        raise(&mut self.notes, journal.low());
    }
}
