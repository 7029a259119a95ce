//! Shards that are held together.

ghost use Rattle.std.specs.Prelude.{◌≡◌, ◌<◌, ◌≤◌, false, ◌⊎◌, ◌↔◌, None, Some, IfErr, IfOk, IfNone, IfSome, IsErrOf, IsOk, IsSome, IsTrue, OnErr, OnOk, get_or, length, set, ◌-◌};
ghost use Rattle.std.proofs.Common.{replicate};
ghost use Rattle.teal_value.specs.declared.failure.Failure.TheVariants.{Fault};
ghost use Rattle.mv_shards.specs.declared.read_fault.ReadFault.TheVariants.{Pruned};
ghost use Rattle.mv_shards.specs.Indexes.{shard_count};
ghost use Rattle.mv_shards.specs.Helds.{AreAtIndexes, AreFree, AreHeld, IsHeld, IsHeldPruned, IsHeldRead, IsLastTaken, IsTakenFrom, ArePruned};
ghost use Rattle.mv_shards.specs.KeptHelds.{AreInSlots, AreFreeFrom, IsEnd, IsShardStateOrNone, seen_all, seen_or_none};
ghost use Rattle.avm_items.specs.SameValues.{is_same_value};
ghost use Rattle.mv_shards.specs.Writing.{AreLow, AreWritten, CanTake, IsFirstForeign, IsLowAt, NoneForeign, versions_for};
ghost use Rattle.mv_shards.specs.TestedWrites.{IsTestedWrite, IsUnwritten};
ghost use Rattle.mv_shards.specs.SlotWriting.{IsAbove, IsLeastWith, has_timestamp_in};
ghost use Rattle.mv_chain.specs.Versions.{lateness, newest_at};

use crate::attempt::Attempt;
use crate::commit_scratch::{CommitScratch, StateSlots};
use crate::index::{SHARD_COUNT, shard_of};
use crate::read_fault::ReadError;
use crate::shard::Shard;
use crate::shard_state::{ShardState, has_value, has_version, late, prune, read, version_count};
use crate::write_fault::WriteError;
use crate::writing::{write_parts, write_tested_parts};
use avm_items::{Item, ItemMap, ItemValue};
use mv_chain::Late;
use std::alloc::{AllocError, Global};
use std::marker::Model;

/// Some of the shards, each at its index.
pub struct Held {
    parts: StateSlots,
    /// One more than the index of the last part, or 0 where there is none.
    end: usize,
    /// Where a commit finds its chains. Nothing rests on it between commits.
    scratch: CommitScratch,
}

/// Written out, so that whoever owns one drops it by one call and not part by part.
impl Drop for Held {
    #[inline]
    fn drop(self) {
        let Held {
            parts: _,
            end: _,
            scratch: _,
        } = self;
    }
}

impl Model for Held {
    ghost use Rattle.mv_shards.specs.Helds.{ShardSlots};
    ghost use Rattle.mv_shards.specs.KeptHelds.{AreInSlots, IsEnd, seen_all};

    ghost Value = { ShardSlots };

    ghost view = { λ h. seen_all h.parts };

    ghost invariant = { λ h. AreInSlots h.parts × IsEnd h.parts h.end };
}

impl Held {
    /// No shard is held. It takes no memory.
    pub fn new(alloc: Global) -> Held
        ensures { result ≡ replicate shard_count None }
    {
        Held {
            parts: [
                None, None, None, None, None, None, None, None, None, None, None, None, None, None,
                None, None,
            ],
            end: 0,
            scratch: CommitScratch::new(alloc),
        }
    }

    /// Holds a shard too. Shards are added by rising index, as they are locked: one that is not above all that are
    /// held is handed back.
    #[inline]
    pub fn add(&mut self, shard: Shard) -> Result<(), Shard>
        ensures ok { OnOk result (AreFree self.old shard.index
            × (self.new ≡ set self.old shard.index (Some shard))) }
        ensures err { OnErr result (IsTakenFrom self.old shard.index × (self.new ≡ self.old)) }
        ensures back { IfErr result (λ back. back ≡ shard) }
    {
        let index = usize::from(shard.index());
        if index < self.end {
            return Err(shard);
        }
        // There is no part to be dropped.
        match self.parts[index].replace(shard.part) {
            None => {}
            Some(_part) => unreachable!(),
        }
        self.end = index + 1;
        Ok(())
    }

    /// Gives the last of the shards that are held back.
    pub fn take(&mut self) -> Option<Shard>
        ensures last { IfSome result (IsLastTaken self.old self.new) }
        ensures none { IfNone result (AreFree self.old 0 × (self.new ≡ self.old)) }
    {
        if self.end == 0 {
            return None;
        }
        let last = self.end - 1;
        match self.parts[last].take() {
            Some(part) => {
                self.end = end_of(&self.parts, last);
                Some(Shard { part })
            }
            None => unreachable!(),
        }
    }

    /// Whether the shards of all these items are held.
    pub fn covers(&self, items: &ItemMap) -> bool
        ensures { IsTrue result ↔ AreHeld self.now items.now }
    {
        for (item, _value) in items.as_slice() {
            if self.parts[usize::from(shard_of(item))].is_none() {
                return false;
            }
        }
        true
    }

    /// What all shards keep that are held together: each stands at its index. It does no work.
    pub fn holds(&self)
        ensures { AreAtIndexes self.now }
    {
        let _end = self.end;
    }

    /// Reads an item of the item's shard, as [`Shard::read`] does.
    pub fn read(&mut self, attempt: &mut Attempt, item: Item) -> Result<ItemValue, ReadError>
        requires { IsHeld self.old item }
        ensures ok { IfOk result
            (λ value. IsHeldRead self.old self.new attempt.old attempt.new item value) }
        ensures pruned { IsErrOf result (Fault Pruned) ↔ IsHeldPruned self.old attempt.old item }
        ensures unchanged { OnErr result (self.new ≡ self.old) }
        ensures attempt { OnErr result (attempt.new ≡ attempt.old) }
    {
        let index = usize::from(shard_of(&item));
        match &mut self.parts[index] {
            Some(part) => read(part, attempt, item),
            None => unreachable!(),
        }
    }

    /// Whether a write of an item at a timestamp is late: the version that it would follow was read above it. The
    /// evidence is that version and its mark.
    pub fn late(&self, item: &Item, timestamp: u64) -> Option<Late>
        requires held { IsHeld self.now item.now }
        requires low { AreLow timestamp self.now }
        ensures { (d : _)
            → result ≡ lateness timestamp (newest_at timestamp (versions_for self.now item.now) d) }
    {
        match &self.parts[usize::from(shard_of(item))] {
            Some(part) => late(part, item, timestamp),
            None => unreachable!(),
        }
    }

    /// Whether the newest version of an item not above a timestamp has this value. Nothing is copied.
    pub fn has_value(&self, item: &Item, timestamp: u64, value: &ItemValue) -> bool
        requires held { IsHeld self.now item.now }
        requires low { AreLow timestamp self.now }
        ensures { (d : _) → result ≡ is_same_value (newest_at timestamp
            (versions_for self.now item.now) d).value value.now }
    {
        match &self.parts[usize::from(shard_of(item))] {
            Some(part) => has_value(part, item, timestamp, value),
            None => unreachable!(),
        }
    }

    /// How many versions of an item are held: one where nothing has written it. It takes no memory.
    pub fn version_count(&self, item: &Item) -> usize
        requires held { IsHeld self.now item.now }
        ensures { result ≡ length (versions_for self.now item.now) }
    {
        match &self.parts[usize::from(shard_of(item))] {
            Some(part) => version_count(part, item),
            None => unreachable!(),
        }
    }

    /// The least index of a shard that can't take a commit's writes at a timestamp: its low mark is above it, or an item of it
    /// that is written has a version there.
    pub fn foreign(&self, writes: &ItemMap, timestamp: u64) -> Option<u8>
        ensures some { IfSome result (λ index. IsFirstForeign timestamp writes.now index self.now) }
        ensures none { IfNone result (NoneForeign timestamp writes.now self.now) }
    {
        let mut least = first_above(&self.parts, self.end, timestamp);
        for (item, _value) in writes.as_slice() {
            least = least_with(&self.parts, item, timestamp, least);
        }
        if least < SHARD_COUNT {
            Some(least as u8)
        } else {
            None
        }
    }

    /// Raises the low mark of each shard that is held and has no higher one, and drops the versions there that no read from
    /// the low mark on can find. It takes no memory.
    pub fn prune(&mut self, timestamp: u64)
        ensures { ArePruned timestamp self.old self.new }
    {
        prune_all(&mut self.parts, timestamp);
    }

    /// Marks what a commit at a timestamp has read, and adds a version of each item that it writes. All room is made first: where
    /// memory is refused, nothing that is seen has changed.
    pub fn write(
        &mut self,
        reads: &ItemMap,
        writes: &ItemMap,
        timestamp: u64,
    ) -> Result<(), AllocError>
        requires held { CanTake timestamp self.old reads.now writes.now }
        requires positive { 0 < timestamp }
        ensures written { OnOk result (AreWritten timestamp reads.now writes.now self.old self.new) }
        ensures unchanged { OnErr result (self.new ≡ self.old) }
    {
        write_parts(&mut self.scratch, &mut self.parts, reads, writes, timestamp)
    }

    /// Writes a commit, as [`Held::write`] does, unless it fails a test: that no item has another value here than it was read
    /// with, and that no write is late. Memory may run out before the tests.
    pub fn write_tested(
        &mut self,
        reads: &ItemMap,
        writes: &ItemMap,
        timestamp: u64,
    ) -> Result<(), WriteError>
        requires held { CanTake timestamp self.old reads.now writes.now }
        requires positive { 0 < timestamp }
        ensures written { OnOk result
            (IsTestedWrite timestamp reads.now writes.now self.old self.new) }
        ensures refused { IfErr result (IsUnwritten timestamp reads.now writes.now self.old) }
        ensures unchanged { OnErr result (self.new ≡ self.old) }
    {
        write_tested_parts(&mut self.scratch, &mut self.parts, reads, writes, timestamp)
    }
}

/// Prunes each part.
fn prune_all(parts: &mut StateSlots, timestamp: u64)
    requires { AreInSlots parts.old }
    ensures kept { AreInSlots parts.new }
    ensures pruned { ArePruned timestamp (seen_all parts.old) (seen_all parts.new) }
{
    for index in 0..SHARD_COUNT {
        if let Some(part) = &mut parts[index] {
            prune(part, timestamp);
        }
    }
}

/// The index of the first part whose low mark is above a timestamp, or how many parts there may be. There is no part from the
/// end on.
fn first_above(parts: &StateSlots, end: usize, timestamp: u64) -> usize
    requires { IsEnd parts.now end }
    ensures few { result ≤ shard_count }
    ensures low { (i : _)
        → i < result → IsLowAt timestamp (seen_or_none (get_or parts.now i None)) }
    ensures above { result < shard_count
        → IsAbove timestamp (seen_or_none (get_or parts.now result None)) }
{
    for index in 0..end {
        if is_above(&parts[index], timestamp) {
            return index;
        }
    }
    SHARD_COUNT
}

/// Whether the low mark of a part, if there is one, is above a timestamp.
fn is_above(part: &Option<ShardState>, timestamp: u64) -> bool
    ensures above { IsTrue result → IsAbove timestamp (seen_or_none part.now) }
    ensures low { result ≡ false → IsLowAt timestamp (seen_or_none part.now) }
{
    match part {
        Some(part) => timestamp < part.low,
        None => false,
    }
}

/// The index of an item's shard, where it is below another one and the item has a version at a timestamp there; else that
/// other one.
fn least_with(parts: &StateSlots, item: &Item, timestamp: u64, least: usize) -> usize
    requires slots { AreInSlots parts.now }
    requires few { least ≤ shard_count }
    requires low { (i : _)
        → i < least → IsLowAt timestamp (seen_or_none (get_or parts.now i None)) }
    ensures { IsLeastWith timestamp item.now least (seen_all parts.now) result }
{
    let index = usize::from(shard_of(item));
    if least <= index {
        return least;
    }
    if has_version_at(&parts[index], item, timestamp) {
        index
    } else {
        least
    }
}

/// Whether an item has a version at a timestamp in a part, if there is one.
fn has_version_at(part: &Option<ShardState>, item: &Item, timestamp: u64) -> bool
    requires kept { IsShardStateOrNone part.now }
    requires low { IsLowAt timestamp (seen_or_none part.now) }
    ensures { result ≡ has_timestamp_in timestamp (seen_or_none part.now) item.now }
{
    match part {
        Some(part) => has_version(part, item, timestamp),
        None => false,
    }
}

/// One more than the index of the last part, or 0 where there is none. There is no part from a bound on.
fn end_of(parts: &StateSlots, bound: usize) -> usize
    requires few { bound ≤ shard_count }
    requires free { AreFreeFrom parts.now bound }
    ensures { IsEnd parts.now result }
{
    for free in 0..bound {
        let end = bound - free;
        if parts[end - 1].is_some() {
            return end;
        }
    }
    0
}
