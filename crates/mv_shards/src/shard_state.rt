//! A part of the items with their versions, as a shard keeps them.

ghost use Rattle.std.specs.Prelude.{◌≡◌, ◌≤◌, ◌<◌, ◌⊎◌, ◌↔◌, length, IfOk, IsErrOf, OnErr, OnOk, Some};
ghost use Rattle.teal_value.specs.declared.failure.Failure.TheVariants.{Fault};
ghost use Rattle.avm_items.specs.Items.{value_in};
ghost use Rattle.avm_items.specs.LedgerItems.{at};
ghost use Rattle.avm_items.specs.SameValues.{is_same_value};
ghost use Rattle.mv_chain.specs.Versions.{lateness, newest_at, oldest_timestamp};
ghost use Rattle.mv_shards.specs.declared.read_fault.ReadFault.TheVariants.{Pruned};
ghost use Rattle.mv_shards.specs.KeptChains.{AreChains, IsGrown, IsMarked, IsReadableAt, IsRoomier, number_in, versions_of};
ghost use Rattle.mv_shards.specs.Writing.{has_timestamp};
ghost use Rattle.mv_shards.specs.Shards.{IsFirstRead, IsPruned, IsPrunedShard, IsReadAgain, IsReadAt, versions_held};
ghost use Rattle.mv_shards.specs.KeptShards.{IsMarkedRead, IsNewestValue, IsShardState, shard_shown};

use crate::attempt::Attempt;
use crate::chains::Chains;
use crate::read_fault::{ReadError, ReadFault};
use avm_items::{Item, ItemValue, is_value_in};
use avm_ledger::{Base, Ledger};
use mv_chain::Late;
use std::alloc::{AllocError, Global};
use std::sync::Arc;
use teal_value::Failure;

/// The versions of a part of the items. What has no chain has the base's version alone.
pub(crate) struct ShardState {
    pub(crate) alloc: Global,
    pub(crate) index: u8,
    pub(crate) low: u64,
    pub(crate) base: Arc<Base>,
    pub(crate) chains: Chains,
}

/// Written out, so that whoever owns one drops it by one call and not part by part.
impl Drop for ShardState {
    #[inline]
    fn drop(self) {
        let ShardState {
            alloc: _,
            index: _,
            low: _,
            base: _,
            chains: _,
        } = self;
    }
}

/// A copy of the newest value not above a timestamp in the chain of a number.
fn value_at(chains: &Chains, number: usize, timestamp: u64) -> Result<ItemValue, AllocError>
    requires { IsReadableAt timestamp chains.now number }
    ensures { IfOk result (IsNewestValue timestamp chains.now number) }
{
    chains.at(number).read_at(timestamp).clone()
}

/// The value of a version that a read has found, once it is marked.
fn marked(chains: &mut Chains, number: usize, timestamp: u64, value: ItemValue) -> ItemValue
    requires readable { IsReadableAt timestamp chains.old number }
    requires positive { 0 < timestamp }
    ensures value { result ≡ value }
    ensures marked { (item : _) → number_in chains.old item ≡ Some number
        → IsMarked timestamp item chains.old chains.new }
{
    chains.mark(number, timestamp);
    value
}

/// Reads an item for the first time in an attempt, and marks the version that is found.
fn first_read(
    alloc: Global,
    chains: &mut Chains,
    base: &Ledger,
    attempt: &mut Attempt,
    item: Item,
) -> Result<ItemValue, AllocError>
    requires old_enough { oldest_timestamp (versions_of (at base.now) chains.old item)
        ≤ attempt.old.timestamp }
    ensures ok { IfOk result (λ value.
        IsMarkedRead (at base.now) chains.old chains.new attempt.old attempt.new item value) }
    ensures versions { OnErr result ((x : _)
        → versions_of (at base.now) chains.new x ≡ versions_of (at base.now) chains.old x) }
    ensures attempt { OnErr result (attempt.new ≡ attempt.old) }
    ensures kept { (low : _)
        → AreChains (at base.now) low chains.old → AreChains (at base.now) low chains.new }
{
    let number = chains.find_or_make(alloc, base, &item)?;
    let value = value_at(chains, number, attempt.timestamp)?;
    attempt.reads.insert(item, value.clone()?)?;
    Ok(marked(chains, number, attempt.timestamp, value))
}

/// Reads an item at a timestamp, and marks the version that is found.
pub(crate) fn read_at(
    part: &mut ShardState,
    timestamp: u64,
    item: &Item,
) -> Result<ItemValue, ReadError>
    requires part { IsShardState part.old }
    requires positive { 0 < timestamp }
    ensures kept { IsShardState part.new }
    ensures ok { IfOk result
        (IsReadAt timestamp (shard_shown part.old) (shard_shown part.new) item.now) }
    ensures part { OnErr result (shard_shown part.new ≡ shard_shown part.old) }
    ensures pruned { IsErrOf result (Fault Pruned) ↔ timestamp < part.old.low }
{
    if timestamp < part.low {
        return Err(Failure::Fault(ReadFault::Pruned));
    }
    let number = part
        .chains
        .find_or_make(part.alloc, part.base.ledger(), item)?;
    let value = value_at(&part.chains, number, timestamp)?;
    Ok(marked(&mut part.chains, number, timestamp, value))
}

/// Reads an item at the attempt's timestamp, and marks the version that is found. An item that the attempt has read gives
/// its value again.
pub(crate) fn read(
    part: &mut ShardState,
    attempt: &mut Attempt,
    item: Item,
) -> Result<ItemValue, ReadError>
    requires { IsShardState part.old }
    ensures kept { IsShardState part.new }
    ensures ok { IfOk result (λ value. IsFirstRead (shard_shown part.old) (shard_shown part.new)
        attempt.old attempt.new item value ⊎ IsReadAgain (shard_shown part.old)
        (shard_shown part.new) attempt.old attempt.new item value) }
    ensures part { OnErr result (shard_shown part.new ≡ shard_shown part.old) }
    ensures attempt { OnErr result (attempt.new ≡ attempt.old) }
    ensures pruned { IsErrOf result (Fault Pruned)
        ↔ IsPruned (shard_shown part.old) attempt.old item }
{
    if let Some(value) = attempt.reads.get(&item) {
        return Ok(value.clone()?);
    }
    if attempt.timestamp < part.low {
        return Err(Failure::Fault(ReadFault::Pruned));
    }
    Ok(first_read(
        part.alloc,
        &mut part.chains,
        part.base.ledger(),
        attempt,
        item,
    )?)
}

/// Whether a write of an item at a timestamp is late.
pub(crate) fn late(part: &ShardState, item: &Item, timestamp: u64) -> Option<Late>
    requires part { IsShardState part.now }
    requires low { part.now.low ≤ timestamp }
    ensures { (d : _) → result ≡ lateness timestamp
        (newest_at timestamp (versions_held (shard_shown part.now) item.now) d) }
{
    match part.chains.get(item) {
        Some(chain) => chain.late(timestamp),
        None => None,
    }
}

/// Whether an item has a version with a timestamp.
pub(crate) fn has_version(part: &ShardState, item: &Item, timestamp: u64) -> bool
    requires part { IsShardState part.now }
    requires low { part.now.low ≤ timestamp }
    ensures { result ≡ has_timestamp timestamp (versions_held (shard_shown part.now) item.now) }
{
    match part.chains.get(item) {
        Some(chain) => chain.timestamp_at(timestamp) == timestamp,
        None => timestamp == 0,
    }
}

/// Whether the newest version of an item not above a timestamp has this value. Nothing is copied.
pub(crate) fn has_value(part: &ShardState, item: &Item, timestamp: u64, value: &ItemValue) -> bool
    requires part { IsShardState part.now }
    requires low { part.now.low ≤ timestamp }
    ensures { (d : _) → result ≡ is_same_value (newest_at timestamp
        (versions_held (shard_shown part.now) item.now) d).value value.now }
{
    match part.chains.get(item) {
        Some(chain) => chain.read_at(timestamp).is_same(value),
        None => is_value_in(part.base.ledger(), item, value),
    }
}

/// How many versions of an item there are.
pub(crate) fn version_count(part: &ShardState, item: &Item) -> usize
    requires { IsShardState part.now }
    ensures { result ≡ length (versions_held (shard_shown part.now) item.now) }
{
    match part.chains.get(item) {
        Some(chain) => chain.count(),
        None => 1,
    }
}

/// Raises the low mark, unless it is higher, and drops the versions that no read from there on can find.
pub(crate) fn prune(part: &mut ShardState, timestamp: u64)
    requires { IsShardState part.old }
    ensures kept { IsShardState part.new }
    ensures pruned { IsPrunedShard timestamp (shard_shown part.old) (shard_shown part.new) }
{
    if part.low <= timestamp {
        part.low = timestamp;
        part.chains.prune(timestamp);
    }
}
