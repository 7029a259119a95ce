//! Room for all that a commit marks and writes, in the shards that are held.

ghost use Rattle.std.specs.Prelude.{◌≡◌, ◌<◌, IfOk, OnOk};
ghost use Rattle.std.specs.List.{AllByRecursion};
ghost use Rattle.avm_items.specs.Items.{IsInItemOrder};
ghost use Rattle.mv_shards.specs.KeptChains.{HasRoomFor};
ghost use Rattle.mv_shards.specs.KeptHelds.{IsHeldIn};
ghost use Rattle.mv_shards.specs.SlotWriting.{AreGrown, AreRoomier, AreRoomy, AreChainRefs, IsScratch, IsChainRef, chains_for};

use crate::chain_ref::ChainRef;
use crate::index::shard_of;
use crate::shard_state::ShardState;
use avm_items::{Item, ItemMap, ItemValue};
use std::alloc::{AllocError, Global};

/// The shards that are held, each at its index.
pub(crate) type StateSlots = [Option<ShardState>; 16];

/// Where the chains stand of what was read, and of what is to be written, beside its new value. Its lists are used again from
/// commit to commit, so that few commits take memory for them.
#[derive(Drop)]
pub(crate) struct CommitScratch {
    pub(crate) reads: Vec<ChainRef>,
    pub(crate) writes: Vec<(ChainRef, ItemValue)>,
}

impl CommitScratch {
    /// Lists of nothing. They take no memory.
    pub(crate) fn new(alloc: Global) -> CommitScratch {
        CommitScratch {
            reads: Vec::new(alloc),
            writes: Vec::new(alloc),
        }
    }
}

/// Gives an item a chain in its shard, if it has none, and says where it stands.
fn add_chain_for(parts: &mut StateSlots, item: &Item) -> Result<ChainRef, AllocError>
    requires { IsHeldIn parts.old item.now }
    ensures grown { AreGrown parts.old parts.new }
    ensures roomier { OnOk result (AreRoomier parts.old parts.new) }
    ensures spot { IfOk result (IsChainRef parts.new item.now) }
{
    let shard = usize::from(shard_of(item));
    match &mut parts[shard] {
        Some(part) => {
            let number = part
                .chains
                .find_or_make(part.alloc, part.base.ledger(), item)?;
            Ok(ChainRef { shard, number })
        }
        None => unreachable!(),
    }
}

/// Makes room for one more version in the chain that stands there.
fn reserve_at(parts: &mut StateSlots, spot: ChainRef) -> Result<(), AllocError>
    requires { (item : _) × IsChainRef parts.old item spot }
    ensures grown { AreGrown parts.old parts.new }
    ensures roomier { OnOk result (AreRoomier parts.old parts.new) }
    ensures room { OnOk result ((item : _)
        → IsChainRef parts.old item spot → HasRoomFor (chains_for parts.new item) item) }
{
    match &mut parts[spot.shard] {
        Some(part) => part.chains.reserve(spot.number),
        None => unreachable!(),
    }
}

/// Gives an item a chain in its shard, if it has none, and room for one more version there.
fn add_room_for(parts: &mut StateSlots, item: &Item) -> Result<ChainRef, AllocError>
    requires { IsHeldIn parts.old item.now }
    ensures grown { AreGrown parts.old parts.new }
    ensures roomier { OnOk result (AreRoomier parts.old parts.new) }
    ensures spot { IfOk result (IsChainRef parts.new item.now) }
    ensures room { OnOk result (HasRoomFor (chains_for parts.new item.now) item.now) }
{
    let spot = add_chain_for(parts, item)?;
    reserve_at(parts, spot)?;
    Ok(spot)
}

/// Gives each item that was read a chain in its shard, if it has none, and lists where they stand.
fn place_reads(
    spots: &mut Vec<ChainRef>,
    parts: &mut StateSlots,
    reads: &ItemMap,
) -> Result<(), AllocError>
    requires { AllByRecursion (λ e. IsHeldIn parts.old e.0) reads.now }
    ensures grown { AreGrown parts.old parts.new }
    ensures roomier { OnOk result (AreRoomier parts.old parts.new) }
    ensures spots { OnOk result (AreChainRefs parts.new reads.now spots.new.items) }
    ensures order { OnOk result (IsInItemOrder reads.now) }
{
    spots.clear();
    for (item, _value) in reads.as_slice() {
        let spot = add_chain_for(parts, item)?;
        spots.push(spot)?;
    }
    Ok(())
}

/// Gives each item that is to be written a chain with room in its shard, and lists where they stand, with copies of the
/// values.
fn place_writes(
    placed: &mut Vec<(ChainRef, ItemValue)>,
    parts: &mut StateSlots,
    writes: &ItemMap,
) -> Result<(), AllocError>
    requires { AllByRecursion (λ e. IsHeldIn parts.old e.0) writes.now }
    ensures grown { AreGrown parts.old parts.new }
    ensures roomier { OnOk result (AreRoomier parts.old parts.new) }
    ensures placed { OnOk result (AreRoomy parts.new writes.now placed.new.items) }
    ensures order { OnOk result (IsInItemOrder writes.now) }
{
    placed.clear();
    for (item, value) in writes.as_slice() {
        let spot = add_room_for(parts, item)?;
        placed.push((spot, value.clone()?))?;
    }
    Ok(())
}

/// Gives each item that was read a chain in its shard, and each item that is to be written a chain with room, and
/// copies the writes. What is seen of the shards stays, also where memory is refused.
pub(crate) fn make_room(
    scratch: &mut CommitScratch,
    parts: &mut StateSlots,
    reads: &ItemMap,
    writes: &ItemMap,
) -> Result<(), AllocError>
    requires reads { AllByRecursion (λ e. IsHeldIn parts.old e.0) reads.now }
    requires writes { AllByRecursion (λ e. IsHeldIn parts.old e.0) writes.now }
    ensures grown { AreGrown parts.old parts.new }
    ensures room { OnOk result (IsScratch parts.new reads.now writes.now scratch.new) }
{
    place_reads(&mut scratch.reads, parts, reads)?;
    place_writes(&mut scratch.writes, parts, writes)?;
    Ok(())
}
