//! What a commit marks and writes in the shards that are held, where room was made for it.

ghost use Rattle.std.specs.Prelude.{◌≡◌, ◌<◌, IfErr, OnErr, OnOk};
ghost use Rattle.mv_shards.specs.SlotWriting.{AreGrown, AreInstalledAt, AreMarkedAt, ArePlaced, AreReadableRefs, AreReadyPlaced, AreChainRefs, AreWrittenSlots, IsInstalledItem, IsMarkedItem, IsReadableRef, IsChainRef, TakesVersionThere};
ghost use Rattle.mv_shards.specs.PlacedTests.{IsTestedPlaced, IsUnplaced, IsWritable};

use crate::chain_ref::ChainRef;
use crate::commit_scratch::{CommitScratch, StateSlots, make_room};
use crate::placed_tests::{late, moved};
use crate::write_fault::{WriteError, WriteFault};
use avm_items::{ItemMap, ItemValue};
use std::alloc::AllocError;
use std::mem;
use teal_value::Failure;

/// Notes that the newest version not above a timestamp was read at it, in the chain that stands there.
fn mark_at(parts: &mut StateSlots, spot: ChainRef, timestamp: u64)
    requires readable { IsReadableRef timestamp parts.old spot }
    requires positive { 0 < timestamp }
    ensures { (item : _)
        → IsChainRef parts.old item spot → IsMarkedItem timestamp item parts.old parts.new }
{
    match &mut parts[spot.shard] {
        Some(part) => part.chains.mark(spot.number, timestamp),
        None => unreachable!(),
    }
}

/// Adds a version to the chain that stands there, which takes it.
fn install_at(parts: &mut StateSlots, spot: ChainRef, value: ItemValue, timestamp: u64)
    requires takes { TakesVersionThere timestamp parts.old spot }
    requires positive { 0 < timestamp }
    ensures { (item : _)
        → IsChainRef parts.old item spot → IsInstalledItem timestamp item value parts.old parts.new }
{
    match &mut parts[spot.shard] {
        Some(part) => part.chains.install(spot.number, value, timestamp),
        None => unreachable!(),
    }
}

/// Notes of each of these chains that its newest version not above a timestamp was read at it.
fn mark_all(parts: &mut StateSlots, spots: &[ChainRef], timestamp: u64)
    requires readable { AreReadableRefs timestamp parts.old spots.now }
    requires positive { 0 < timestamp }
    ensures { (reads : _)
        → AreChainRefs parts.old reads spots.now → AreMarkedAt timestamp reads parts.old parts.new }
{
    for spot in spots {
        mark_at(parts, *spot, timestamp);
    }
}

/// Adds a version to each of these chains, and takes the values out of the list.
fn install_all(parts: &mut StateSlots, placed: &mut [(ChainRef, ItemValue)], timestamp: u64)
    requires ready { AreReadyPlaced timestamp parts.old placed.old }
    requires positive { 0 < timestamp }
    ensures { (writes : _) → ArePlaced parts.old writes placed.old
        → AreInstalledAt timestamp writes parts.old parts.new }
{
    for index in 0..placed.len() {
        let (spot, value) = taken(&mut placed[index]);
        install_at(parts, spot, value, timestamp);
    }
}

/// What is to be written at a spot, which is left with nothing to write.
fn taken(placed: &mut (ChainRef, ItemValue)) -> (ChainRef, ItemValue)
    ensures { result ≡ placed.old }
{
    (placed.0, mem::replace(&mut placed.1, ItemValue::Absent))
}

/// Marks what was read and adds what was written, in this order. Where memory is refused, nothing that is seen has changed.
pub(crate) fn write_parts(
    scratch: &mut CommitScratch,
    parts: &mut StateSlots,
    reads: &ItemMap,
    writes: &ItemMap,
    timestamp: u64,
) -> Result<(), AllocError>
    requires writable { IsWritable timestamp reads.now writes.now parts.old }
    requires positive { 0 < timestamp }
    ensures written { OnOk result (AreWrittenSlots timestamp reads.now writes.now parts.old
        parts.new) }
    ensures grown { OnErr result (AreGrown parts.old parts.new) }
{
    make_room(scratch, parts, reads, writes)?;
    mark_all(parts, &scratch.reads, timestamp);
    install_all(parts, &mut scratch.writes, timestamp);
    Ok(())
}

/// The same, where a test of these reads and writes that fails refuses it. The chains are found once, for the tests too.
pub(crate) fn write_tested_parts(
    scratch: &mut CommitScratch,
    parts: &mut StateSlots,
    reads: &ItemMap,
    writes: &ItemMap,
    timestamp: u64,
) -> Result<(), WriteError>
    requires writable { IsWritable timestamp reads.now writes.now parts.old }
    requires positive { 0 < timestamp }
    ensures written { OnOk result (IsTestedPlaced timestamp reads.now writes.now parts.old
        parts.new) }
    ensures refused { IfErr result (IsUnplaced timestamp reads.now writes.now parts.old) }
    ensures grown { OnErr result (AreGrown parts.old parts.new) }
{
    make_room(scratch, parts, reads, writes)?;
    if let Some(item) = moved(parts, &scratch.reads, reads, timestamp) {
        return Err(Failure::Fault(WriteFault::Moved(item)));
    }
    if let Some((item, late)) = late(parts, &scratch.writes, writes, timestamp) {
        return Err(Failure::Fault(WriteFault::Late(item, late)));
    }
    mark_all(parts, &scratch.reads, timestamp);
    install_all(parts, &mut scratch.writes, timestamp);
    Ok(())
}
