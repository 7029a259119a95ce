//! What is tested of a commit whose chains have been found.

ghost use Rattle.std.specs.Prelude.{◌≡◌, ◌<◌, length};
ghost use Rattle.std.specs.List.{AllByRecursion};
ghost use Rattle.avm_items.specs.SameValues.{is_same_value};
ghost use Rattle.mv_chain.specs.Versions.{lateness, newest_at};
ghost use Rattle.mv_shards.specs.KeptChains.{IsReadableAt, number_in, versions_of};
ghost use Rattle.mv_shards.specs.SlotWriting.{AreChainRefs, ArePlaced, IsChainRef, IsReadableIn, IsReadableRef};
ghost use Rattle.mv_shards.specs.PlacedTests.{lateness_there, value_there};
ghost use Rattle.mv_shards.specs.TestedWrites.{first_late, moved_item};

use crate::chain_ref::ChainRef;
use crate::chains::Chains;
use crate::commit_scratch::StateSlots;
use avm_items::{Item, ItemMap, ItemValue};
use mv_chain::Late;

/// The least item that was read with another value than it has up to a timestamp, in the chains that stand there.
pub(crate) fn moved(
    parts: &StateSlots,
    spots: &[ChainRef],
    reads: &ItemMap,
    timestamp: u64,
) -> Option<Item>
    requires spots { AreChainRefs parts.now reads.now spots.now }
    requires readable { AllByRecursion (λ e. IsReadableIn timestamp parts.now e.0) reads.now }
    ensures { result ≡ moved_item (value_there timestamp parts.now) reads.now }
{
    let entries = reads.as_slice();
    for index in 0..entries.len() {
        let (item, value) = &entries[index];
        if !has_value_at(parts, spots[index], timestamp, value) {
            return Some(item.copied());
        }
    }
    None
}

/// The least item whose write at a timestamp is late, in the chains that stand there.
pub(crate) fn late(
    parts: &StateSlots,
    placed: &[(ChainRef, ItemValue)],
    writes: &ItemMap,
    timestamp: u64,
) -> Option<(Item, Late)>
    requires placed { ArePlaced parts.now writes.now placed.now }
    requires readable { AllByRecursion (λ e. IsReadableIn timestamp parts.now e.0) writes.now }
    ensures { result ≡ first_late (lateness_there timestamp parts.now) writes.now }
{
    let entries = writes.as_slice();
    for index in 0..entries.len() {
        let (item, _value) = &entries[index];
        if let Some(late) = late_at(parts, placed[index].0, timestamp) {
            return Some((item.copied(), late));
        }
    }
    None
}

/// Whether the newest version not above a timestamp has this value, in the chain that stands there.
fn has_value_at(parts: &StateSlots, spot: ChainRef, timestamp: u64, value: &ItemValue) -> bool
    requires { IsReadableRef timestamp parts.now spot }
    ensures { (item : _) → IsChainRef parts.now item spot
        → result ≡ is_same_value (value_there timestamp parts.now item) value.now }
{
    match &parts[spot.shard] {
        Some(part) => has_value_in(&part.chains, spot.number, timestamp, value),
        None => unreachable!(),
    }
}

/// The same, in the chain of a number.
fn has_value_in(chains: &Chains, number: usize, timestamp: u64, value: &ItemValue) -> bool
    requires { IsReadableAt timestamp chains.now number }
    ensures { (item : _) → number_in chains.now item ≡ Some number → (first : _) (d : _)
        → result ≡ is_same_value
        (newest_at timestamp (versions_of first chains.now item) d).value value.now }
{
    chains.at(number).read_at(timestamp).is_same(value)
}

/// Whether a write at a timestamp is late, in the chain that stands there.
fn late_at(parts: &StateSlots, spot: ChainRef, timestamp: u64) -> Option<Late>
    requires { IsReadableRef timestamp parts.now spot }
    ensures { (item : _) → IsChainRef parts.now item spot
        → result ≡ lateness_there timestamp parts.now item }
{
    match &parts[spot.shard] {
        Some(part) => late_in(&part.chains, spot.number, timestamp),
        None => unreachable!(),
    }
}

/// The same, in the chain of a number.
fn late_in(chains: &Chains, number: usize, timestamp: u64) -> Option<Late>
    requires { IsReadableAt timestamp chains.now number }
    ensures { (item : _) → number_in chains.now item ≡ Some number → (first : _) (d : _)
        → result ≡ lateness timestamp (newest_at timestamp (versions_of first chains.now item) d) }
{
    chains.at(number).late(timestamp)
}
