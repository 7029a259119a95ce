//! What is tested by the entries, one by one, of a commit to shards that need not agree with them.

ghost use Rattle.std.specs.Prelude.{◌≡◌};
ghost use Rattle.std.specs.Option.{option_copied};
ghost use Rattle.avm_items.specs.LedgerItems.{at};
ghost use Rattle.avm_items.specs.SameValues.{is_same_value};
ghost use Rattle.mv_history.specs.History.{state_below, version_below as version_of};
ghost use Rattle.mv_shards.specs.Helds.{AreHeld, IsHeld};
ghost use Rattle.mv_shards.specs.Writing.{AreLow};
ghost use Rattle.mv_parts.specs.CallHistory.{same_item};
ghost use Rattle.mv_parts.specs.Commits.{late_write, later as later_of};
ghost use Rattle.mv_shards.specs.TestedWrites.{moved_item};
ghost use Rattle.mv_parts.specs.CommitTests.{lateness_below, lateness_by_readers, written_below as written_of};
ghost use Rattle.mv_parts.specs.Journals.{greatest_reader as greatest_of, has_read as is_reader};

use crate::commit_fault::CommitFault;
use crate::commit_tests::late_fault;
use crate::entry::Entry;
use avm_items::{Item, ItemMap, ItemValue, is_value_in};
use avm_ledger::Ledger;
use avm_states::sorted_entries::value_of;
use mv_chain::Late;
use mv_shards::Held;

/// The least item that was read with another value than it has below a timestamp.
pub(crate) fn moved_by_entries(
    base: &Ledger,
    entries: &[Entry],
    reads: &ItemMap,
    timestamp: u64,
) -> Option<Item>
    ensures { result
        ≡ moved_item (state_below same_item (at base.now) entries.now timestamp) reads.now }
{
    for (item, value) in reads.as_slice() {
        if !has_value_below(base, entries, item, timestamp, value) {
            return Some(item.copied());
        }
    }
    None
}

/// Whether an item has this value below a timestamp.
fn has_value_below(
    base: &Ledger,
    entries: &[Entry],
    item: &Item,
    timestamp: u64,
    value: &ItemValue,
) -> bool
    ensures { result ≡ is_same_value
        (state_below same_item (at base.now) entries.now timestamp item.now) value.now }
{
    let mut same = is_value_in(base, item, value);
    for entry in entries {
        if let Some(written) = written_below(entry, item, timestamp) {
            same = written.is_same(value);
        }
    }
    same
}

/// What an entry wrote of an item, if the entry is below a timestamp.
fn written_below<'a>(entry: &'a Entry, item: &Item, timestamp: u64) -> Option<&'a ItemValue>
    ensures { option_copied result ≡ written_of item.now timestamp entry.now }
{
    if timestamp <= entry.timestamp() {
        return None;
    }
    value_of(entry.writes(), item)
}

/// The timestamp of an item's version below a timestamp.
fn version_below(entries: &[Entry], item: &Item, timestamp: u64) -> u64
    ensures { (base : _) → result ≡ (version_of same_item base entries.now timestamp item.now).0 }
{
    let mut version = 0;
    for entry in entries {
        if let Some(_written) = written_below(entry, item, timestamp) {
            version = entry.timestamp();
        }
    }
    version
}

/// The least item whose write at a timestamp is late, by what the entries read or in the shards that are held.
pub(crate) fn late_by_entries(
    entries: &[Entry],
    held: &Held,
    writes: &ItemMap,
    timestamp: u64,
) -> Option<CommitFault>
    requires held { AreHeld held.now writes.now }
    requires low { AreLow timestamp held.now }
    ensures { (base : _)
        → result ≡ late_write (lateness_below base entries.now held.now timestamp) writes.now }
{
    for (item, _value) in writes.as_slice() {
        if let Some(late) = late_at(entries, held, item, timestamp) {
            return Some(late_fault(item, late));
        }
    }
    None
}

/// Whether a write of an item is late.
fn late_at(entries: &[Entry], held: &Held, item: &Item, timestamp: u64) -> Option<Late>
    requires held { IsHeld held.now item.now }
    requires low { AreLow timestamp held.now }
    ensures { (base : _)
        → result ≡ lateness_below base entries.now held.now timestamp item.now }
{
    later(
        late_to(entries, item, timestamp),
        held.late(item, timestamp),
    )
}

/// Whether a write of an item is late by what the entries read.
fn late_to(entries: &[Entry], item: &Item, timestamp: u64) -> Option<Late>
    ensures { (base : _) → result ≡ lateness_by_readers base entries.now timestamp item.now }
{
    let version = version_below(entries, item, timestamp);
    let mark = greatest_reader(entries, item, version);
    if timestamp < mark {
        Some(Late { version, mark })
    } else {
        None
    }
}

/// The greatest timestamp of the entries that read this version of an item, or 0.
fn greatest_reader(entries: &[Entry], item: &Item, version: u64) -> u64
    ensures { (base : _) → result ≡ greatest_of base entries.now item.now version }
{
    let mut greatest = 0u64;
    for entry in entries {
        if has_read(entries, entry, item, version) {
            greatest = greatest.max(entry.timestamp());
        }
    }
    greatest
}

/// Whether an entry read this version of an item.
fn has_read(entries: &[Entry], entry: &Entry, item: &Item, version: u64) -> bool
    ensures { (base : _) → result ≡ is_reader base entries.now item.now version entry.now }
{
    match value_of(entry.reads(), item) {
        Some(_read) => version_below(entries, item, entry.timestamp()) == version,
        None => false,
    }
}

/// The one of the greater mark.
fn later(late: Option<Late>, other: Option<Late>) -> Option<Late>
    ensures { result ≡ later_of late other }
{
    match (late, other) {
        (None, other) => other,
        (Some(late), None) => Some(late),
        (Some(late), Some(other)) => {
            if late.mark < other.mark {
                Some(other)
            } else {
                Some(late)
            }
        }
    }
}
