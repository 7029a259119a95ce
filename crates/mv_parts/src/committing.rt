//! What a commit writes.

ghost use Rattle.std.specs.Prelude.{◌≡◌, ◌-◌, ◌<◌, IfErr, OnErr, OnOk, vec_capacity, vec_len};
ghost use Rattle.mv_history.specs.History.{IsRising, entries_with};
ghost use Rattle.mv_parts.specs.CallLaws.{entry_of as entry_at};
ghost use Rattle.mv_shards.specs.TestedWrites.{IsTestedWrite, IsUnwritten};
ghost use Rattle.mv_shards.specs.Writing.{AreWritten, CanTake};
ghost use Rattle.mv_history.specs.Settled.{entries_not_above};

use crate::entry::Entry;
use avm_run::Finished;
use mv_shards::{Attempt, Held, WriteError};
use std::alloc::{AllocError, Global};

/// Makes room for an entry, and writes to the shards that are held.
pub(crate) fn write_all(
    entries: &mut Vec<Entry>,
    held: &mut Held,
    attempt: &Attempt,
    finished: &Finished,
) -> Result<(), AllocError>
    requires { CanTake attempt.now.timestamp held.old attempt.now.reads finished.now.writes }
    ensures entries { entries.new.items ≡ entries.old.items }
    ensures room { OnOk result (0 < vec_capacity entries.new - vec_len entries.new) }
    ensures written { OnOk result (AreWritten attempt.now.timestamp
        attempt.now.reads finished.now.writes held.old held.new) }
    ensures unchanged { OnErr result (held.new ≡ held.old) }
{
    entries.reserve(1)?;
    held.write(attempt.reads(), finished.writes(), attempt.timestamp())
}

/// Makes room for an entry, and writes to the shards that are held what passes their tests.
pub(crate) fn write_tested(
    entries: &mut Vec<Entry>,
    held: &mut Held,
    finished: &Finished,
    timestamp: u64,
) -> Result<(), WriteError>
    requires takes { CanTake timestamp held.old finished.now.reads finished.now.writes }
    requires positive { 0 < timestamp }
    ensures entries { entries.new.items ≡ entries.old.items }
    ensures room { OnOk result (0 < vec_capacity entries.new - vec_len entries.new) }
    ensures written { OnOk result (IsTestedWrite timestamp
        finished.now.reads finished.now.writes held.old held.new) }
    ensures refused { IfErr result
        (IsUnwritten timestamp finished.now.reads finished.now.writes held.old) }
    ensures unchanged { OnErr result (held.new ≡ held.old) }
{
    entries.reserve(1)?;
    held.write_tested(finished.reads(), finished.writes(), timestamp)
}

/// The entry of a finished call, at an attempt's timestamp. Entries stay to the end of the block, so its lists have no room for
/// more.
pub(crate) fn entry_of(alloc: Global, attempt: &Attempt, finished: Finished) -> Entry
    ensures { result ≡ entry_at attempt.now.timestamp attempt.now.number finished }
{
    let outcome = finished.outcome();
    let (reads, writes) = finished.into_lists();
    Entry {
        timestamp: attempt.timestamp(),
        number: attempt.number(),
        outcome,
        reads: reads.without_room(alloc).into_vec(),
        writes: writes.without_room(alloc).into_vec(),
    }
}

/// Adds an entry at its index by timestamp. There is room for it.
pub(crate) fn insert_entry(entries: &mut Vec<Entry>, entry: Entry)
    requires room { 0 < vec_capacity entries.old - vec_len entries.old }
    requires rising { IsRising 0 entries.old.items }
    ensures { entries.new.items ≡ entries_with entry entries.old.items }
{
    let index = index_of(entries, entry.timestamp);
    match entries.insert(index, entry) {
        Ok(()) => {}
        Err(_refused) => unreachable!(),
    }
}

/// How many entries are not above a timestamp.
pub(crate) fn index_of(entries: &[Entry], timestamp: u64) -> usize
    requires { IsRising 0 entries.now }
    ensures { result ≡ entries_not_above timestamp entries.now }
{
    match entries.last() {
        // Calls mostly commit in the order of their timestamps.
        Some(last) if last.timestamp() <= timestamp => entries.len(),
        _ => first_above(entries, timestamp),
    }
}

/// The index of the first entry above a timestamp, or how many entries there are.
fn first_above(entries: &[Entry], timestamp: u64) -> usize
    requires { IsRising 0 entries.now }
    ensures { result ≡ entries_not_above timestamp entries.now }
{
    entries.partition_point(|entry| entry.timestamp <= timestamp)
}
