//! What is tested of an attempt before it commits.

ghost use Rattle.std.specs.Prelude.{◌≡◌, ◌↔◌, ◌-◌, ◌<◌, IsTrue, None, Some};
ghost use Rattle.std.specs.Option.{option_copied};
ghost use Rattle.mv_chain.specs.Versions.{newest_at};
ghost use Rattle.mv_parts.specs.CallNumbers.{call_of};
ghost use Rattle.mv_shards.specs.Helds.{AreHeld};
ghost use Rattle.mv_shards.specs.Writing.{AreLow, versions_for};
ghost use Rattle.mv_parts.specs.Commits.{IsOwnCall, late_or, late_write};
ghost use Rattle.mv_shards.specs.TestedWrites.{lateness_in, moved_item, no_version};

use crate::commit_fault::CommitFault;
use avm_call::Call;
use avm_items::{Item, ItemMap};
use avm_ledger::Header;
use avm_run::Finished;
use mv_chain::Late;
use mv_shards::{Attempt, Held};

/// Whether a finished call is an attempt's: the call of its number, for this header, over what it has read.
pub(crate) fn is_own_call(
    calls: &[Call],
    header: &Header,
    attempt: &Attempt,
    finished: &Finished,
) -> bool
    ensures { IsTrue result ↔ IsOwnCall calls.now header.now attempt.now finished.now }
{
    if !is_call(calls, attempt.number(), finished.call()) {
        return false;
    }
    is_run_of(header, attempt, finished)
}

/// Whether a finished call was made for a header, over what an attempt has read.
fn is_run_of(header: &Header, attempt: &Attempt, finished: &Finished) -> bool
    ensures { IsTrue result
        ↔ ((finished.now.header ≡ header.now) × (finished.now.reads ≡ attempt.now.reads)) }
{
    *finished.header() == *header && finished.reads().is_same(attempt.reads())
}

/// Whether the call of a number, from 1, is this one.
fn is_call(calls: &[Call], number: u32, made: &Call) -> bool
    ensures { IsTrue result ↔ (call_of calls.now number ≡ Some made.now) }
{
    match call_at(calls, number) {
        Some(call) => call.fields().is_same(made.fields()),
        None => false,
    }
}

/// The call of a number, from 1.
pub(crate) fn call_at(calls: &[Call], number: u32) -> Option<&Call>
    ensures { option_copied result ≡ call_of calls.now number }
{
    if number == 0 {
        return None;
    }
    calls.get(number as usize - 1)
}

/// The least item that was read with another value than it has up to a timestamp in the shards that are held.
pub(crate) fn moved(held: &Held, reads: &ItemMap, timestamp: u64) -> Option<Item>
    requires held { AreHeld held.now reads.now }
    requires low { AreLow timestamp held.now }
    ensures { result ≡ moved_item (λ x.
        (newest_at timestamp (versions_for held.now x) no_version).value) reads.now }
{
    for (item, value) in reads.as_slice() {
        if !held.has_value(item, timestamp, value) {
            return Some(item.copied());
        }
    }
    None
}

/// The least item whose write at a timestamp is late in the shards that are held.
pub(crate) fn late(held: &Held, writes: &ItemMap, timestamp: u64) -> Option<CommitFault>
    requires held { AreHeld held.now writes.now }
    requires low { AreLow timestamp held.now }
    ensures { result ≡ late_write (lateness_in held.now timestamp) writes.now }
{
    for (item, _value) in writes.as_slice() {
        if let Some(late) = held.late(item, timestamp) {
            return Some(late_fault(item, late));
        }
    }
    None
}

/// A write of an item that is late.
pub(crate) fn late_fault(item: &Item, late: Late) -> CommitFault
    ensures { Some result ≡ late_or item.now (Some late) None }
{
    CommitFault::Late {
        item: item.copied(),
        version: late.version,
        mark: late.mark,
    }
}
