//! Shard 0, held alone.

ghost use Rattle.std.specs.Prelude.{◌≡◌, ◌<◌, IfOk};
ghost use Rattle.direct_tests.specs.Firsts.{IsFirstHeld, next_id_write};

use avm_items::{Item, ItemMap, ItemValue};
use avm_ledger::{Base, Ledger};
use mv_shards::{Attempt, Held, Shard};
use std::alloc::{AllocError, Global};
use std::sync::Arc;
use std::test::Fail;

// The timestamps of reads of the next id, and what each finds where the base has 1 and a commit at 5 makes it 2.
const READS: [(u64, u64); 4] = [(1, 1), (4, 1), (5, 2), (9, 2)];

// The same where the shard is pruned at 5: below, nothing is found.
const PRUNED: [(u64, u64); 2] = [(4, 0), (5, 2)];

// Shard 0 alone, over the empty ledger.
fn first_held(alloc: Global) -> Result<Held, AllocError>
    ensures { IfOk result IsFirstHeld }
{
    let base = Arc::new(alloc, Base::of(alloc, Ledger::new(alloc))?)?;
    let mut held = Held::new(alloc);
    match held.add(Shard::new(alloc, 0, base)) {
        Ok(()) => Ok(held),
        Err(_back) => unreachable!(),
    }
}

// A write of the next id.
fn next_id_is(alloc: Global, id: u64) -> Result<ItemMap, AllocError>
    ensures { IfOk result (λ writes. writes ≡ next_id_write id) }
{
    let mut writes = ItemMap::new(alloc);
    writes.insert(Item::NextApp, ItemValue::NextApp(id))?;
    Ok(writes)
}

// What an attempt at a timestamp finds as the next id, or 0.
fn next_id_at(alloc: Global, held: &mut Held, timestamp: u64) -> Result<u64, AllocError> {
    let wanted = next_id_is(alloc, 0)?;
    if timestamp == 0 || !held.covers(&wanted) {
        return Ok(0);
    }
    let mut attempt = Attempt::new(alloc, 1, timestamp);
    match held.read(&mut attempt, Item::NextApp) {
        Ok(ItemValue::NextApp(id)) => Ok(id),
        _ => Ok(0),
    }
}

// Whether so many versions of the next id are held, and attempts at these timestamps find these.
fn finds(
    alloc: Global,
    held: &mut Held,
    count: usize,
    reads: &[(u64, u64)],
) -> Result<bool, AllocError> {
    let wanted = next_id_is(alloc, 0)?;
    if !held.covers(&wanted) || held.version_count(&Item::NextApp) != count {
        return Ok(false);
    }
    for (timestamp, id) in reads {
        if next_id_at(alloc, held, *timestamp)? != *id {
            return Ok(false);
        }
    }
    Ok(true)
}

// A commit at 5 makes the next id 2.
fn committed_at_5(alloc: Global) -> Result<Held, AllocError> {
    let mut held = first_held(alloc)?;
    let writes = next_id_is(alloc, 2)?;
    held.write(&ItemMap::new(alloc), &writes, 5)?;
    Ok(held)
}

// One commit, and reads below, at and above its timestamp; those below are refused once the low mark is there.
#[test]
fn reads_find_the_newest_version_not_above_them(rt: HostRuntime) -> Result<(), Fail> {
    let alloc = rt.alloc();
    assert!(rt; finds(alloc, &mut first_held(alloc)?, 1, &[])?);
    let mut held = committed_at_5(alloc)?;
    assert!(rt; finds(alloc, &mut held, 2, &READS)?);
    held.prune(5);
    assert!(rt; finds(alloc, &mut held, 1, &PRUNED)?);
    assert!(rt; held.take().is_some() && held.take().is_none());
    Ok(())
}
