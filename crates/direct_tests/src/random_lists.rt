//! Random lists of events over a store, each of whose blocks is replayed.

use crate::data::{BASE, CALLS as ROWS, calls_of, ledger_of, programs, some_calls};
use crate::lists::{Bench, Replayed};
use crate::outcomes::{NOTHING, Tally, count, is_ample};
use crate::random::Random;
use crate::sets::{filled_ops, full_ops};
use avm_call::Call;
use avm_ops::{Op, Ops};
use avm_run::FullOps;
use mv_core::{Event, Worker};
use std::alloc::{AllocError, Global};
use std::sync::Arc;
use std::test::Fail;

/// So many calls has each list,
const CALLS: u64 = 8;

/// and so many rounds of reads and another event.
const ROUNDS: u64 = 128;

/// More reads than a call asks for.
const ALL_READS: u64 = 16;

/// Pushes these reads of a worker.
fn push_reads(events: &mut Vec<Event>, worker: u8, count: u64) -> Result<(), AllocError> {
    for _time in 0..count {
        events.push(Event::Read(worker))?;
    }
    Ok(())
}

/// One event of a worker, or a prune. There are eight workers, and no call has the first or the last number.
fn some_event(random: &mut Random) -> Event {
    let worker = random.below(9) as u8;
    match random.below(16) {
        0..=5 => Event::Begin(worker, random.below(CALLS + 2) as u32),
        6..=11 => Event::Commit(worker),
        12..=14 => Event::Abandon(worker),
        _ => Event::Prune(random.below(24)),
    }
}

/// Reads of a worker and another event.
fn push_some(events: &mut Vec<Event>, random: &mut Random) -> Result<(), AllocError> {
    let worker = random.below(8) as u8;
    push_reads(events, worker, random.below(6))?;
    events.push(some_event(random))?;
    Ok(())
}

/// Random events, behind which each worker reads all and tries to commit.
fn some_events(alloc: Global, random: &mut Random) -> Result<Vec<Event>, AllocError> {
    let mut events = Vec::new(alloc);
    for _round in 0..ROUNDS {
        push_some(&mut events, random)?;
    }
    for worker in 0..8u8 {
        push_reads(&mut events, worker, ALL_READS)?;
        events.push(Event::Commit(worker))?;
    }
    Ok(events)
}

/// Each worker abandons its attempt.
fn push_abandons(events: &mut Vec<Event>) -> Result<(), AllocError> {
    for worker in 0..8u8 {
        events.push(Event::Abandon(worker))?;
    }
    Ok(())
}

/// How many workers have an attempt whose call has ended.
fn ended(workers: &[Worker]) -> u64 {
    let mut count = 0u64;
    for worker in workers {
        if matches!(worker, Worker::Finished { .. }) {
            count = count.saturating_add(1);
        }
    }
    count
}

/// How many calls are late, where each worker has tried to commit behind these events.
fn late_calls<O: Op>(
    bench: &Bench<O>,
    calls: &Arc<Vec<Call>>,
    events: &[Event],
) -> Result<u64, Fail> {
    Ok(ended(&bench.world_after(calls, events)?.workers))
}

/// The replayed block of these events, behind which nothing is live.
fn replayed_list<O: Op>(
    bench: &Bench<O>,
    calls: &Arc<Vec<Call>>,
    events: &[Event],
    behind: u64,
) -> Result<Replayed, Fail> {
    let store = bench.world_after(calls, events)?.store;
    bench.replay_store(store, calls.len(), behind)
}

/// One list: what came is added to the tally.
fn run_list<O: Op>(
    bench: &Bench<O>,
    all: &[Call],
    seed: u64,
    tally: &mut Tally,
) -> Result<(), Fail> {
    let alloc = bench.alloc;
    let mut random = Random::new(seed);
    let calls = Arc::new(alloc, some_calls(alloc, &mut random, all, CALLS)?)?;
    let mut events = some_events(alloc, &mut random)?;
    let late = late_calls(bench, &calls, &events)?;
    push_abandons(&mut events)?;
    let list = replayed_list(bench, &calls, &events, random.below(24))?;
    count(tally, &list, CALLS, late);
    Ok(())
}

/// So many lists, each of its number as seed.
fn run_lists<O: Op>(alloc: Global, ops: Ops<O>, lists: u64, tally: &mut Tally) -> Result<(), Fail> {
    let ops = full_ops(ops)?;
    run_by(alloc, &ops, lists, tally)
}

fn run_by<O: Op>(
    alloc: Global,
    ops: &FullOps<O>,
    lists: u64,
    tally: &mut Tally,
) -> Result<(), Fail> {
    let programs = programs(alloc)?;
    let base = ledger_of(alloc, &programs, BASE)?;
    let all = calls_of(alloc, &programs, &ROWS, 1)?;
    let bench = Bench {
        alloc,
        ops,
        base: &base,
    };
    run_each(&bench, &all, lists, tally)
}

fn run_each<O: Op>(
    bench: &Bench<O>,
    all: &[Call],
    lists: u64,
    tally: &mut Tally,
) -> Result<(), Fail> {
    for seed in 0..lists {
        run_list(bench, all, seed, tally)?;
    }
    Ok(())
}

/// So many random lists.
const LISTS: u64 = 2000;

#[test]
fn random_lists(rt: HostRuntime) -> Result<(), Fail> {
    let alloc = rt.alloc();
    let ops = filled_ops(alloc)?;
    let mut tally = NOTHING;
    let run = run_lists(alloc, ops, LISTS, &mut tally);
    assert!(rt; run.is_ok(), "behind {} lists", tally.lists);
    assert!(rt; is_ample(&tally, 100, 400, 2000, 1000), "{tally:?}");
    run
}
