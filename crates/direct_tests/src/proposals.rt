//! Calls that several threads run into one block: by cases, and random ones.

use crate::cases::CASES;
use crate::data::{BASE, CALLS, calls_of, ledger_of, programs, some_calls};
use crate::proposing::wrong;
use crate::random::Random;
use crate::random_blocks::run_block;
use crate::sets::filled_ops;
use avm_ops::BoxedOp;
use avm_pool::{Draft, ThreadSets};
use sample_calls::calls::HEADER;
use std::alloc::Global;
use std::ops::Range;
use std::process::Abort;
use std::sync::Wait;
use std::test::Fail;
use std::thread::Threads;

/// So many random blocks has each test of them.
const BLOCKS: u64 = 1000;

/// So many calls has each block.
const BLOCK_CALLS: u64 = 8;

/// The sets of so many workers and their caller.
fn thread_sets(alloc: Global, workers: u64) -> Result<ThreadSets<BoxedOp>, Fail> {
    let mut sets = Vec::new(alloc);
    for _ in 0..workers {
        sets.push(filled_ops(alloc)?)?;
    }
    Ok(ThreadSets {
        workers: sets,
        own: filled_ops(alloc)?,
    })
}

#[test]
fn cases(rt: HostRuntime) -> Result<(), Fail> {
    let alloc = rt.alloc();
    for case in &CASES {
        let sets = thread_sets(alloc, case.workers as u64)?;
        match wrong(&rt, alloc, case, sets, filled_ops(alloc)?)? {
            None => {}
            Some(wrong) => assert!(rt; false, "{}: {wrong}", case.name),
        }
    }
    Ok(())
}

/// Makes and replays the block of each seed.
fn run_blocks<R: Threads + Wait + Sync + Abort>(
    rt: &R,
    alloc: Global,
    seeds: Range<u64>,
) -> Result<(), Fail> {
    let programs = programs(alloc)?;
    let base = ledger_of(alloc, &programs, BASE)?;
    let all = calls_of(alloc, &programs, &CALLS, 1)?;
    for seed in seeds {
        let mut random = Random::new(seed);
        let sets = thread_sets(alloc, 2 + random.below(7))?;
        let draft = Draft {
            base: &base,
            header: HEADER,
            calls: some_calls(alloc, &mut random, &all, BLOCK_CALLS)?,
        };
        let run = run_block(rt, alloc, draft, sets, filled_ops(alloc)?);
        assert!(rt; run.is_ok(), "block {seed}");
        run?;
    }
    Ok(())
}

// Two tests, since each has a time of its own to end in.

#[test]
fn random_blocks(rt: HostRuntime) -> Result<(), Fail> {
    run_blocks(&rt, rt.alloc(), 0..BLOCKS)
}

#[test]
fn more_random_blocks(rt: HostRuntime) -> Result<(), Fail> {
    run_blocks(&rt, rt.alloc(), BLOCKS..2 * BLOCKS)
}
