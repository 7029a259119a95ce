//! Blocks that workers make of random calls on a few items, each of which is replayed by `avm_replay`, which uses
//! nothing of the pool.

ghost use Rattle.std.specs.Prelude.{◌≡◌};

use crate::proposing::{proposed, replayed};
use crate::sets::full_ops;
use avm_ledger::Ledger;
use avm_ops::{Op, Ops};
use avm_pool::{Draft, OpenGate, ThreadSets};
use std::alloc::Global;
use std::sync::Wait;
use std::test::Fail;
use std::thread::Threads;

/// Proposes drawn calls, and replays their block with another set.
pub fn run_block<R: Threads + Wait + Sync, O: Op>(
    rt: &R,
    alloc: Global,
    draft: Draft<Ledger>,
    sets: ThreadSets<O>,
    other: Ops<O>,
) -> Result<(), Fail> {
    let base = draft.base;
    let block = proposed(rt, alloc, draft, sets, &OpenGate)?;
    let _after = replayed(alloc, base, &block, &full_ops(other)?)?;
    Ok(())
}
