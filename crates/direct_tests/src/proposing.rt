//! Whether calls are proposed as a case says.

ghost use Rattle.std.specs.Prelude.{◌≡◌};

use crate::cases::Case;
use crate::data::{bytes_of, calls_of, ledger_of, programs, stand_once};
use crate::script::Script;
use crate::sets::full_ops;
use avm_block::{Block, encode};
use avm_ledger::{Header, Ledger};
use avm_ops::{Op, Ops};
use avm_pool::{Draft, Gate, Proposal, ThreadSets, propose};
use avm_replay::{Verdict, replay};
use avm_run::FullOps;
use sample_calls::calls::HEADER;
use sample_calls::programs::Programs;
use std::alloc::Global;
use std::sync::Wait;
use std::test::Fail;
use std::thread::Threads;

/// Calls that are proposed whole: none is left, and the number of each stands once.
pub fn proposed<G: Gate, R: Threads + Wait + Sync, O: Op>(
    rt: &R,
    alloc: Global,
    draft: Draft<Ledger>,
    sets: ThreadSets<O>,
    gate: &G,
) -> Result<Block, Fail> {
    let count = draft.calls.len();
    match propose(rt, alloc, draft, sets, gate) {
        Ok(proposal) => {
            let Proposal {
                block,
                numbers,
                left,
                ..
            } = proposal;
            if !left.is_empty() {
                return Err("a call is left".into());
            }
            let is_whole = numbers.len() == count && block.entries().len() == count;
            if !is_whole || !stand_once(alloc, &numbers, count)? {
                return Err("each call is in the block, once".into());
            }
            Ok(block)
        }
        Err(_) => Err("the calls are proposed".into()),
    }
}

/// The bytes of the ledger after a block, where it replays.
pub fn replayed<O: Op>(
    alloc: Global,
    base: &Ledger,
    block: &Block,
    ops: &FullOps<O>,
) -> Result<Vec<u8>, Fail> {
    match replay(alloc, base, block, ops)? {
        Verdict::Agrees(after) => Ok(after.canonical(alloc)?),
        _ => Err("the block replays".into()),
    }
}

/// Whether a block has these timestamps, or any where none are given.
fn has_timestamps(block: &Block, timestamps: &[u64]) -> bool {
    if timestamps.is_empty() {
        return true;
    }
    for (entry, timestamp) in block.entries().iter().zip(timestamps.iter()) {
        if entry.timestamp != *timestamp {
            return false;
        }
    }
    block.entries().len() == timestamps.len()
}

/// Whether a block has these bytes, or any where none are given.
fn has_bytes(alloc: Global, block: &Block, digits: &str) -> Result<bool, Fail> {
    Ok(
        digits.is_empty()
            || encode(alloc, block)?.as_slice() == hex::decode(alloc, digits)?.as_slice(),
    )
}

/// What differs from the case, if something does. The block is replayed with another set.
pub fn wrong<R: Threads + Wait + Sync, O: Op>(
    rt: &R,
    alloc: Global,
    case: &Case,
    sets: ThreadSets<O>,
    other: Ops<O>,
) -> Result<Option<&'static str>, Fail> {
    let other = full_ops(other)?;
    wrong_by(rt, alloc, case, sets, &other)
}

fn wrong_by<R: Threads + Wait + Sync, O: Op>(
    rt: &R,
    alloc: Global,
    case: &Case,
    sets: ThreadSets<O>,
    other: &FullOps<O>,
) -> Result<Option<&'static str>, Fail> {
    let programs = programs(alloc)?;
    let base = ledger_of(alloc, &programs, case.base)?;
    let draft = Draft {
        base: &base,
        header: Header {
            profile: case.profile,
            ..HEADER
        },
        calls: calls_of(alloc, &programs, case.calls, case.times)?,
    };
    match made(rt, alloc, case, draft, sets)? {
        Ok(block) => {
            let after = replayed(alloc, &base, &block, other)?;
            difference(alloc, case, &programs, &block, after.as_slice())
        }
        Err(wrong) => Ok(Some(wrong)),
    }
}

/// The block of a case's calls, or what went otherwise as it was made.
fn made<R: Threads + Wait + Sync, O: Op>(
    rt: &R,
    alloc: Global,
    case: &Case,
    draft: Draft<Ledger>,
    sets: ThreadSets<O>,
) -> Result<Result<Block, &'static str>, Fail> {
    let gate = Script::new(alloc, case.holds, draft.calls.len())?;
    let block = proposed(rt, alloc, draft, sets, &gate)?;
    if !gate.is_passed() {
        Ok(Err("someone waited in vain, or a call was not committed once"))
    } else if case.first && !gate.is_first() {
        Ok(Err("a call was made again"))
    } else {
        Ok(Ok(block))
    }
}

/// What differs from the case in a block and the ledger after it, if something does.
fn difference(
    alloc: Global,
    case: &Case,
    programs: &Programs,
    block: &Block,
    after: &[u8],
) -> Result<Option<&'static str>, Fail> {
    if !has_timestamps(block, case.timestamps) {
        return Ok(Some("the timestamps"));
    }
    if !has_bytes(alloc, block, case.block)? {
        return Ok(Some("the block's bytes"));
    }
    if !is_one_of(alloc, programs, after, &case.after)? {
        return Ok(Some("the ledger after"));
    }
    Ok(None)
}

/// Whether bytes are one of these two, in pieces.
fn is_one_of(
    alloc: Global,
    programs: &Programs,
    bytes: &[u8],
    wanted: &[&str; 2],
) -> Result<bool, Fail> {
    Ok(
        bytes_of(alloc, programs, wanted[0])?.as_slice() == bytes
            || bytes_of(alloc, programs, wanted[1])?.as_slice() == bytes,
    )
}
