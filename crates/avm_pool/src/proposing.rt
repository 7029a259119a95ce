//! The pool.

ghost use Rattle.std.specs.Prelude.{◌≡◌, ◌≤◌, IfErr, IfOk, None, OnOk, length};
ghost use Rattle.std.specs.Arc.{arc_value};
ghost use Rattle.avm_block.specs.Blocks.{most_calls};
ghost use Rattle.avm_block.specs.CallsFaults.{calls_fault};
ghost use Rattle.avm_pool.specs.Proposals.{IsProposal};
ghost use Rattle.avm_pool.specs.Refusals.{IsRefusal, IsWant, MayPropose};

use crate::after_workers::run_remaining;
use crate::block_prefix::BlockPrefix;
use crate::commit_log::OpenedLog;
use crate::draft::{Crew, Draft, SharedDraft, ThreadSets};
use crate::finishing::proposal_of;
use crate::gate::Gate;
use crate::logged_journal::LoggedJournal;
use crate::naming::Naming;
use crate::pool_fault::{PoolError, PoolFault};
use crate::proposal::Proposal;
use crate::refusals::pool_fault;
use crate::running::Shared;
use crate::workers::run_sets;
use avm_ledger::{Base, Ledger};
use avm_ops::Op;
use avm_run::FullOps;
use std::alloc::{AllocError, Global};
use std::marker::Brand;
use std::sync::{Arc, Mutex, Wait};
use std::thread::Threads;
use teal_value::Failure;

/// Runs calls on a ledger in as many threads as there are sets of workers, and gives their block. A program runs
/// outside all locks, and reads of items in different shards share none. What the workers leave, the calling thread
/// runs with its own set.
///
/// The gate is told of each event, and may hold the thread that tells it. [`propose_on`] serves callers who have the
/// ledger's digest.
pub fn propose<G: Gate, R: Threads + Wait + Sync, O: Op>(
    rt: &R,
    alloc: Global,
    draft: Draft<Ledger>,
    sets: ThreadSets<O>,
    gate: &G,
) -> Result<Proposal, PoolError>
    ensures proposal { IfOk result
        (IsProposal draft.entry.base.now draft.entry.header draft.entry.calls.items) }
    ensures may { OnOk result (MayPropose O.opcode
        sets.workers.items sets.own draft.entry.header draft.entry.calls.items) }
    ensures refused { IfErr result (IsRefusal O.opcode
        sets.workers.items sets.own draft.entry.header draft.entry.calls.items) }
{
    match pool_fault(&sets.workers, &sets.own, &draft.header, &draft.calls) {
        Some(fault) => Err(Failure::Fault(fault)),
        None => {
            let ThreadSets { workers, own } = sets;
            let own = FullOps::from_full(own);
            proposed_over(rt, alloc, draft, Crew { workers, own }, gate)
        }
    }
}

/// As [`propose`], on a ledger that is shared and has its digest: it is not copied, and not encoded again.
///
/// `EXITS` says whether the process ends with the proposal. If so, the journal is left to the operating system, which takes all
/// memory back at once.
pub fn propose_on<G: Gate, R: Threads + Wait + Sync, O: Op, const EXITS: bool>(
    rt: &R,
    alloc: Global,
    draft: Draft<Arc<Base>>,
    sets: ThreadSets<O>,
    gate: &G,
) -> Result<Proposal, PoolError>
    ensures proposal { IfOk result
        (IsProposal (arc_value draft.entry.base.now) draft.entry.header draft.entry.calls.items) }
    ensures may { OnOk result (MayPropose O.opcode
        sets.workers.items sets.own draft.entry.header draft.entry.calls.items) }
    ensures refused { IfErr result (IsRefusal O.opcode
        sets.workers.items sets.own draft.entry.header draft.entry.calls.items) }
{
    match pool_fault(&sets.workers, &sets.own, &draft.header, &draft.calls) {
        Some(fault) => Err(Failure::Fault(fault)),
        None => {
            let ThreadSets { workers, own } = sets;
            let own = FullOps::from_full(own);
            proposed(rt, alloc, draft, Crew { workers, own }, gate, EXITS)
        }
    }
}

/// What comes out where no test fails, over a copy of a ledger.
fn proposed_over<G: Gate, R: Threads + Wait + Sync, O: Op>(
    rt: &R,
    alloc: Global,
    draft: Draft<Ledger>,
    crew: Crew<O>,
    gate: &G,
) -> Result<Proposal, PoolError>
    requires opens { calls_fault draft.header draft.calls.items ≡ None }
    ensures proposal { IfOk result
        (IsProposal draft.entry.base.now draft.entry.header draft.entry.calls.items) }
    ensures want { IfErr result IsWant }
{
    let Draft {
        base,
        header,
        calls,
    } = draft;
    let base = Arc::new(alloc, Base::of(alloc, base.clone()?)?)?;
    let draft = Draft {
        base: &base,
        header,
        calls,
    };
    proposed(rt, alloc, draft, crew, gate, false)
}

/// What comes out where no test fails. `exits` says whether the process ends with it.
fn proposed<G: Gate, R: Threads + Wait + Sync, O: Op>(
    rt: &R,
    alloc: Global,
    draft: Draft<Arc<Base>>,
    crew: Crew<O>,
    gate: &G,
    exits: bool,
) -> Result<Proposal, PoolError>
    requires opens { calls_fault draft.header draft.calls.items ≡ None }
    ensures proposal { IfOk result
        (IsProposal (arc_value draft.entry.base.now) draft.entry.header draft.entry.calls.items) }
    ensures want { IfErr result IsWant }
{
    let Draft {
        base,
        header,
        calls,
    } = draft;
    let calls = Arc::new(alloc, calls)?;
    let draft = SharedDraft {
        alloc,
        base,
        header,
        calls,
    };
    run_draft::<Brand, G, R, O>(rt, OpenedLog::new(), &draft, crew, gate, exits)
}

/// What a run of its own makes of a draft: its log is the one that was opened, and its journal is of the draft.
fn run_draft<J: Naming + Send + Sync, G: Gate, R: Threads + Wait + Sync, O: Op>(
    rt: &R,
    log: OpenedLog,
    draft: &SharedDraft,
    crew: Crew<O>,
    gate: &G,
    exits: bool,
) -> Result<Proposal, PoolError>
    requires opens { calls_fault draft.now.header (arc_value draft.now.calls).items ≡ None }
    requires book { log.seen.book ≡ J.book }
    requires draft { (arc_value draft.now.base.now ≡ J.base) × (draft.now.header ≡ J.header)
        × ((arc_value draft.now.calls).items ≡ J.calls) }
    ensures proposal { IfOk result (IsProposal
        (arc_value draft.now.base.now) draft.now.header (arc_value draft.now.calls).items) }
    ensures want { IfErr result IsWant }
{
    let prefix = Mutex::new(draft.prefix(crew.workers.len())?);
    let (journal, shards) = draft.open::<J>(log)?;
    let journal = Mutex::new(journal);
    let shared = Shared {
        alloc: draft.alloc,
        shards: shards.as_slice(),
        calls: draft.calls.as_slice(),
        header: &draft.header,
        prefix: &prefix,
        gate,
    };
    run_calls(rt, &journal, &shared, crew)?;
    // What the shards took has room for what is made of the journal.
    drop(shards);
    let proposal = proposal_by(rt, draft, journal.into_inner(), prefix.into_inner(), exits)?;
    Ok(proposal)
}

/// The proposal of the journal with which a run of this draft ends.
fn proposal_by<J: Naming, R: Threads + Sync>(
    rt: &R,
    draft: &SharedDraft,
    journal: LoggedJournal<J>,
    prefix: Option<BlockPrefix>,
    exits: bool,
) -> Result<Proposal, AllocError>
    requires { (arc_value draft.now.base.now ≡ J.base) × (draft.now.header ≡ J.header)
        × ((arc_value draft.now.calls).items ≡ J.calls) }
    ensures { IfOk result (IsProposal
        (arc_value draft.now.base.now) draft.now.header (arc_value draft.now.calls).items) }
{
    proposal_of(rt, draft, journal.into_journal(), prefix, exits)
}

/// Has the workers run the calls, and then one thread those that they leave.
fn run_calls<J: Naming + Send + Sync, G: Gate, R: Threads + Wait + Sync, O: Op>(
    rt: &R,
    journal: &Mutex<LoggedJournal<J>>,
    shared: &Shared<J, G>,
    crew: Crew<O>,
) -> Result<(), PoolError>
    requires few { length shared.now.calls.now ≤ most_calls }
    ensures want { IfErr result IsWant }
{
    let Crew { workers, own } = crew;
    run_sets(rt, journal, shared, workers)?;
    if run_remaining(rt, journal, shared, &own) {
        Ok(())
    } else {
        Err(Failure::Fault(PoolFault::ClockEnd))
    }
}
