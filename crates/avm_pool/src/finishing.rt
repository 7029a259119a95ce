//! From a journal to its proposal. The ledger after the calls takes about as long to make as the entries of the block, their
//! bytes and SHA-256 of these; so one thread makes the one and another the others. Where no thread can be made, one comes after
//! the other. Where the process ends with the proposal, the journal is left to the operating system.

ghost use Rattle.std.specs.Prelude.{IfOk};
ghost use Rattle.std.specs.Arc.{arc_value};
ghost use Rattle.mv_parts.specs.MadeEntries.{IsDigestAfter};
ghost use Rattle.avm_pool.specs.Finishing.{AreBegun, AreParts};
ghost use Rattle.avm_pool.specs.Logged.{IsJournalOver};
ghost use Rattle.avm_pool.specs.Proposals.{IsProposal};

use crate::block_prefix::{BlockPrefix, begun_of};
use crate::draft::SharedDraft;
use crate::left_numbers::left_of;
use crate::proposal::Proposal;
use avm_block::{Entry, Front};
use avm_ledger::{Base, Header};
use mv_parts::{Journal, Sealed};
use std::alloc::{AllocError, Global};
use std::mem;
use std::thread::{Threads, join};

/// What the bytes of a block are made of.
#[derive(Drop)]
pub(crate) struct Parts {
    entries: Vec<Entry>,
    front: Front,
    /// The digest of the ledger after the entries.
    after: [u8; 32],
}

/// The proposal of a journal of this draft, where so much of the block was made before. Where the process ends with it, the journal
/// is not freed.
pub(crate) fn proposal_of<R: Threads + Sync>(
    rt: &R,
    draft: &SharedDraft,
    journal: Journal,
    prefix: Option<BlockPrefix>,
    exits: bool,
) -> Result<Proposal, AllocError>
    requires { IsJournalOver
        (arc_value draft.now.base.now) draft.now.header (arc_value draft.now.calls).items journal }
    ensures { IfOk result (IsProposal
        (arc_value draft.now.base.now) draft.now.header (arc_value draft.now.calls).items) }
{
    let made = made_of(rt, draft, &journal, prefix);
    to_free(journal, exits);
    made
}

/// The proposal of a journal that stays.
fn made_of<R: Threads + Sync>(
    rt: &R,
    draft: &SharedDraft,
    journal: &Journal,
    prefix: Option<BlockPrefix>,
) -> Result<Proposal, AllocError>
    requires { IsJournalOver
        (arc_value draft.now.base.now) draft.now.header (arc_value draft.now.calls).items journal.now }
    ensures { IfOk result (IsProposal
        (arc_value draft.now.base.now) draft.now.header (arc_value draft.now.calls).items) }
{
    let parts = parts_of(rt, draft.alloc, journal, prefix, draft.base, &draft.header)?;
    proposal_with(draft.alloc, journal, parts)
}

/// The proposal that a journal's parts make.
fn proposal_with(alloc: Global, journal: &Journal, parts: Parts) -> Result<Proposal, AllocError>
    requires { AreParts journal.now journal.now.base journal.now.header parts }
    ensures { IfOk result
        (IsProposal journal.now.base journal.now.header journal.now.calls) }
{
    let Parts {
        entries,
        front,
        after,
    } = parts;
    let bytes = front.finish(&after)?;
    let Sealed { block, numbers } = journal.block_with(alloc, entries, after)?;
    // How many calls there are at most, as the journal keeps it.
    journal.holds();
    let count = journal.calls().len() as u32;
    let left = left_of(alloc, &numbers, count)?;
    Ok(Proposal {
        block,
        bytes,
        numbers,
        left,
    })
}

/// The parts of a journal's block, over this ledger and under this header.
fn parts_of<R: Threads + Sync>(
    rt: &R,
    alloc: Global,
    journal: &Journal,
    prefix: Option<BlockPrefix>,
    base: &Base,
    header: &Header,
) -> Result<Parts, AllocError>
    ensures { IfOk result (AreParts journal.now base.now header.now) }
{
    let (after, begun) = join(
        rt,
        || -> Result<[u8; 32], AllocError>
            ensures { IfOk result
                (IsDigestAfter journal.entry.now.base journal.entry.now.world.entries) }
        { journal.digest_after(alloc) },
        move || -> Result<(Vec<Entry>, Front), AllocError>
            ensures { IfOk result (λ begun. AreBegun journal.entry.now
                base.entry.now header.entry.now (begun.0.items, begun.1)) }
        { begun_of(alloc, journal, prefix, base.digest(), header) },
    );
    let (entries, front) = begun?;
    let after = after?;
    Ok(Parts {
        entries,
        front,
        after,
    })
}

/// What is to be freed: nothing, where the process ends, which takes all memory back.
fn to_free<T: Drop>(value: T, exits: bool) -> Option<T> {
    if exits {
        mem::forget(value);
        None
    } else {
        Some(value)
    }
}
