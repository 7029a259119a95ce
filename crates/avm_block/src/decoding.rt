//! Blocks read from bytes.

ghost use Rattle.std.specs.Prelude.{◌≡◌, if◌then◌else◌, Ok, Err, IfOk};
ghost use Rattle.std.specs.Arc.{arc_value};
ghost use Rattle.teal_value.specs.Answer.{Gives};
ghost use Rattle.avm_call_codec.specs.CallReader.{call_front};
ghost use Rattle.avm_block.specs.declared.block_fault.BlockFault.TheVariants.{Field};
ghost use Rattle.avm_block.specs.AcceptedCalls.{is_accepted};
ghost use Rattle.avm_block.specs.Blocks.{Block as BlockRecord};
ghost use Rattle.avm_block.specs.BlockReader.{block_at, block_fault_of, body_at, call_in, count_at, block_entries_at, block_entry_at, in_block, magic_at, timestamp_at};
ghost use Rattle.avm_block.specs.BlockRoundTrip.{IsBlock};
ghost use Rattle.avm_block.specs.BlockEncoding.{block_bytes, magic};

use crate::accepted_calls::accepts;
use crate::block::{Block, MAX_ENTRIES, Parts};
use crate::block_fault::{BlockError, BlockFault};
use crate::entry::Entry;
use crate::front::MAGIC;
use crate::header_codec::{header_of, profile_of};
use crate::outcome_codec::outcome_of;
use avm_call::Call;
use avm_call_codec::{CallCodec, CallDataFault};
use avm_items::CallData;
use avm_ledger::{Fields, Profile};
use sha2::{Digest, Sha256};
use std::alloc::Global;
use std::sync::Arc;
use teal_value::Failure;

/// How many bytes an entry has at least: those of a call without note, lists and programs, a timestamp and an outcome.
const LEAST_ENTRY_BYTES: usize = 151;

/// The block that the bytes are. The first fault in reading order counts. Nothing grows by a count or a length that the
/// bytes do not back.
pub fn decode(alloc: Global, bytes: &[u8]) -> Result<Block, BlockError>
    // The block that the grammar reads, or the fault that it names.
    ensures exact { Gives (λ block. block) result (block_at is_accepted bytes.now) }
    // What is read is encoded by those very bytes.
    ensures encoded { IfOk result (λ block. block_bytes block ≡ bytes.now) }
    // A block is read from its encoding, unless memory runs out.
    ensures only { (block : BlockRecord) → IsBlock is_accepted block
        → bytes.now ≡ block_bytes block → Gives (λ x. x) result (Ok block) }
{
    block_of(alloc, bytes)
}

fn block_of(alloc: Global, bytes: &[u8]) -> Result<Block, BlockError>
    ensures { Gives (λ block. block) result (block_at is_accepted bytes.now) }
{
    let parts = parts_of(alloc, bytes)?;
    Ok(Block::from_parts(parts))
}

/// The parts of the block that the bytes are.
fn parts_of(alloc: Global, bytes: &[u8]) -> Result<Parts, BlockError>
    ensures { Gives (λ parts. record {
      base = parts.base;
      header = parts.header;
      entries
          = parts.entries.items;
      after = parts.after;
    }) result (block_at is_accepted bytes.now) }
{
    let (parts, rest) = body_of(alloc, Fields::new(bytes))?;
    let (body, _) = bytes.split_at(bytes.len() - rest.len());
    let (digest, rest) = rest.array(BlockFault::Truncated)?;
    if !rest.is_empty() {
        return Err(Failure::Fault(BlockFault::Rest));
    }
    if digest != Sha256::digest(body) {
        return Err(Failure::Fault(BlockFault::Digest));
    }
    Ok(parts)
}

/// All up to the last digest.
fn body_of(alloc: Global, fields: Fields<'_>) -> Result<(Parts, Fields<'_>), BlockError>
    ensures { Gives (λ x. (
      record {
        base = x.0.base;
        header = x.0.header;
        entries
            = x.0.entries.items;
        after = x.0.after;
      },
      x.1,
    )) result (body_at is_accepted fields.entry) }
{
    let rest = behind_magic(fields)?;
    let (profile, rest) = profile_of(rest)?;
    let (base, rest) = rest.array(BlockFault::Truncated)?;
    let (header, rest) = header_of(profile, rest)?;
    let (count, rest) = count_of(rest)?;
    let (entries, rest) = entries_of(alloc, profile, count, rest)?;
    let (after, rest) = rest.array(BlockFault::Truncated)?;
    let parts = Parts {
        base,
        header,
        entries,
        after,
    };
    Ok((parts, rest))
}

/// The bytes behind the letters that every block begins with.
fn behind_magic(fields: Fields<'_>) -> Result<Fields<'_>, BlockError>
    ensures { Gives (λ rest. (magic, rest)) result (magic_at fields.entry) }
{
    let (letters, rest) = fields.take(MAGIC.len(), BlockFault::Truncated)?;
    if letters != MAGIC.as_slice() {
        return Err(Failure::Fault(BlockFault::Magic));
    }
    Ok(rest)
}

/// How many entries there are.
fn count_of(fields: Fields<'_>) -> Result<(u32, Fields<'_>), BlockError>
    ensures { Gives (λ x. x) result (count_at fields.entry) }
{
    let (count, rest) = fields.u32(BlockFault::Truncated)?;
    if count as usize > MAX_ENTRIES {
        return Err(Failure::Fault(BlockFault::Field));
    }
    Ok((count, rest))
}

/// So many entries by rising timestamp.
fn entries_of(
    alloc: Global,
    profile: Profile,
    count: u32,
    fields: Fields<'_>,
) -> Result<(Vec<Entry>, Fields<'_>), BlockError>
    ensures { Gives (λ x. (x.0.items, x.1)) result
        (block_entries_at (is_accepted profile) count 0 fields.entry) }
{
    // Room for all of them, where the bytes can be so many entries.
    let most = fields.len() / LEAST_ENTRY_BYTES;
    let mut entries = Vec::with_capacity(alloc, most.min(count as usize))?;
    let mut before = 0;
    let mut rest = fields;
    for _ in 0..count {
        let (entry, next) = entry_of(alloc, profile, before, rest)?;
        before = entry.timestamp;
        entries.push(entry)?;
        rest = next;
    }
    Ok((entries, rest))
}

/// An entry behind the timestamp before.
fn entry_of(
    alloc: Global,
    profile: Profile,
    before: u64,
    fields: Fields<'_>,
) -> Result<(Entry, Fields<'_>), BlockError>
    ensures { Gives (λ x. x) result (block_entry_at (is_accepted profile) before fields.entry) }
{
    let (timestamp, rest) = timestamp_of(before, fields)?;
    let (call, rest) = call_of(alloc, profile, rest)?;
    let (outcome, rest) = outcome_of(rest)?;
    let entry = Entry {
        timestamp,
        call,
        outcome,
    };
    Ok((entry, rest))
}

/// A timestamp above the one before.
fn timestamp_of(before: u64, fields: Fields<'_>) -> Result<(u64, Fields<'_>), BlockError>
    ensures { Gives (λ x. x) result (timestamp_at before fields.entry) }
{
    let (timestamp, rest) = fields.u64(BlockFault::Truncated)?;
    if timestamp <= before {
        return Err(Failure::Fault(BlockFault::Order));
    }
    Ok((timestamp, rest))
}

/// A call that a block of this profile may have.
fn call_of(
    alloc: Global,
    profile: Profile,
    fields: Fields<'_>,
) -> Result<(Call, Fields<'_>), BlockError>
    ensures { Gives (λ x. x) result (call_in (is_accepted profile) fields.entry) }
{
    let len = fields.len();
    let (bytes, _) = fields.take(len, BlockFault::Truncated)?;
    let (call, rest) = call_fields_of(alloc, bytes)?;
    let call = accepted(alloc, profile, call)?;
    Ok((call, rest))
}

/// The fields of the call that the bytes begin with, and the bytes behind it.
fn call_fields_of(alloc: Global, bytes: &[u8]) -> Result<(Arc<CallData>, Fields<'_>), BlockError>
    ensures { Gives (λ x. (arc_value x.0, x.1)) result (in_block (call_front bytes.now)) }
{
    match CallData::shared_front(alloc, bytes, 0) {
        Ok((call, end)) => {
            let (_, rest) = bytes.split_at(end);
            Ok((call, Fields::new(rest)))
        }
        Err(Failure::Fault(fault)) => Err(Failure::Fault(block_fault_of(fault))),
        Err(Failure::Memory) => Err(Failure::Memory),
    }
}

fn block_fault_of(fault: CallDataFault) -> BlockFault
    ensures { result ≡ block_fault_of fault }
{
    match fault {
        CallDataFault::Truncated => BlockFault::Truncated,
        CallDataFault::Field => BlockFault::Field,
        CallDataFault::Rest => BlockFault::Rest,
    }
}

/// The call of these fields, where a block of this profile may have it.
fn accepted(alloc: Global, profile: Profile, fields: Arc<CallData>) -> Result<Call, BlockError>
    ensures { Gives (λ call. call) result
        (if is_accepted profile (arc_value fields) then Ok (arc_value fields) else Err Field) }
{
    match Call::of_shared(alloc, fields) {
        Ok(call) => {
            if !accepts(profile, &call) {
                return Err(Failure::Fault(BlockFault::Field));
            }
            Ok(call)
        }
        Err(Failure::Fault(_)) => Err(Failure::Fault(BlockFault::Field)),
        Err(Failure::Memory) => Err(Failure::Memory),
    }
}
