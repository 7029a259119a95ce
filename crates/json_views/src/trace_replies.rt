//! What `trace` answers.

ghost use Rattle.std.specs.Prelude.{◌≡◌, IfErr, IfOk, Ok, string_bytes};
ghost use Rattle.avm_input.specs.Replies.{succeeded};
ghost use Rattle.avm_input.specs.Shown.{reply_shown};
ghost use Rattle.json_views.specs.TraceReplies.{IsFoundReply, IsRefusalReply, IsTraceOn, IsTraceReply, trace_too_long};
ghost use Rattle.json_views.specs.Traces.{FindsBlock, FindsEntry};

use crate::refusal::TraceRefusal;
use crate::trace::{block_trace, entry_trace};
use avm_block::Block;
use avm_input::{DONE, REFUSED, Refusal, Reply, ledger_and_block, refusal_reply};
use avm_ledger::Base;
use avm_ops::Op;
use avm_run::FullOps;
use std::alloc::{AllocError, Global};
use teal_value::Failure;

/// What `trace` answers to its input, the ledger before a block and the block: the trace of an entry's call, or of all calls
/// where none is named; or why there is none. Entries are numbered from 1.
pub fn trace_reply<O: Op>(
    alloc: Global,
    entry: Option<u64>,
    input: Vec<u8>,
    ops: &FullOps<O>,
) -> Result<Reply, AllocError>
    ensures { IfOk result (λ reply. IsTraceReply entry input.items (reply_shown reply)) }
{
    match ledger_and_block(alloc, input) {
        Ok((base, block)) => traced_reply(alloc, entry, base, &block, ops),
        Err(failure) => refusal_reply(alloc, failure.into_fault()?),
    }
}

fn traced_reply<O: Op>(
    alloc: Global,
    entry: Option<u64>,
    base: Base,
    block: &Block,
    ops: &FullOps<O>,
) -> Result<Reply, AllocError>
    ensures { IfOk result
        (λ reply. IsTraceOn entry (Ok (base, block.now)) (reply_shown reply)) }
{
    match entry {
        Some(number) => entry_reply(alloc, number, &base, block, ops),
        None => block_reply(alloc, base, block, ops),
    }
}

/// The trace of the call of an entry, as an answer.
fn entry_reply<O: Op>(
    alloc: Global,
    number: u64,
    base: &Base,
    block: &Block,
    ops: &FullOps<O>,
) -> Result<Reply, AllocError>
    ensures { IfOk result (λ reply. IsFoundReply trace_too_long
        (FindsEntry (base.now, block.now) number) (reply_shown reply)) }
{
    let found = entry_trace(alloc, base, block, number as usize, ops);
    found_reply(alloc, found, "refused trace TooLong\n")
}

/// The traces of the calls of all entries, as an answer.
fn block_reply<O: Op>(
    alloc: Global,
    base: Base,
    block: &Block,
    ops: &FullOps<O>,
) -> Result<Reply, AllocError>
    ensures { IfOk result (λ reply. IsFoundReply trace_too_long
        (FindsBlock (base, block.now)) (reply_shown reply)) }
{
    let found = block_trace(alloc, base, block, ops);
    found_reply(alloc, found, "refused trace TooLong\n")
}

/// The answer of what is found; a text that is too long is refused in these words.
pub fn found_reply(
    alloc: Global,
    found: Result<String, Failure<TraceRefusal>>,
    too_long: &str,
) -> Result<Reply, AllocError>
    ensures text { IfOk found (λ text. IfOk result (λ reply. reply_shown reply
        ≡ record { text = string_bytes text; status = succeeded })) }
    ensures refused { IfErr found (λ why. IfOk result
        (λ reply. IsRefusalReply too_long.now why (reply_shown reply))) }
{
    match found {
        Ok(text) => Ok(Reply {
            text: text.into_bytes(),
            status: DONE,
        }),
        Err(Failure::Fault(TraceRefusal::Opening(fault))) => refusal_reply(
            alloc,
            Refusal::Opening(fault),
        ),
        Err(Failure::Fault(TraceRefusal::TooLong)) => Ok(Reply {
            text: String::from_str(alloc, too_long)?.into_bytes(),
            status: REFUSED,
        }),
        Err(Failure::Memory) => Err(AllocError),
    }
}
