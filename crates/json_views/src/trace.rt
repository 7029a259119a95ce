//! The traces of the calls of a block, or of one of its entries.

ghost use Rattle.std.specs.Prelude.{◌≡◌, IfErr, IfOk, List, OnOk, Some, map, string_bytes};
ghost use Rattle.json.specs.Token.{Token};
ghost use Rattle.avm_ledger.specs.Encodings.{ledger_digest};
ghost use Rattle.avm_stepper.specs.Opening.{IsOpened};
ghost use Rattle.json_views.specs.CallTraces.{AddsDocument, AddsTraces, FindsRefusal, FindsText, IsDocumentFailure, IsEntryFailure, IsTextFailure, IsTextWithin, IsTracesFailure, array_tokens, response_tokens};
ghost use Rattle.json_views.specs.StateRuns.{AddsTrace, IsStartOver, IsTraceFailure};
ghost use Rattle.json_views.specs.Traces.{FindsBlock, FindsEntry, IsBlockTrace, IsEntryTrace};

use crate::call_trace::{Ending, Traced, put_call_trace, put_run_trace};
use crate::refusal::TraceRefusal;
use crate::writing::{
    TEXT_LIMIT, Writer, begin_array, begin_object, document_text, end_array, end_object, put_name,
    put_text_member,
};
use avm_block::{Block, Entry};
use avm_ledger::{Base, Ledger};
use avm_ops::Op;
use avm_run::{Executions, FullOps, RunContext, call_plain};
use avm_stepper::{OpenFault, Stepper, entry_of};
use std::alloc::Global;
use std::marker::Brand;
use std::sync::ledger;
use std::sync::ledger::Blank;
use teal_value::Failure;

/// The text of the trace of a block's entry over the ledger before the block, or why there is none. Entries are numbered
/// from 1.
pub fn entry_trace<O: Op>(
    alloc: Global,
    base: &Base,
    block: &Block,
    number: usize,
    ops: &FullOps<O>,
) -> Result<String, Failure<TraceRefusal>>
    ensures found { IfOk result
        (λ text. FindsText (FindsEntry (base.now, block.now) number) (string_bytes text)) }
    ensures refused { IfErr result (FindsRefusal (FindsEntry (base.now, block.now) number)) }
{
    let mut out = Writer::new(alloc);
    put_entry_trace(alloc, &mut out, base, block, number, ops)?;
    text_within(out)
}

/// Writes the trace of the call of an entry over the ledger before its block. Entries are numbered from 1.
pub fn put_entry_trace<O: Op>(
    alloc: Global,
    out: &mut Writer,
    base: &Base,
    block: &Block,
    number: usize,
    ops: &FullOps<O>,
) -> Result<(), Failure<TraceRefusal>>
    ensures written { OnOk result
        (AddsDocument (IsEntryTrace base.now block.now number) out.old out.new) }
    ensures refused { IfErr result (IsEntryFailure base.now block.now number out.old) }
{
    let mut stepper = opened(alloc, base, block, number, ops)?;
    let Some(entry) = entry_of(block.entries(), number) else {
        unreachable!()
    };
    let context = RunContext {
        alloc,
        ops,
        header: block.header(),
    };
    put_opened_trace::<Brand, O>(&context, out, &mut stepper, entry, Blank::new(2))
}

/// The call of an entry, before the first instruction of its program.
fn opened<O: Op>(
    alloc: Global,
    base: &Base,
    block: &Block,
    number: usize,
    ops: &FullOps<O>,
) -> Result<Stepper, Failure<TraceRefusal>>
    ensures opened { IfOk result (λ stepper. IsOpened base.now block.now number stepper) }
    ensures refused { IfErr result
        (λ why. (old : List Token) → IsEntryFailure base.now block.now number old why) }
{
    match Stepper::open_block_on(alloc, base, block, number, ops) {
        Ok(stepper) => Ok(stepper),
        Err(Failure::Fault(fault)) => Err(Failure::Fault(TraceRefusal::Opening(fault))),
        Err(Failure::Memory) => Err(Failure::Memory),
    }
}

/// Writes the trace of an entry's call, by a stepper before its first instruction.
fn put_opened_trace<L: ledger::Ledger, O: Op>(
    context: &RunContext<'_, O>,
    out: &mut Writer,
    stepper: &mut Stepper,
    entry: &Entry,
    blank: Blank,
) -> Result<(), Failure<TraceRefusal>>
    requires blank { (blank.name ≡ L.name) × (blank.parts ≡ L.parts) × (blank.parts ≡ 2) }
    requires start { IsStartOver stepper.old entry.now.call context.now.header.now }
    ensures written { OnOk result
        (AddsTrace stepper.old (Some entry.now.outcome) out.old out.new) }
    ensures refused { IfErr result
        (IsTraceFailure stepper.old (Some entry.now.outcome) out.old) }
{
    let mut executions = Executions::<L>::new(blank);
    let (found, _after) = call_plain(context, stepper.ledger(), &entry.call, &mut executions)?;
    let ending = Ending {
        found,
        recorded: Some(entry.outcome),
    };
    put_run_trace(
        context.alloc,
        out,
        stepper,
        &entry.call,
        ending,
        context.ops,
    )
}

/// The text of the traces of all calls of a block over the ledger before it, or why there is none.
pub fn block_trace<O: Op>(
    alloc: Global,
    base: Base,
    block: &Block,
    ops: &FullOps<O>,
) -> Result<String, Failure<TraceRefusal>>
    ensures found { IfOk result
        (λ text. FindsText (FindsBlock (base, block.now)) (string_bytes text)) }
    ensures refused { IfErr result (FindsRefusal (FindsBlock (base, block.now))) }
{
    let ledger = ledger_under(base, block)?;
    let mut out = Writer::new(alloc);
    put_block_trace(alloc, &mut out, ledger, block, ops)?;
    text_within(out)
}

/// Writes the traces of all calls of a block over the ledger before it.
pub fn put_block_trace<O: Op>(
    alloc: Global,
    out: &mut Writer,
    ledger: Ledger,
    block: &Block,
    ops: &FullOps<O>,
) -> Result<(), Failure<TraceRefusal>>
    requires base { block.now.base ≡ ledger_digest ledger }
    ensures written { OnOk result
        (AddsDocument (IsBlockTrace ledger block.now) out.old out.new) }
    ensures refused { IfErr result
        (IsDocumentFailure (IsBlockTrace ledger block.now) out.old) }
{
    let context = RunContext {
        alloc,
        ops,
        header: block.header(),
    };
    begin_object(out)?;
    let blank = Blank::new(2);
    put_response::<Brand, Entry, O>(&context, out, ledger, block.entries(), blank)
}

/// The ledger before a block, unless the block stands over another one.
fn ledger_under(base: Base, block: &Block) -> Result<Ledger, Failure<TraceRefusal>>
    ensures same { IfOk result (λ _. block.now.base ≡ ledger_digest base) }
    ensures ledger { IfOk result (λ ledger. ledger ≡ base) }
    ensures refused { IfErr result (FindsRefusal (FindsBlock (base, block.now))) }
{
    if *base.digest() != *block.base() {
        return Err(Failure::Fault(TraceRefusal::Opening(OpenFault::WrongBase)));
    }
    Ok(base.into_ledger())
}

/// Writes the members of a response that has the traces of these calls, and closes it. Each call is made over the ledger that the
/// one before left.
pub(crate) fn put_response<L: ledger::Ledger, T: Traced, O: Op>(
    context: &RunContext<'_, O>,
    out: &mut Writer,
    ledger: Ledger,
    calls: &[T],
    blank: Blank,
) -> Result<(), Failure<TraceRefusal>>
    requires blank { (blank.name ≡ L.name) × (blank.parts ≡ L.parts) × (blank.parts ≡ 2) }
    ensures written { OnOk result (AddsTraces response_tokens ledger context.now.header.now
        (map T.recorded calls.now) out.old out.new) }
    ensures refused { IfErr result (IsTracesFailure response_tokens ledger context.now.header.now
        (map T.recorded calls.now) out.old) }
{
    let mut executions = Executions::<L>::new(blank);
    put_text_member(out, "error", "")?;
    put_text_member(out, "protocol-version", "")?;
    put_name(out, "txns")?;
    put_call_traces(context, out, ledger, calls, &mut executions)?;
    end_object(out)?;
    Ok(())
}

/// Writes the array of the traces of calls.
fn put_call_traces<L: ledger::Ledger, T: Traced, O: Op>(
    context: &RunContext<'_, O>,
    out: &mut Writer,
    ledger: Ledger,
    calls: &[T],
    executions: &mut Executions<L>,
) -> Result<(), Failure<TraceRefusal>>
    ensures written { OnOk result (AddsTraces array_tokens ledger context.now.header.now
        (map T.recorded calls.now) out.old out.new) }
    ensures refused { IfErr result (IsTracesFailure array_tokens ledger context.now.header.now
        (map T.recorded calls.now) out.old) }
{
    let mut ledger = ledger;
    begin_array(out)?;
    for traced in calls {
        ledger = put_call_trace(context, out, ledger, traced, executions)?;
        if out.is_too_long() {
            return Err(Failure::Fault(TraceRefusal::TooLong));
        }
    }
    end_array(out)?;
    Ok(())
}

/// The text of a document, unless it is too long.
pub(crate) fn text_within(out: Writer) -> Result<String, Failure<TraceRefusal>>
    ensures text { IfOk result (λ text. IsTextWithin out (string_bytes text)) }
    ensures refused { IfErr result (IsTextFailure out) }
{
    let text = document_text(out)?;
    if text.len() as u64 > TEXT_LIMIT {
        return Err(Failure::Fault(TraceRefusal::TooLong));
    }
    Ok(text)
}
