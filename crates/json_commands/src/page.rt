//! The command `page`: a block on a page for a browser.

ghost use Rattle.std.specs.Prelude.{◌≡◌, ◌≤◌, IfErr, IfOk, Ok, length, string_bytes};
ghost use Rattle.base64.specs.GeneralPurpose.{IsBytes};
ghost use Rattle.avm_input.specs.Shown.{reply_shown};
ghost use Rattle.json_views.specs.Weights.{most_text};
ghost use Rattle.json_commands.specs.Pages.{FindsBlockPage, FindsEntryPage, FindsPage, IsPage, IsPageReply, StandsOver, framed, number_of};
ghost use Rattle.json_commands.specs.Writing.{IsEndFailure, IsFinished, IsPageFailure, IsPageRefusal};

use crate::front::put_front;
use crate::texts::{BEGINNING, END};
use crate::traces::{Traces, put_traces};
use avm_input::{Reply, ledger_and_block, refusal_reply};
use avm_ledger::Base;
use avm_ops::Op;
use avm_run::FullOps;
use avm_stepper::OpenFault;
use base64::engine::general_purpose::STANDARD;
use json_views::block::DigestedBlock;
use json_views::writing::{TEXT_LIMIT, Writer, document_text, end_object};
use json_views::{TraceRefusal, found_reply};
use std::alloc::{AllocError, Global};
use teal_value::Failure;

/// What `page` answers to its input, the ledger before a block and the block: a page with the trace of an entry's call, or of all
/// calls where none is named and the page is not too long with them; or why there is none. Entries are numbered from 1.
pub fn page_reply<O: Op>(
    alloc: Global,
    entry: Option<u64>,
    input: Vec<u8>,
    ops: &FullOps<O>,
) -> Result<Reply, AllocError>
    ensures { IfOk result (λ reply. IsPageReply entry input.items (reply_shown reply)) }
{
    match ledger_and_block(alloc, input) {
        Ok((base, block)) => {
            let block = DigestedBlock::of(alloc, block)?;
            let found = page_of(alloc, entry, &base, &block, ops);
            found_reply(alloc, found, "refused page TooLong\n")
        }
        Err(failure) => refusal_reply(alloc, failure.into_fault()?),
    }
}

/// The page of a block over the ledger before it, or why there is none.
fn page_of<O: Op>(
    alloc: Global,
    entry: Option<u64>,
    base: &Base,
    block: &DigestedBlock,
    ops: &FullOps<O>,
) -> Result<String, Failure<TraceRefusal>>
    ensures found { IfOk result
        (λ page. FindsPage entry (base.now, block.now) (Ok (string_bytes page))) }
    ensures refused { IfErr result (IsPageRefusal (FindsPage entry (base.now, block.now))) }
{
    match entry {
        Some(number) => entry_page(alloc, number, base, block, ops),
        None => block_page(alloc, base, block, ops),
    }
}

/// The page with the trace of the call of an entry.
fn entry_page<O: Op>(
    alloc: Global,
    number: u64,
    base: &Base,
    block: &DigestedBlock,
    ops: &FullOps<O>,
) -> Result<String, Failure<TraceRefusal>>
    ensures found { IfOk result
        (λ page. FindsEntryPage (base.now, block.now) number (Ok (string_bytes page))) }
    ensures refused { IfErr result
        (IsPageRefusal (FindsEntryPage (base.now, block.now) number)) }
{
    page_with(alloc, Traces::Entry(number), base, block, ops)
}

/// The page with all traces, or without them where it is too long with them.
fn block_page<O: Op>(
    alloc: Global,
    base: &Base,
    block: &DigestedBlock,
    ops: &FullOps<O>,
) -> Result<String, Failure<TraceRefusal>>
    ensures found { IfOk result
        (λ page. FindsBlockPage (base.now, block.now) (Ok (string_bytes page))) }
    ensures refused { IfErr result (IsPageRefusal (FindsBlockPage (base.now, block.now))) }
{
    if *base.digest() != *block.block().base() {
        return Err(Failure::Fault(TraceRefusal::Opening(OpenFault::WrongBase)));
    }
    match page_with(alloc, Traces::All, base, block, ops) {
        Err(Failure::Fault(TraceRefusal::TooLong)) => page_with(
            alloc,
            Traces::LeftOut,
            base,
            block,
            ops,
        ),
        found => found,
    }
}

/// The page with these traces.
fn page_with<O: Op>(
    alloc: Global,
    traces: Traces,
    base: &Base,
    block: &DigestedBlock,
    ops: &FullOps<O>,
) -> Result<String, Failure<TraceRefusal>>
    requires base { StandsOver traces base.now block.now }
    ensures page { IfOk result
        (λ page. IsPage traces base.now block.now (string_bytes page)) }
    ensures short { IfOk result (λ page. length (string_bytes page) ≤ most_text) }
    ensures refused { IfErr result (IsPageFailure traces base.now block.now) }
{
    let mut out = Writer::new(alloc);
    put_front(alloc, &mut out, number_of(traces), base, block, ops)?;
    put_traces(alloc, &mut out, traces, base, block, ops)?;
    end_object(&mut out)?;
    finished(alloc, out)
}

/// The number of the entry that is asked for, or 0.
fn number_of(traces: Traces) -> u64
    ensures { result ≡ number_of traces }
{
    match traces {
        Traces::Entry(number) => number,
        _ => 0,
    }
}

/// A document in base64 between the fixed texts, unless that is too long.
fn finished(alloc: Global, out: Writer) -> Result<String, Failure<TraceRefusal>>
    ensures page { IfOk result (λ page. IsFinished out (string_bytes page)) }
    ensures short { IfOk result (λ page. length (string_bytes page) ≤ most_text) }
    ensures refused { IfErr result (IsEndFailure out) }
{
    let text = document_text(out)?;
    let page = framed(alloc, BEGINNING, text.as_bytes(), END)?;
    if page.len() as u64 > TEXT_LIMIT {
        return Err(Failure::Fault(TraceRefusal::TooLong));
    }
    Ok(page)
}

/// Bytes in base64 between two texts.
fn framed(alloc: Global, before: &str, bytes: &[u8], behind: &str) -> Result<String, AllocError>
    ensures text { IfOk result
        (λ text. string_bytes text ≡ framed before.now bytes.now behind.now) }
    ensures bytes { IfOk result (λ _. IsBytes bytes.now) }
{
    let mut text = String::from_str(alloc, before)?;
    STANDARD.encode_string(bytes, &mut text)?;
    text.push_str(behind)?;
    Ok(text)
}
