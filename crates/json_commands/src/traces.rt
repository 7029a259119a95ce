//! The traces on a page.

ghost use Rattle.std.specs.Prelude.{◌≡◌, IfErr, OnOk};
ghost use Rattle.json_views.specs.CallTraces.{AddsDocument};
ghost use Rattle.json_commands.specs.Pages.{IsTraceOf, StandsOver};
ghost use Rattle.json_commands.specs.Writing.{IsTraceFailure};

use avm_ledger::Base;
use avm_ops::Op;
use avm_run::FullOps;
use json_views::block::DigestedBlock;
use json_views::writing::{Writer, put_null};
use json_views::{TraceRefusal, put_block_trace, put_entry_trace};
use std::alloc::Global;
use teal_value::Failure;

/// Which traces stand on a page.
#[derive(Clone, Copy, Debug, PartialEq, Eq)]
pub enum Traces {
    /// Those of the calls of all entries.
    All,
    /// None, since the page would be too long with all.
    LeftOut,
    /// That of the call of the entry with this number. Entries are numbered from 1.
    Entry(u64),
}

/// Writes the traces, or `null` where they are left out.
pub(crate) fn put_traces<O: Op>(
    alloc: Global,
    out: &mut Writer,
    traces: Traces,
    base: &Base,
    block: &DigestedBlock,
    ops: &FullOps<O>,
) -> Result<(), Failure<TraceRefusal>>
    requires base { StandsOver traces base.now block.now }
    ensures written { OnOk result
        (AddsDocument (IsTraceOf traces base.now block.now) out.old out.new) }
    ensures refused { IfErr result (IsTraceFailure traces base.now block.now out.old) }
{
    match traces {
        Traces::All => put_all(alloc, out, base, block, ops),
        Traces::LeftOut => put_none(out, base, block),
        Traces::Entry(number) => put_one(alloc, out, number, base, block, ops),
    }
}

fn put_all<O: Op>(
    alloc: Global,
    out: &mut Writer,
    base: &Base,
    block: &DigestedBlock,
    ops: &FullOps<O>,
) -> Result<(), Failure<TraceRefusal>>
    requires base { StandsOver Traces.All base.now block.now }
    ensures written { OnOk result
        (AddsDocument (IsTraceOf Traces.All base.now block.now) out.old out.new) }
    ensures refused { IfErr result (IsTraceFailure Traces.All base.now block.now out.old) }
{
    let ledger = base.ledger().clone()?;
    put_block_trace(alloc, out, ledger, block.block(), ops)
}

fn put_none(
    out: &mut Writer,
    base: &Base,
    block: &DigestedBlock,
) -> Result<(), Failure<TraceRefusal>>
    ensures written { OnOk result
        (AddsDocument (IsTraceOf Traces.LeftOut base.now block.now) out.old out.new) }
    ensures refused { IfErr result (IsTraceFailure Traces.LeftOut base.now block.now out.old) }
{
    put_null(out)?;
    Ok(())
}

fn put_one<O: Op>(
    alloc: Global,
    out: &mut Writer,
    number: u64,
    base: &Base,
    block: &DigestedBlock,
    ops: &FullOps<O>,
) -> Result<(), Failure<TraceRefusal>>
    ensures written { OnOk result
        (AddsDocument (IsTraceOf (Traces.Entry number) base.now block.now) out.old out.new) }
    ensures refused { IfErr result
        (IsTraceFailure (Traces.Entry number) base.now block.now out.old) }
{
    put_entry_trace(alloc, out, base, block.block(), number as usize, ops)
}
