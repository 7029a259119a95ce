//! Ledgers of the past.

ghost use Rattle.std.specs.Prelude.{◌≡◌, IfErr, IfOk};
ghost use Rattle.avm_ledger.specs.Encodings.{ledger_digest};
ghost use Rattle.avm_call.specs.Replay.{replayed};
ghost use Rattle.avm_block.specs.Blocks.{RisesAbove, calls_in};
ghost use Rattle.avm_replay.specs.Past.{IsRefused, entries_until, ledger_until};

use avm_block::{Block, Entry, StateError, StateFault};
use avm_ledger::{Base, Ledger};
use avm_ops::Op;
use avm_run::{Executions, FullOps, RunContext, call_on};
use std::alloc::{AllocError, Global};
use std::marker::Brand;
use std::sync::ledger;
use std::sync::ledger::Blank;
use teal_value::Failure;

/// The ledger after the calls of a block with timestamps up to this one.
pub fn state_at<O: Op>(
    alloc: Global,
    ledger: &Ledger,
    block: &Block,
    timestamp: u64,
    ops: &FullOps<O>,
) -> Result<Ledger, StateError>
    ensures base { IfOk result (λ _. block.now.base ≡ ledger_digest ledger.now) }
    ensures state { IfOk result (λ after. after ≡ ledger_until ledger.now block.now timestamp) }
    ensures refused { IfErr result (IsRefused ledger.now block.now) }
{
    let copy = ledger.clone()?;
    let base = Base::of(alloc, copy)?;
    state_at_owned(alloc, base, block, timestamp, ops)
}

/// The same, of a ledger that is not copied.
pub fn state_at_owned<O: Op>(
    alloc: Global,
    base: Base,
    block: &Block,
    timestamp: u64,
    ops: &FullOps<O>,
) -> Result<Ledger, StateError>
    ensures base { IfOk result (λ _. block.now.base ≡ ledger_digest base) }
    ensures state { IfOk result (λ after. after ≡ ledger_until base block.now timestamp) }
    ensures refused { IfErr result (IsRefused base block.now) }
{
    if *base.digest() != *block.base() {
        return Err(Failure::Fault(StateFault::WrongBase));
    }
    let mut after = base.into_ledger();
    let context = RunContext {
        alloc,
        ops,
        header: block.header(),
    };
    let blank = Blank::new(2);
    make_until::<Brand, O>(&context, &mut after, block.entries(), timestamp, blank)?;
    Ok(after)
}

/// Makes the calls of entries on a ledger, up to the last that isn't behind the timestamp.
fn make_until<L: ledger::Ledger, O: Op>(
    context: &RunContext<'_, O>,
    ledger: &mut Ledger,
    entries: &[Entry],
    timestamp: u64,
    blank: Blank,
) -> Result<(), AllocError>
    requires blank { (blank.name ≡ L.name) × (blank.parts ≡ L.parts) × (blank.parts ≡ 2) }
    requires rising { RisesAbove 0 entries.now }
    ensures { IfOk result (λ _. ledger.new ≡ replayed ledger.old context.now.header.now
        (calls_in (entries_until timestamp entries.now))) }
{
    let mut executions = Executions::<L>::new(blank);
    let mut spare = None;
    for entry in entries {
        if entry.timestamp > timestamp {
            return Ok(());
        }
        call_on(context, ledger, &entry.call, &mut spare, &mut executions)?;
    }
    Ok(())
}
