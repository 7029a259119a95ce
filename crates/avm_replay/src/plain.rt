//! Blocks of calls made one after another, on one thread.

ghost use Rattle.std.specs.Prelude.{◌≡◌, ◌≤◌, ◌+◌, IfErr, IfOk, None, length};
ghost use Rattle.avm_block.specs.CallsFaults.{IsCallsRefusal, calls_fault};
ghost use Rattle.avm_replay.specs.Plain.{AreMade, IsPlainBlock};

use avm_block::{
    Block, CallsError, CallsFault, Entry, MAX_ENTRIES, first_beyond, outcome_has_place,
};
use avm_call::Call;
use avm_ledger::{Header, Ledger};
use avm_ops::Op;
use avm_run::{Executions, FullOps, RunContext, call_on};
use std::alloc::{AllocError, Global};
use std::marker::Brand;
use std::sync::ledger;
use std::sync::ledger::Blank;
use teal_value::Failure;

/// The block of these calls over a ledger, in this order, by the timestamps 1, 2, 3 and so on.
pub fn plain_block<O: Op>(
    alloc: Global,
    ledger: &Ledger,
    header: &Header,
    calls: Vec<Call>,
    ops: &FullOps<O>,
) -> Result<Block, CallsError>
    ensures accepted { IfOk result (λ _. calls_fault header.now calls.items ≡ None) }
    ensures block { IfOk result (IsPlainBlock ledger.now header.now calls.items) }
    ensures refused { IfErr result (IsCallsRefusal header.now calls.items) }
{
    if calls.len() > MAX_ENTRIES {
        return Err(Failure::Fault(CallsFault::TooMany));
    }
    if let Some(number) = first_beyond(header.profile, &calls) {
        return Err(Failure::Fault(CallsFault::Profile { number }));
    }
    let base = ledger.digest(alloc)?;
    let mut after = ledger.clone()?;
    let context = RunContext { alloc, ops, header };
    let blank = Blank::new(2);
    let entries = entries_of::<Brand, O>(&context, &mut after, &calls, blank)?;
    let digest = after.digest(alloc)?;
    Ok(Block::new(base, *header, entries, digest))
}

/// Makes calls on a ledger, one after another, and gives them as entries.
fn entries_of<L: ledger::Ledger, O: Op>(
    context: &RunContext<'_, O>,
    ledger: &mut Ledger,
    calls: &[Call],
    blank: Blank,
) -> Result<Vec<Entry>, AllocError>
    requires blank { (blank.name ≡ L.name) × (blank.parts ≡ L.parts) × (blank.parts ≡ 2) }
    requires few { length calls.now ≤ MAX_ENTRIES }
    ensures { IfOk result
        (λ entries. AreMade ledger.old context.now.header.now calls.now entries.items ledger.new) }
{
    let mut executions = Executions::<L>::new(blank);
    let mut spare = None;
    let mut entries = Vec::new(context.alloc);
    let mut timestamp = 0;
    for call in calls {
        timestamp += 1;
        outcome_has_place(ledger, call, context.header);
        let outcome = call_on(context, ledger, call, &mut spare, &mut executions)?;
        entries.push(Entry {
            timestamp,
            call: call.clone()?,
            outcome,
        })?;
    }
    Ok(entries)
}
