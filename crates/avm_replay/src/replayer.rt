//! Replaying a block.

ghost use Rattle.std.specs.Prelude.{◌≡◌, ◌≤◌, IfOk, length};
ghost use Rattle.avm_replay.specs.Verdicts.{Compares, Judges, OneVerdict};

use crate::verdict::Verdict;
use avm_block::{Block, Entry, MAX_ENTRIES};
use avm_call::{Outcome, is_same_outcome};
use avm_ledger::{Base, Ledger};
use avm_ops::Op;
use avm_run::{Executions, FullOps, RunContext, call_on};
use std::alloc::{AllocError, Global};
use std::marker::Brand;
use std::sync::ledger;
use std::sync::ledger::Blank;

/// Makes the calls of a block over the ledger before it, and compares. The ledger is copied once; a call costs what it
/// touches.
pub fn replay<O: Op>(
    alloc: Global,
    ledger: &Ledger,
    block: &Block,
    ops: &FullOps<O>,
) -> Result<Verdict, AllocError>
    ensures { IfOk result (λ verdict. Judges ledger.now block.now verdict) }
{
    let copy = ledger.clone()?;
    let base = Base::of(alloc, copy)?;
    replay_owned(alloc, base, block, ops)
}

/// Makes the calls of a block on the ledger before it, and compares. Nothing is copied.
pub fn replay_owned<O: Op>(
    alloc: Global,
    base: Base,
    block: &Block,
    ops: &FullOps<O>,
) -> Result<Verdict, AllocError>
    ensures { IfOk result (λ verdict. Judges base block.now verdict) }
{
    if *base.digest() != *block.base() {
        return Ok(Verdict::WrongBase);
    }
    let mut after = base.into_ledger();
    let context = RunContext {
        alloc,
        ops,
        header: block.header(),
    };
    let blank = Blank::new(2);
    let wrong = first_wrong::<Brand, O>(&context, &mut after, block.entries(), blank)?;
    if let Some((entry, found)) = wrong {
        return Ok(Verdict::WrongOutcome { entry, found });
    }
    if after.digest(alloc)? != *block.after() {
        return Ok(Verdict::WrongState);
    }
    Ok(Verdict::Agrees(after))
}

/// Makes the calls of entries on a ledger, up to the first that ends otherwise than its entry says; gives its number and
/// how it ends.
fn first_wrong<L: ledger::Ledger, O: Op>(
    context: &RunContext<'_, O>,
    ledger: &mut Ledger,
    entries: &[Entry],
    blank: Blank,
) -> Result<Option<(usize, Outcome)>, AllocError>
    requires blank { (blank.name ≡ L.name) × (blank.parts ≡ L.parts) × (blank.parts ≡ 2) }
    requires few { length entries.now ≤ MAX_ENTRIES }
    ensures { IfOk result (Compares ledger.old ledger.new context.now.header.now entries.now) }
{
    let mut executions = Executions::<L>::new(blank);
    let mut spare = None;
    let mut number = 0;
    for entry in entries {
        number += 1;
        let found = call_on(context, ledger, &entry.call, &mut spare, &mut executions)?;
        if !is_same_outcome(found, entry.outcome) {
            return Ok(Some((number, found)));
        }
    }
    Ok(None)
}

/// A block has one verdict over a ledger; so it is found to agree exactly where it replays.
pub fn one_verdict()
    ensures { OneVerdict }
{}
