//! The entry of a block, the ledger that its call met, and the start of the call's program over it.

ghost use Rattle.std.specs.Prelude.{◌≡◌, ◌-◌, IfErr, IfOk};
ghost use Rattle.std.specs.Option.{option_copied};
ghost use Rattle.avm_ledger.specs.Encodings.{ledger_digest};
ghost use Rattle.avm_replay.specs.Past.{ledger_until};
ghost use Rattle.avm_stepper.specs.Opening.{IsBaseRefusal, entry_numbered};
ghost use Rattle.avm_stepper.specs.Starting.{Begins, BeginsOver, IsAtTests, StartsOver};

use crate::stepping::supply_from;
use avm_block::{Block, Entry, OpenError, OpenFault};
use avm_items::Item;
use avm_ledger::{Base, Ledger};
use avm_ops::Op;
use avm_replay::state_at_owned;
use avm_run::{CallRun, Executions, FullOps, RunFault, Step};
use std::alloc::{AllocError, Global};
use std::marker::Brand;
use std::sync::ledger;
use std::sync::ledger::Blank;
use teal_value::Failure;

/// What the tests before a program come to.
#[derive(Drop)]
pub(crate) enum StartOutcome {
    /// The program stands before its first instruction.
    Program,
    /// They ask for the value of this item.
    Need(Item),
    /// No program runs.
    Nothing,
}

/// The entry of a number, counted from 1.
pub fn entry_of(entries: &[Entry], number: usize) -> Option<&Entry>
    ensures { option_copied result ≡ entry_numbered entries.now number }
{
    if number == 0 {
        return None;
    }
    entries.get(number - 1)
}

/// The ledger after the calls of a block before this entry.
pub(crate) fn ledger_before<O: Op>(
    alloc: Global,
    base: &Base,
    block: &Block,
    entry: &Entry,
    ops: &FullOps<O>,
) -> Result<Ledger, OpenError>
    ensures ledger { IfOk result
        (λ ledger. ledger ≡ ledger_until base.now block.now (entry.now.timestamp - 1)) }
    ensures base { IfOk result (λ _. block.now.base ≡ ledger_digest base.now) }
    ensures refused { IfErr result (IsBaseRefusal base.now block.now) }
{
    let copy = base.clone()?;
    match state_at_owned(alloc, copy, block, entry.timestamp.saturating_sub(1), ops) {
        Ok(ledger) => Ok(ledger),
        Err(Failure::Fault(_wrong_base)) => Err(Failure::Fault(OpenFault::WrongBase)),
        Err(Failure::Memory) => Err(Failure::Memory),
    }
}

/// Tries the tests before a program, over the items supplied.
fn try_start<L: ledger::Ledger, O: Op>(
    alloc: Global,
    ops: &FullOps<O>,
    run: &mut CallRun,
    blank: Blank,
) -> Result<StartOutcome, AllocError>
    requires blank { (blank.name ≡ L.name) × (blank.parts ≡ L.parts) × (blank.parts ≡ 2) }
    requires tests { IsAtTests run.old }
    ensures { IfOk result (λ begun. Begins run.old run.new begun) }
{
    match run.step_one(alloc, ops, &mut Executions::<L>::new(blank)) {
        Ok(Step::Moved) => Ok(StartOutcome::Program),
        Ok(Step::Need(item)) => Ok(StartOutcome::Need(item)),
        Ok(Step::Done(_finished)) => Ok(StartOutcome::Nothing),
        Ok(Step::Ended(_end)) => unreachable!(),
        Err(RunFault::Memory) => Err(AllocError),
        Err(RunFault::NotAsked) => unreachable!(),
        Err(RunFault::Spent) => unreachable!(),
    }
}

/// Leads a run to the start of its program over a ledger; false where no program runs.
pub(crate) fn start_over<O: Op>(
    alloc: Global,
    ops: &FullOps<O>,
    ledger: &Ledger,
    run: &mut CallRun,
) -> Result<bool, AllocError>
    requires tests { StartsOver ledger.now run.old run.old }
    ensures { IfOk result (λ runs. BeginsOver ledger.now run.old run.new runs) }
{
    loop {
        match try_start::<Brand, O>(alloc, ops, run, Blank::new(2))? {
            StartOutcome::Program => return Ok(true),
            StartOutcome::Nothing => return Ok(false),
            StartOutcome::Need(item) => supply_from(ledger, run, item)?,
        }
    }
}
