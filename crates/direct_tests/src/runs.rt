//! Runs of calls that are supplied by hand.

ghost use Rattle.std.specs.Prelude.{◌≡◌};

use crate::data::{ledger_of, programs};
use crate::sets::filled_ops;
use avm_call::Outcome;
use avm_items::{Item, ItemValue, item_of};
use avm_ops::{Op, Ops};
use avm_run::{Advance, CallRun, Executions, FullOps, RunFault, Step};
use sample_calls::calls::{HEADER, call};
use sample_calls::programs::Programs;
use std::alloc::Global;
use std::marker::Brand;
use std::sync::ledger::{Blank, Ledger};
use std::test::Fail;

/// Application 1 approves.
const APPROVING: &str = "#2 00000001 #1 @0 :approves :approves 00000000 00 00000000";

/// A run of the call of these words.
fn run_of(alloc: Global, programs: &Programs, words: &[&str]) -> Result<CallRun, Fail> {
    let call = call(alloc, programs, words)?;
    Ok(CallRun::start(alloc, &call, &HEADER, None)?)
}

/// Whether a run asks for this item.
fn asks_for<L: Ledger, O: Op>(
    alloc: Global,
    ops: &FullOps<O>,
    executions: &mut Executions<L>,
    run: &mut CallRun,
    wanted: &Item,
) -> bool {
    match run.advance(alloc, ops, executions) {
        Ok(Advance::Need(item)) => item == *wanted,
        Ok(Advance::Done(_finished)) => false,
        Err(_fault) => false,
    }
}

/// The outcome of a run with how many items it read and wrote, or why it gives none.
fn end_of_run<L: Ledger, O: Op>(
    alloc: Global,
    ops: &FullOps<O>,
    executions: &mut Executions<L>,
    run: &mut CallRun,
) -> Result<(Outcome, usize, usize), RunFault> {
    match run.advance(alloc, ops, executions) {
        Ok(Advance::Done(finished)) => Ok((
            finished.outcome(),
            finished.reads().len(),
            finished.writes().len(),
        )),
        Ok(Advance::Need(_item)) => Err(RunFault::NotAsked),
        Err(fault) => Err(fault),
    }
}

/// Whether a run takes no item that it did not ask for, asks for one until it is supplied, then ends, and is spent.
fn asks_once<L: Ledger, O: Op>(
    alloc: Global,
    ops: Ops<O>,
    run: &mut CallRun,
    row: ItemValue,
    blank: Blank,
) -> bool
    requires blank { (blank.name ≡ L.name) × (blank.parts ≡ L.parts) × (blank.parts ≡ 2) }
{
    let Ok(ops) = &FullOps::of(ops) else {
        return false;
    };
    let mut executions = Executions::<L>::new(blank);
    let counted = &mut executions;
    run.supply(Item::App(2), ItemValue::Absent) == Err(RunFault::NotAsked)
        && asks_for(alloc, ops, counted, run, &Item::App(1))
        && asks_for(alloc, ops, counted, run, &Item::App(1))
        && run.supply(Item::App(1), row) == Ok(())
        && end_of_run(alloc, ops, counted, run) == Ok((Outcome::Approved, 1, 0))
        && end_of_run(alloc, ops, counted, run) == Err(RunFault::Spent)
}

/// A run asks for the row of its application until it is supplied, and then ends; it takes no other item, and is spent.
#[test]
fn a_run_asks_once(rt: HostRuntime) -> Result<(), Fail> {
    let alloc = rt.alloc();
    let programs = programs(alloc)?;
    let ledger = ledger_of(alloc, &programs, APPROVING)?;
    let row = item_of(&ledger, &Item::App(1))?;
    let mut run = run_of(alloc, &programs, &["1"])?;
    let ops = filled_ops(alloc)?;
    assert!(rt; asks_once::<Brand, _>(alloc, ops, &mut run, row, Blank::new(2)));
    Ok(())
}

/// What a run knows of the next application's id, as the number.
fn known_next_id(run: &CallRun) -> Option<u64> {
    match run.value(&Item::NextApp) {
        Some(ItemValue::NextApp(id)) => Some(*id),
        _ => None,
    }
}

/// Whether a step of a run asks for the next id, and takes 7.
fn takes_7<L: Ledger, O: Op>(
    alloc: Global,
    ops: &FullOps<O>,
    executions: &mut Executions<L>,
    run: &mut CallRun,
) -> bool {
    let step = run.step_one(alloc, ops, executions);
    let asks = matches!(&step, Ok(Step::Need(Item::NextApp)));
    asks && run.supply(Item::NextApp, ItemValue::NextApp(7)) == Ok(())
}

/// Whether a step of a run moves on.
fn moves<L: Ledger, O: Op>(
    alloc: Global,
    ops: &FullOps<O>,
    executions: &mut Executions<L>,
    run: &mut CallRun,
) -> bool {
    matches!(run.step_one(alloc, ops, executions), Ok(Step::Moved))
}

/// Whether a run that makes an application knows nothing before its program, then the next id by its own write, and not as
/// it was supplied, and of an application that it did not ask for nothing; and at its end, when it is spent, nothing.
fn knows_its_write<L: Ledger, O: Op>(
    alloc: Global,
    ops: Ops<O>,
    run: &mut CallRun,
    blank: Blank,
) -> bool
    requires blank { (blank.name ≡ L.name) × (blank.parts ≡ L.parts) × (blank.parts ≡ 2) }
{
    let Ok(ops) = &FullOps::of(ops) else {
        return false;
    };
    let mut executions = Executions::<L>::new(blank);
    let counted = &mut executions;
    takes_7(alloc, ops, counted, run)
        && known_next_id(run) == None
        && moves(alloc, ops, counted, run)
        && known_next_id(run) == Some(8)
        && run.value(&Item::App(1)).is_none()
        && end_of_run(alloc, ops, counted, run).is_ok()
        && known_next_id(run) == None
}

#[test]
fn a_run_knows_what_it_wrote(rt: HostRuntime) -> Result<(), Fail> {
    let alloc = rt.alloc();
    let mut run = run_of(
        alloc,
        &programs(alloc)?,
        &["0", "NoOp", "approves", "approves"],
    )?;
    let ops = filled_ops(alloc)?;
    assert!(rt; knows_its_write::<Brand, _>(alloc, ops, &mut run, Blank::new(2)));
    Ok(())
}
