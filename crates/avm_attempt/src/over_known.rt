//! Runs over known items.

ghost use Rattle.std.specs.Prelude.{◌≡◌, None, Ok, IfOk};
ghost use Rattle.avm_run.specs.Advances.{Advances, Supplies};
ghost use Rattle.avm_attempt.specs.Attempts.{HasAskedFor, IsAttempt, MayGoOn};

use avm_call::Call;
use avm_items::{Item, ItemMap, ItemValue};
use avm_ledger::Header;
use avm_ops::Op;
use avm_run::laws::finished_calls_change;
use avm_run::{Advance, CallRun, Executions, FullOps, RunFault};
use std::alloc::{AllocError, Global};
use std::marker::Brand;
use std::sync::ledger::{Blank, Ledger};

/// Makes a call over items that are known, to its end or up to the first item that it asks for and that is not known. Known
/// items that it does not ask for are not looked at. A call that is attempted again with more items runs from its beginning.
pub fn attempt<O: Op>(
    alloc: Global,
    ops: &FullOps<O>,
    call: &Call,
    header: &Header,
    known: &ItemMap,
) -> Result<Advance, AllocError>
    ensures { IfOk result (IsAttempt call.now header.now known.now) }
{
    attempt_over::<Brand, O>(alloc, ops, call, header, known, Blank::new(2))
}

fn attempt_over<L: Ledger, O: Op>(
    alloc: Global,
    ops: &FullOps<O>,
    call: &Call,
    header: &Header,
    known: &ItemMap,
    blank: Blank,
) -> Result<Advance, AllocError>
    requires blank { (blank.name ≡ L.name) × (blank.parts ≡ L.parts) × (blank.parts ≡ 2) }
    ensures { IfOk result (IsAttempt call.now header.now known.now) }
{
    let mut executions = Executions::<L>::new(blank);
    let mut run = CallRun::start(alloc, call, header, None)?;
    'asking: loop {
        match advance(alloc, ops, &mut run, &mut executions)? {
            Advance::Need(item) => match known.get(&item) {
                Some(value) => supply(&mut run, item, value.clone()?)?,
                None => return Ok(Advance::Need(item)),
            },
            Advance::Done(finished) => {
                finished_calls_change(&finished);
                return Ok(Advance::Done(finished));
            }
        }
    }
}

/// Runs on.
fn advance<L: Ledger, O: Op>(
    alloc: Global,
    ops: &FullOps<O>,
    run: &mut CallRun,
    executions: &mut Executions<L>,
) -> Result<Advance, AllocError>
    requires may { MayGoOn run.old }
    ensures { IfOk result (λ advance. Advances run.old run.new (Ok advance)) }
{
    match run.advance(alloc, ops, executions) {
        Ok(advance) => Ok(advance),
        Err(RunFault::Memory) => Err(AllocError),
        Err(RunFault::NotAsked) => unreachable!(),
        Err(RunFault::Spent) => unreachable!(),
    }
}

/// Supplies the item that was asked for.
fn supply(run: &mut CallRun, item: Item, value: ItemValue) -> Result<(), AllocError>
    requires asked { HasAskedFor item run.old }
    ensures { IfOk result (λ _. Supplies run.old run.new item value None) }
{
    match run.supply(item, value) {
        Ok(()) => Ok(()),
        Err(RunFault::Memory) => Err(AllocError),
        Err(RunFault::NotAsked) => unreachable!(),
        Err(RunFault::Spent) => unreachable!(),
    }
}
