//! One step of a run that is supplied from a ledger.

ghost use Rattle.std.specs.Prelude.{◌≡◌, IfOk};
ghost use Rattle.avm_stepper.specs.Stepping.{WasAsked, ComesNextBy, Goes, GoesOnOver, IsBefore, IsLeft, LeadsTo, supplied};

use avm_call::Ended;
use avm_items::{Item, item_of};
use avm_ledger::Ledger;
use avm_ops::Op;
use avm_run::{CallRun, Executions, FullOps, RunFault, Step};
use std::alloc::{AllocError, Global};
use std::marker::Brand;
use std::sync::ledger;
use std::sync::ledger::Blank;
use teal_value::Fault;

/// What an instruction comes to.
#[derive(Drop)]
pub(crate) enum StepOutcome {
    /// It is carried out.
    Moved,
    /// It asks for the value of this item.
    Need(Item),
    /// It faults.
    Faulted(Fault),
}

/// Whether an instruction comes next where a run stands, whose next step may have faulted.
pub(crate) fn comes_next(fault: Option<Fault>, run: &CallRun) -> bool
    ensures { ComesNextBy fault run.now result }
{
    match fault {
        Some(_fault) => false,
        None => is_left(run),
    }
}

/// Whether an instruction is left where a run stands.
fn is_left(run: &CallRun) -> bool
    ensures { IsLeft run.now result }
{
    match run.shown() {
        Some(shown) => shown.instruction.is_some(),
        None => false,
    }
}

/// Tries the instruction that comes next, over the items supplied.
fn try_step<L: ledger::Ledger, O: Op>(
    alloc: Global,
    ops: &FullOps<O>,
    run: &mut CallRun,
    blank: Blank,
) -> Result<StepOutcome, AllocError>
    requires blank { (blank.name ≡ L.name) × (blank.parts ≡ L.parts) × (blank.parts ≡ 2) }
    requires before { IsBefore run.old }
    ensures { IfOk result (λ outcome. Goes run.old run.new outcome) }
{
    match run.step_one(alloc, ops, &mut Executions::<L>::new(blank)) {
        Ok(Step::Moved) => Ok(StepOutcome::Moved),
        Ok(Step::Need(item)) => Ok(StepOutcome::Need(item)),
        Ok(Step::Ended(Ended::Faulted(fault, _place))) => Ok(StepOutcome::Faulted(fault)),
        Ok(Step::Ended(Ended::Approved)) => unreachable!(),
        Ok(Step::Ended(Ended::Rejected)) => unreachable!(),
        Ok(Step::Done(_finished)) => unreachable!(),
        Err(RunFault::Memory) => Err(AllocError),
        Err(RunFault::NotAsked) => unreachable!(),
        Err(RunFault::Spent) => unreachable!(),
    }
}

/// Supplies the item that a run asks for with its value in a ledger.
pub(crate) fn supply_from(ledger: &Ledger, run: &mut CallRun, item: Item) -> Result<(), AllocError>
    requires { WasAsked run.old item }
    ensures { IfOk result (λ _. run.new ≡ supplied ledger.now item run.old) }
{
    let value = item_of(ledger, &item)?;
    match run.supply(item, value) {
        Ok(()) => Ok(()),
        Err(RunFault::Memory) => Err(AllocError),
        Err(RunFault::NotAsked) => unreachable!(),
        Err(RunFault::Spent) => unreachable!(),
    }
}

/// Makes the step of the instruction that comes next, over a ledger, or answers its fault. Each item that it asks for
/// is looked up once.
pub(crate) fn step_over<O: Op>(
    alloc: Global,
    ops: &FullOps<O>,
    ledger: &Ledger,
    run: &mut CallRun,
) -> Result<Option<Fault>, AllocError>
    requires stands { GoesOnOver ledger.now run.old run.old }
    ensures { IfOk result (λ fault. LeadsTo ledger.now run.old run.new fault) }
{
    loop {
        match try_step::<Brand, O>(alloc, ops, run, Blank::new(2))? {
            StepOutcome::Moved => return Ok(None),
            StepOutcome::Faulted(fault) => return Ok(Some(fault)),
            StepOutcome::Need(item) => supply_from(ledger, run, item)?,
        }
    }
}
