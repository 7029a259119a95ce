//! The steps of a run: the tests before the program, the program, and what comes after it. What moves from step to step is
//! the phase alone; the call and what it is run with are lent.

ghost use Rattle.std.specs.Prelude.{◌≡◌, ◌-◌, Ok, Some, IfErr, IfOk, IsTrue};
ghost use Rattle.teal_code.specs.Limits.{most_program_bytes};
ghost use Rattle.avm_call.specs.CallPaths.{outcome_of};
ghost use Rattle.avm_call.specs.Ends.{has_programs};
ghost use Rattle.avm_run.specs.Executions.{ExecutesAtMost};
ghost use Rattle.avm_run.specs.ExecutedSteps.{GoExecutes, RunExecutes, steps_made};
ghost use Rattle.avm_run.specs.Progress.{ClosesAs, EndsRun, Follows, GoesTo, IsSupplied, RunsTo, TestsTo, reads_of, steps_of};
ghost use Rattle.avm_run.specs.Standing.{BeginsRun};

use crate::admission::{AdmissionStop, Admitted, admit};
use crate::context::RunContext;
use crate::ending::{cleared, end_call};
use crate::full_ops::Executions;
use crate::running::{Callee, Running, Spare, StepsOutcome, make_steps, start_program};
use avm_call::{Call, Cause, Ended, Outcome};
use avm_items::{Item, ItemMap, ItemValue};
use avm_ops::Op;
use std::alloc::AllocError;
use std::mem;
use std::sync::ledger::Ledger;

/// How far a run has come.
#[derive(Drop)]
pub(crate) enum Phase {
    /// Before its program, with the items supplied.
    Tests(ItemMap),
    /// In its program.
    Runs(Box<Running>),
}

/// How a run has ended.
#[derive(Drop)]
pub(crate) struct EndedRun {
    pub reads: ItemMap,
    /// All that it writes, also what has the value of before.
    pub writes: ItemMap,
    pub outcome: Outcome,
}

/// What running on leads to.
#[derive(Drop)]
pub(crate) enum RunOutcome {
    Need(Phase, Item),
    Done(EndedRun),
}

/// What the tests before a program lead to.
#[derive(Drop)]
pub(crate) enum AdmissionOutcome {
    /// The program of the call, before its first instruction.
    Begins(Box<Running>),
    Stops(RunOutcome),
}

/// What one step of the program's path leads to.
#[derive(Drop)]
pub(crate) enum PathOutcome {
    On(Phase),
    /// The program has ended where it stands.
    Ends(Phase, Ended),
    Stops(RunOutcome),
}

impl Phase {
    /// The phase with one item more supplied. An application that is supplied has programs, as its type keeps.
    #[inline(always)]
    pub(crate) fn supplied(self, item: Item, value: ItemValue) -> Result<Phase, AllocError>
        ensures supplied { IfOk result (λ phase. IsSupplied self phase item value) }
        ensures programs { IsTrue (has_programs value) }
    {
        keeps_programs(&value);
        match self {
            Phase::Tests(items) => {
                let mut items = items;
                items.insert(item, value)?;
                Ok(Phase::Tests(items))
            }
            Phase::Runs(running) => {
                let mut running = running;
                running.env.read(item, value)?;
                Ok(Phase::Runs(running))
            }
        }
    }

    /// What it leaves for the next run: the box of its program, or the spare one where that has not begun.
    pub(crate) fn into_spare(self, spare: Option<Spare>) -> Option<Spare> {
        match self {
            Phase::Tests(_items) => spare,
            Phase::Runs(running) => {
                let mut spare = spare;
                give_back(&mut spare, running);
                spare
            }
        }
    }
}

/// That an application has programs, as its type keeps.
fn keeps_programs(value: &ItemValue)
    ensures { IsTrue (has_programs value.now) }
{
    if let ItemValue::App(row) = value {
        let row = row.get();
        let _approval = row.approval.program();
        let _clear = row.clear.program();
    }
}

/// Runs on to the end of the call, or to an item that was not supplied. A program begins in the spare box, where there is
/// one, and leaves its own there at its end.
#[inline(always)]
pub(crate) fn run_on<L: Ledger, O: Op>(
    context: &RunContext<'_, O>,
    call: &Call,
    phase: Phase,
    spare: &mut Option<Spare>,
    executions: &mut Executions<L>,
) -> Result<RunOutcome, AllocError>
    requires follows { Follows call.now context.now.header.now phase }
    ensures runs { IfOk result
        (λ ran. RunsTo call.now context.now.header.now (reads_of phase) ran) }
    ensures executes { IfOk result (λ ran. RunExecutes call.now context.now.header.now
        (reads_of phase) (steps_of phase) ran executions.old executions.new) }
    ensures few { IfErr result (λ _. ExecutesAtMost (most_program_bytes
        - steps_made (steps_of phase)) 1 executions.old executions.new) }
{
    match phase {
        Phase::Tests(items) => match run_tests(context, call, items, spare)? {
            AdmissionOutcome::Begins(running) => run_program(
                context, call, running, spare, executions,
            ),
            AdmissionOutcome::Stops(ran) => Ok(ran),
        },
        Phase::Runs(running) => run_program(context, call, running, spare, executions),
    }
}

/// Makes the next step of the path of the call's program. The first leads to the start of the program. The spare box is used
/// as by [`run_on`].
pub(crate) fn step_on<L: Ledger, O: Op>(
    context: &RunContext<'_, O>,
    call: &Call,
    phase: Phase,
    spare: &mut Option<Spare>,
    executions: &mut Executions<L>,
) -> Result<PathOutcome, AllocError>
    requires follows { Follows call.now context.now.header.now phase }
    ensures goes { IfOk result
        (λ went. GoesTo call.now context.now.header.now (reads_of phase) (steps_of phase) went) }
    ensures executes { IfOk result (λ went. GoExecutes call.now context.now.header.now
        (reads_of phase) (steps_of phase) went executions.old executions.new) }
    ensures few { IfErr result (λ _. ExecutesAtMost 0 1 executions.old executions.new) }
{
    match phase {
        Phase::Tests(items) => match run_tests(context, call, items, spare)? {
            AdmissionOutcome::Begins(running) => Ok(PathOutcome::On(Phase::Runs(running))),
            AdmissionOutcome::Stops(ran) => Ok(PathOutcome::Stops(ran)),
        },
        Phase::Runs(running) => step_program(context, call, running, executions),
    }
}

/// Makes the tests before the program, and stands before its first instruction where they pass.
#[inline(always)]
fn run_tests<O: Op>(
    context: &RunContext<'_, O>,
    call: &Call,
    items: ItemMap,
    spare: &mut Option<Spare>,
) -> Result<AdmissionOutcome, AllocError>
    ensures { IfOk result (λ tested. TestsTo call.now context.now.header.now items tested) }
{
    match admit(context.alloc, call, &items) {
        Ok(Admitted { id, row: Some(row) }) => {
            let callee = Callee { id, row };
            let running = start_program(context, call, items, callee, spare)?;
            Ok(AdmissionOutcome::Begins(running))
        }
        Ok(Admitted { id, row: None }) => {
            let end = cleared(context.alloc, call, id, Cause::Gone)?;
            Ok(AdmissionOutcome::Stops(RunOutcome::Done(EndedRun {
                reads: items,
                writes: end.writes,
                outcome: end.outcome,
            })))
        }
        Err(AdmissionStop::Refused(why)) => Ok(AdmissionOutcome::Stops(RunOutcome::Done(
            EndedRun {
                reads: items,
                writes: ItemMap::new(context.alloc),
                outcome: Outcome::Refused(why),
            },
        ))),
        Err(AdmissionStop::Need(item)) => Ok(AdmissionOutcome::Stops(RunOutcome::Need(
            Phase::Tests(items),
            item,
        ))),
        Err(AdmissionStop::Memory) => Err(AllocError),
    }
}

/// Makes one step of the program's path.
fn step_program<L: Ledger, O: Op>(
    context: &RunContext<'_, O>,
    call: &Call,
    running: Box<Running>,
    executions: &mut Executions<L>,
) -> Result<PathOutcome, AllocError>
    requires begun { BeginsRun call.now
        context.now.header.now running.value.env.reads running.value }
    ensures goes { IfOk result (λ went. GoesTo call.now
        context.now.header.now running.value.env.reads (Some running.value.steps) went) }
    ensures executes { IfOk result (λ went. GoExecutes call.now context.now.header.now
        running.value.env.reads (Some running.value.steps) went executions.old executions.new) }
    ensures few { IfErr result (λ _. ExecutesAtMost 0 1 executions.old executions.new) }
{
    let mut running = running;
    match make_steps(context.alloc, context.ops, &mut running, 1, executions)? {
        StepsOutcome::Made => Ok(PathOutcome::On(Phase::Runs(running))),
        StepsOutcome::Need(item) => Ok(PathOutcome::Stops(RunOutcome::Need(
            Phase::Runs(running),
            Box::into_inner(item),
        ))),
        StepsOutcome::Ended(ended) => Ok(PathOutcome::Ends(Phase::Runs(running), ended)),
    }
}

/// Runs the program on to its end, or to an item that was not supplied.
#[inline(always)]
fn run_program<L: Ledger, O: Op>(
    context: &RunContext<'_, O>,
    call: &Call,
    running: Box<Running>,
    spare: &mut Option<Spare>,
    executions: &mut Executions<L>,
) -> Result<RunOutcome, AllocError>
    requires begun { BeginsRun call.now
        context.now.header.now running.value.env.reads running.value }
    ensures runs { IfOk result
        (λ ran. RunsTo call.now context.now.header.now running.value.env.reads ran) }
    ensures executes { IfOk result (λ ran. RunExecutes call.now context.now.header.now
        running.value.env.reads (Some running.value.steps) ran executions.old executions.new) }
    ensures few { IfErr result (λ _.
        ExecutesAtMost (most_program_bytes - running.value.steps) 1 executions.old executions.new) }
{
    let mut running = running;
    match make_steps(
        context.alloc,
        context.ops,
        &mut running,
        u16::MAX,
        executions,
    ) {
        // No path has so many.
        Ok(StepsOutcome::Made) => unreachable!(),
        Ok(StepsOutcome::Need(item)) => Ok(RunOutcome::Need(
            Phase::Runs(running),
            Box::into_inner(item),
        )),
        Ok(StepsOutcome::Ended(ended)) => Ok(RunOutcome::Done(close(
            context, call, running, ended, spare,
        )?)),
        Err(AllocError) => {
            discard(running);
            Err(AllocError)
        }
    }
}

/// Drops a run out of line: who drops a machine has room for its stack among the own variables, and who makes steps is to
/// have none.
#[cold]
#[inline(never)]
fn discard(_running: Box<Running>) {}

/// Leaves the box of a program for the next run.
#[inline(always)]
fn give_back(spare: &mut Option<Spare>, running: Box<Running>) {
    if let Some(before) = mem::replace(spare, Some(Spare { running })) {
        discard(before.running);
    }
}

/// A run whose program has ended so. Its box is spare again.
#[inline(always)]
fn close<O: Op>(
    context: &RunContext<'_, O>,
    call: &Call,
    running: Box<Running>,
    ended: Ended,
    spare: &mut Option<Spare>,
) -> Result<EndedRun, AllocError>
    requires ends { ClosesAs call.now context.now.header.now running.value ended }
    ensures ends { IfOk result
        (λ closed. EndsRun call.now context.now.header.now running.value.env.reads closed) }
    ensures outcome { IfOk result
        (λ closed. closed.outcome ≡ outcome_of call.now.completion ended) }
{
    let mut running = running;
    let closed = ended_run(context, call, &mut running, ended);
    give_back(spare, running);
    closed
}

/// Takes the items out of a run whose program has ended so, and ends the call.
#[inline(always)]
fn ended_run<O: Op>(
    context: &RunContext<'_, O>,
    call: &Call,
    running: &mut Running,
    ended: Ended,
) -> Result<EndedRun, AllocError>
    requires ends { ClosesAs call.now context.now.header.now running.old ended }
    ensures ends { IfOk result
        (λ closed. EndsRun call.now context.now.header.now running.old.env.reads closed) }
    ensures outcome { IfOk result
        (λ closed. closed.outcome ≡ outcome_of call.now.completion ended) }
{
    let id = running.env.current();
    let (reads, writes) = running.env.take_items(context.alloc);
    let end = end_call(context.alloc, call, id, running.row.get(), writes, ended)?;
    Ok(EndedRun {
        reads,
        writes: end.writes,
        outcome: end.outcome,
    })
}
