//! Calls on a ledger.

ghost use Rattle.std.specs.Prelude.{◌≡◌, ◌+◌, IfErr, IfOk};
ghost use Rattle.teal_code.specs.Limits.{most_program_bytes};
ghost use Rattle.avm_items.specs.Asks.{result_over};
ghost use Rattle.avm_items.specs.LedgerItems.{at};
ghost use Rattle.avm_call.specs.Calls.{call_result};
ghost use Rattle.avm_call.specs.Ends.{most_items};
ghost use Rattle.avm_call.specs.Replay.{ledger_after, outcome_on};
ghost use Rattle.avm_run.specs.Executions.{ExecutesAtMost};
ghost use Rattle.avm_run.specs.ExecutedSteps.{CallExecutes};

use crate::admission::first_item;
use crate::context::RunContext;
use crate::full_ops::Executions;
use crate::phase::{EndedRun, Phase, RunOutcome, run_on};
use crate::running::{Spare, keep_room, no_items};
use avm_call::{Call, Outcome};
use avm_items::{ItemMap, item_of, put_items};
use avm_laws::call_laws::changes_are_handed_on;
use avm_laws::order_laws::every_call_keeps_order;
use avm_ledger::Ledger;
use avm_ops::Op;
use std::alloc::AllocError;
use std::sync::ledger;

/// Makes a call on a ledger, in place, and answers its outcome. It costs what the call touches, not what the ledger holds.
///
/// The program runs in the spare box, on its machine, and leaves it for the next call: a first call is handed `None`, and
/// further ones need no memory for either.
///
/// The instructions that are executed are counted: one for each step of the program's path, and so no more than the program
/// has, and none where no program runs. An instruction that asks for an item is executed again with it; that and a fault are
/// counted apart.
pub fn call_on<L: ledger::Ledger, O: Op>(
    context: &RunContext<'_, O>,
    ledger: &mut Ledger,
    call: &Call,
    spare: &mut Option<Spare>,
    executions: &mut Executions<L>,
) -> Result<Outcome, AllocError>
    ensures outcome { IfOk result
        (λ outcome. outcome ≡ outcome_on ledger.old call.now context.now.header.now) }
    ensures after { IfOk result
        (λ _. ledger.new ≡ ledger_after ledger.old call.now context.now.header.now) }
    ensures unchanged { IfErr result (λ _. ledger.new ≡ ledger.old) }
    ensures executes { IfOk result (λ outcome. CallExecutes ledger.old
        call.now context.now.header.now outcome executions.old executions.new) }
    ensures few { IfErr result
        (λ _. ExecutesAtMost most_program_bytes (most_items + 1) executions.old executions.new) }
{
    let closed = run_over(context, ledger, call, spare, executions)?;
    // What the call leaves is a ledger. All that it writes is put, also what is there already, which changes nothing.
    ledger.holds();
    every_call_keeps_order();
    changes_are_handed_on();
    let room = put_items(context.alloc, ledger, closed.writes)?;
    keep_room(spare, closed.reads, room);
    Ok(closed.outcome)
}

/// Makes a call on a copy of a ledger, as [`call_on`] does.
pub fn call_plain<L: ledger::Ledger, O: Op>(
    context: &RunContext<'_, O>,
    ledger: &Ledger,
    call: &Call,
    executions: &mut Executions<L>,
) -> Result<(Outcome, Ledger), AllocError>
    ensures outcome { IfOk result
        (λ r. r.0 ≡ outcome_on ledger.now call.now context.now.header.now) }
    ensures after { IfOk result
        (λ r. r.1 ≡ ledger_after ledger.now call.now context.now.header.now) }
    ensures executes { IfOk result (λ r. CallExecutes ledger.now
        call.now context.now.header.now r.0 executions.old executions.new) }
{
    let mut after = ledger.clone()?;
    let mut spare = None;
    let outcome = call_on(context, &mut after, call, &mut spare, executions)?;
    Ok((outcome, after))
}

/// The run of a call that is supplied with a ledger's items.
fn run_over<L: ledger::Ledger, O: Op>(
    context: &RunContext<'_, O>,
    ledger: &Ledger,
    call: &Call,
    spare: &mut Option<Spare>,
    executions: &mut Executions<L>,
) -> Result<EndedRun, AllocError>
    ensures result { IfOk result (λ closed. (closed.outcome, closed.writes)
        ≡ result_over (at ledger.now) (call_result call.now context.now.header.now)) }
    ensures executes { IfOk result (λ closed. CallExecutes ledger.now
        call.now context.now.header.now closed.outcome executions.old executions.new) }
    ensures few { IfErr result
        (λ _. ExecutesAtMost most_program_bytes (most_items + 1) executions.old executions.new) }
{
    // That the call keeps the rules of calls, its type says.
    let _fields = call.fields();
    let first = first_item(call);
    let value = item_of(ledger, &first)?;
    let items = no_items(context.alloc, spare);
    let mut phase = Phase::Tests(items).supplied(first, value)?;
    loop {
        match run_on(context, call, phase, spare, executions)? {
            RunOutcome::Need(asking, item) => {
                let value = item_of(ledger, &item)?;
                phase = asking.supplied(item, value)?;
            }
            RunOutcome::Done(closed) => return Ok(closed),
        }
    }
}
