//! Runs of calls whose items are read while they run.

ghost use Rattle.std.specs.Prelude.{◌≡◌, ◌+◌, ℕ, IfErr, IfOk};
ghost use Rattle.teal_code.specs.Limits.{most_program_bytes};
ghost use Rattle.avm_call.specs.Ends.{most_items};
ghost use Rattle.avm_run.specs.Executions.{ExecutesAtMost};
ghost use Rattle.avm_run.specs.ExecutedSteps.{ExecutesOnce};

use crate::admission::first_item;
use crate::call_run::finished;
use crate::context::RunContext;
use crate::finished::Finished;
use crate::full_ops::Executions;
use crate::phase::{Phase, RunOutcome, run_on};
use crate::running::{Spare, no_items};
use avm_call::Call;
use avm_items::{Item, ItemValue};
use avm_ops::Op;
use std::sync::ledger::Ledger;
use teal_value::Failure;

/// Whoever reads the items that a run asks for, and may stop the run, for a reason of its own.
pub trait Reader<S> {
    /// What no read changes of it, as the number and the timestamp of an attempt.
    ghost kept: { Self → ℕ × ℕ };

    /// The value of an item.
    fn read(&mut self, item: &Item) -> Result<ItemValue, Failure<S>>
        ensures { kept self.new ≡ kept self.old };
}

/// Runs a call to its end over the items that a reader gives. Its program runs in the spare box, as that of a call on a ledger
/// does, and what it reads and writes comes in lists without room for more: theirs is left for the next call. A run that is to
/// stop between two items is a [`CallRun`](crate::CallRun).
///
/// The instructions that are executed are counted, as by [`call_on`](crate::call_on).
pub fn run_reading<L: Ledger, S: Drop, R: Reader<S>, O: Op>(
    context: &RunContext<'_, O>,
    call: &Call,
    spare: &mut Option<Spare>,
    reader: &mut R,
    executions: &mut Executions<L>,
) -> Result<Finished, Failure<S>>
    ensures call { IfOk result (λ f. (f.call ≡ call.now) × (f.header ≡ context.now.header.now)) }
    ensures kept { R.kept reader.new ≡ R.kept reader.old }
    ensures executes { IfOk result (λ f. ExecutesOnce
        call.now context.now.header.now f.reads f.outcome executions.old executions.new) }
    ensures few { IfErr result
        (λ _. ExecutesAtMost most_program_bytes (most_items + 1) executions.old executions.new) }
{
    // That the call keeps the rules of calls, its type says.
    let _fields = call.fields();
    let first = first_item(call);
    let value = reader.read(&first)?;
    let items = no_items(context.alloc, spare);
    let mut phase = Phase::Tests(items).supplied(first, value)?;
    loop {
        match run_on(context, call, phase, spare, executions)? {
            RunOutcome::Need(asking, item) => {
                let value = reader.read(&item)?;
                phase = asking.supplied(item, value)?;
            }
            RunOutcome::Done(closed) => {
                let finished = finished(call.clone()?, *context.header, closed);
                return Ok(finished.fitted(context.alloc, spare));
            }
        }
    }
}
