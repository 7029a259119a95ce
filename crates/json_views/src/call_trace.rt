//! The trace of a call: an element of a dry-run response.

ghost use Rattle.std.specs.Prelude.{◌≡◌, ◌∷◌, [], IfErr, IfOk, OnOk, codes};
ghost use Rattle.json.specs.Tree.{json_tokens};
ghost use Rattle.avm_input.specs.Outcomes.{outcome_text};
ghost use Rattle.avm_call.specs.Replay.{ledger_after};
ghost use Rattle.json_views.specs.Documents.{array_of, member_tokens, text, uint};
ghost use Rattle.json_views.specs.Writing.{Adds};
ghost use Rattle.json_views.specs.CallTraces.{AddsCallTrace, IsCallTraceFailure};
ghost use Rattle.json_views.specs.StateRuns.{AddsEnd, AddsRun, AddsTrace, IsAtStart, IsProgramIn, IsRunFailure, IsStartOf, IsTraceFailure, message_tokens};
ghost use Rattle.json_views.specs.Traces.{fault_message, has_faulted, program_name, recorded_members, shown_messages, shown_no_run, verdict_word};

use crate::changes::{put_global_delta, put_local_deltas};
use crate::disassembly::put_disassembly;
use crate::refusal::TraceRefusal;
use crate::trace_states::put_states;
use crate::writing::{
    Writer, begin_array, begin_object, end_array, end_object, put_name, put_text, put_text_member,
    put_uint_member,
};
use avm_block::Entry;
use avm_call::{Call, Cause, Outcome};
use avm_input::outcome_text;
use avm_items::Completion;
use avm_ledger::Ledger;
use avm_ops::Op;
use avm_run::{Executions, FullOps, RunContext, call_plain};
use avm_stepper::Stepper;
use std::alloc::{AllocError, Global};
use std::sync::ledger;
use teal_check::Program;
use teal_dis::line_numbers;
use teal_value::Failure;

/// What the instructions of a program may cost together (AVM specification, "Execution Environment for Smart Contracts").
const BUDGET: u64 = 700;

/// A call that is traced.
pub(crate) trait Traced {
    ghost use Rattle.std.specs.Prelude.{Option};
    ghost use Rattle.avm_items.specs.declared.call_data.CallData.{CallData};
    ghost use Rattle.avm_call.specs.declared.outcome.Outcome.{Outcome as Ending};

    /// Its fields, and how its entry says that it ended, if it has one.
    ghost recorded: { Self → CallData × Option Ending };

    /// The call.
    fn call(&self) -> &Call
        ensures { result.now ≡ (recorded self.now).0 };

    /// How its entry says that it ended, if it has one.
    fn outcome(&self) -> Option<Outcome>
        ensures { result ≡ (recorded self.now).1 };
}

impl Traced for Entry {
    ghost use Rattle.json_views.specs.Traces.{recorded_call};

    ghost recorded = { recorded_call };

    fn call(&self) -> &Call {
        &self.call
    }

    fn outcome(&self) -> Option<Outcome> {
        Some(self.outcome)
    }
}

impl Traced for Call {
    ghost use Rattle.json_views.specs.Runs.{unrecorded_call};

    ghost recorded = { unrecorded_call };

    fn call(&self) -> &Call {
        self
    }

    fn outcome(&self) -> Option<Outcome> {
        None
    }
}

/// How a call ends, and how its entry says that it ended, if it has one.
#[derive(Clone, Copy)]
pub(crate) struct Ending {
    pub found: Outcome,
    pub recorded: Option<Outcome>,
}

/// Writes what a call does over the ledger that it meets, and gives the ledger that it leaves.
pub(crate) fn put_call_trace<L: ledger::Ledger, T: Traced, O: Op>(
    context: &RunContext<'_, O>,
    out: &mut Writer,
    ledger: Ledger,
    traced: &T,
    executions: &mut Executions<L>,
) -> Result<Ledger, Failure<TraceRefusal>>
    ensures after { IfOk result (λ after. after
        ≡ ledger_after ledger (T.recorded traced.now).0 context.now.header.now) }
    ensures written { IfOk result (λ _. AddsCallTrace ledger context.now.header.now
        (T.recorded traced.now) out.old out.new) }
    ensures refused { IfErr result (IsCallTraceFailure ledger context.now.header.now
        (T.recorded traced.now) out.old) }
{
    let call = traced.call();
    let (found, after) = call_plain(context, &ledger, call, executions)?;
    let ending = Ending {
        found,
        recorded: traced.outcome(),
    };
    match Stepper::open(context.alloc, ledger, call, context.header, context.ops) {
        Ok(stepper) => {
            let mut stepper = stepper;
            put_run_trace(context.alloc, out, &mut stepper, call, ending, context.ops)?;
        }
        Err(Failure::Fault(_no_program)) => put_no_run(context.alloc, out, ending)?,
        Err(Failure::Memory) => return Err(Failure::Memory),
    }
    Ok(after)
}

/// Writes the trace of a call whose program runs, by a stepper before its first instruction.
pub(crate) fn put_run_trace<O: Op>(
    alloc: Global,
    out: &mut Writer,
    stepper: &mut Stepper,
    call: &Call,
    ending: Ending,
    ops: &FullOps<O>,
) -> Result<(), Failure<TraceRefusal>>
    requires start { IsStartOf stepper.old call.now ending.found }
    ensures written { OnOk result (AddsTrace stepper.old ending.recorded out.old out.new) }
    ensures refused { IfErr result (IsTraceFailure stepper.old ending.recorded out.old) }
{
    begin_object(out)?;
    put_name(out, "app-call-messages")?;
    put_messages(alloc, out, call.fields().completion, ending.found)?;
    put_run(alloc, out, stepper, ops)?;
    put_end(alloc, out, stepper, ending)?;
    Ok(())
}

/// Which program runs, whether its call is approved, and its fault, if it has one.
fn put_messages(
    alloc: Global,
    out: &mut Writer,
    completion: Completion,
    found: Outcome,
) -> Result<(), AllocError>
    ensures { OnOk result (Adds out.old out.new (json_tokens (shown_messages completion found))) }
{
    begin_array(out)?;
    put_text(out, program_name(completion))?;
    put_text(out, verdict_word(found))?;
    put_fault(alloc, out, found)?;
    end_array(out)
}

/// The message that says how a call ends, where its program has faulted.
fn put_fault(alloc: Global, out: &mut Writer, found: Outcome) -> Result<(), AllocError>
    ensures { OnOk result (Adds out.old out.new (message_tokens (fault_message found))) }
{
    if !has_faulted(found) {
        return Ok(());
    }
    let words = outcome_text(alloc, found)?;
    put_text(out, words.as_str())
}

fn program_name(completion: Completion) -> &'static str
    ensures { result.now ≡ program_name completion }
{
    match completion {
        Completion::ClearState => "ClearStateProgram",
        _ => "ApprovalProgram",
    }
}

fn verdict_word(outcome: Outcome) -> &'static str
    ensures { result.now ≡ verdict_word outcome }
{
    match outcome {
        Outcome::Approved => "PASS",
        _ => "REJECT",
    }
}

/// Whether a program has faulted.
fn has_faulted(outcome: Outcome) -> bool
    ensures { result ≡ has_faulted outcome }
{
    match outcome {
        Outcome::Faulted(_fault, _place) => true,
        Outcome::ClearedAnyway(Cause::Faulted(_fault, _place)) => true,
        _ => false,
    }
}

/// The states of the program, what its instructions cost, and its listing.
fn put_run<O: Op>(
    alloc: Global,
    out: &mut Writer,
    stepper: &mut Stepper,
    ops: &FullOps<O>,
) -> Result<(), Failure<TraceRefusal>>
    requires start { IsAtStart stepper.old }
    ensures written { OnOk result (AddsRun stepper.old stepper.new out.old out.new) }
    ensures refused { IfErr result (IsRunFailure stepper.old out.old) }
{
    let program = program_of(stepper)?;
    let lines = line_numbers(alloc, &program)?;
    put_name(out, "app-call-trace")?;
    let cost = put_states(alloc, out, &program, &lines, stepper, ops)?;
    put_budget(out, BUDGET, cost)?;
    put_name(out, "disassembly")?;
    put_disassembly(alloc, out, &program)?;
    Ok(())
}

/// The program that a stepper runs.
fn program_of(stepper: &Stepper) -> Result<Program, AllocError>
    ensures { IfOk result (λ program. IsProgramIn stepper.now program) }
{
    match stepper.program() {
        Some(program) => program.clone(),
        None => Err(AllocError),
    }
}

/// What the instructions of a program may cost, and what those that were executed do.
fn put_budget(out: &mut Writer, added: u64, consumed: u64) -> Result<(), AllocError>
    ensures { OnOk result (Adds out.old out.new (member_tokens ((codes "budget-added", uint added)
        ∷ (codes "budget-consumed", uint consumed)
        ∷ []))) }
{
    put_uint_member(out, "budget-added", added)?;
    put_uint_member(out, "budget-consumed", consumed)
}

/// What the program has changed, how its call ends, and how its entry says that it ended.
fn put_end(
    alloc: Global,
    out: &mut Writer,
    stepper: &Stepper,
    ending: Ending,
) -> Result<(), AllocError>
    ensures { OnOk result
        (AddsEnd stepper.now ending.found ending.recorded out.old out.new) }
{
    let view = match stepper.view(alloc) {
        Ok(view) => view,
        Err(_) => return Err(AllocError),
    };
    put_name(out, "global-delta")?;
    put_global_delta(alloc, out, &view.global_changes)?;
    put_name(out, "local-deltas")?;
    put_local_deltas(alloc, out, &view.local_changes)?;
    put_ending(alloc, out, ending)?;
    end_object(out)
}

/// Writes the trace of a call that runs no program.
fn put_no_run(alloc: Global, out: &mut Writer, ending: Ending) -> Result<(), AllocError>
    ensures { OnOk result
        (Adds out.old out.new (json_tokens (shown_no_run ending.found ending.recorded))) }
{
    let words = outcome_text(alloc, ending.found)?;
    begin_object(out)?;
    put_name(out, "app-call-messages")?;
    begin_array(out)?;
    put_text(out, words.as_str())?;
    end_array(out)?;
    put_nothing(out, "app-call-trace")?;
    put_budget(out, 0, 0)?;
    put_nothing(out, "disassembly")?;
    put_nothing(out, "global-delta")?;
    put_nothing(out, "local-deltas")?;
    put_ending(alloc, out, ending)?;
    end_object(out)
}

/// A member that is an empty array.
fn put_nothing(out: &mut Writer, name: &str) -> Result<(), AllocError>
    ensures { OnOk result
        (Adds out.old out.new (member_tokens ((name.now, array_of text []) ∷ []))) }
{
    put_name(out, name)?;
    begin_array(out)?;
    end_array(out)
}

/// How a call ends, and how its entry says that it ended.
fn put_ending(alloc: Global, out: &mut Writer, ending: Ending) -> Result<(), AllocError>
    ensures { OnOk result (Adds out.old out.new
        (member_tokens ((codes "outcome", text (outcome_text ending.found))
        ∷ recorded_members ending.recorded))) }
{
    put_outcome(alloc, out, "outcome", ending.found)?;
    match ending.recorded {
        Some(recorded) => put_outcome(alloc, out, "recorded-outcome", recorded),
        None => Ok(()),
    }
}

fn put_outcome(
    alloc: Global,
    out: &mut Writer,
    name: &str,
    outcome: Outcome,
) -> Result<(), AllocError>
    ensures { OnOk result
        (Adds out.old out.new (member_tokens ((name.now, text (outcome_text outcome)) ∷ []))) }
{
    let words = outcome_text(alloc, outcome)?;
    put_text_member(out, name, words.as_str())
}
