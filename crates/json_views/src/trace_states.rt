//! The states of a call's program, from before its first instruction to the fault or the end.

ghost use Rattle.std.specs.Prelude.{◌≡◌, ◌≤◌, IfErr, IfOk};
ghost use Rattle.teal_dis.specs.Shown.{AreLineNumbers};
ghost use Rattle.avm_stepper.specs.Shown.{next_seen};
ghost use Rattle.json_views.specs.StateRuns.{AddsStates, IsAtStart, IsStatesFailure, WritesState, is_instruction};
ghost use Rattle.json_views.specs.Traces.{next_cost};

use crate::machine::put_state;
use crate::refusal::TraceRefusal;
use crate::writing::{Writer, begin_array, end_array};
use avm_ops::Op;
use avm_run::FullOps;
use avm_stepper::{Next, Stepper};
use std::alloc::{AllocError, Global};
use teal_check::Program;
use teal_value::Failure;

/// How many states are written at most: the text of so many is too long.
const MOST_STATES: u64 = 67_108_865;

/// A state that was written.
#[derive(Clone, Copy)]
struct StateWritten {
    /// What the instruction costs that comes next.
    cost: u8,
    /// Whether an instruction comes next.
    goes_on: bool,
}

/// Writes all states of a call's program, leaves the stepper in the last one, and answers what the executed instructions cost. It
/// takes what the machine holds in each state.
pub(crate) fn put_states<O: Op>(
    alloc: Global,
    out: &mut Writer,
    program: &Program,
    lines: &[u16],
    stepper: &mut Stepper,
    ops: &FullOps<O>,
) -> Result<u64, Failure<TraceRefusal>>
    requires lines { AreLineNumbers program.now.placed lines.now }
    requires start { IsAtStart stepper.old }
    ensures written { IfOk result
        (λ cost. AddsStates program.now stepper.old stepper.new out.old out.new cost) }
    ensures refused { IfErr result (IsStatesFailure program.now stepper.old out.old) }
{
    begin_array(out)?;
    let mut cost = 0u64;
    for _step in 0..MOST_STATES {
        let written = put_current(alloc, out, program, lines, stepper)?;
        cost += u64::from(written.cost);
        if out.is_too_long() {
            return Err(Failure::Fault(TraceRefusal::TooLong));
        }
        if !written.goes_on {
            end_array(out)?;
            return Ok(cost);
        }
        match stepper.step(alloc, ops) {
            Ok(()) => {}
            Err(Failure::Memory) => return Err(Failure::Memory),
            Err(Failure::Fault(_ended)) => unreachable!(),
        }
    }
    Err(Failure::Fault(TraceRefusal::TooLong))
}

/// Writes the state in which a stepper stands.
fn put_current(
    alloc: Global,
    out: &mut Writer,
    program: &Program,
    lines: &[u16],
    stepper: &Stepper,
) -> Result<StateWritten, AllocError>
    requires lines { AreLineNumbers program.now.placed lines.now }
    ensures written { IfOk result (λ written.
        WritesState program.now stepper.now out.old out.new written.cost written.goes_on) }
    ensures small { IfOk result (λ written. written.cost ≤ 255) }
{
    let view = match stepper.machine_view(alloc) {
        Ok(view) => view,
        Err(_) => return Err(AllocError),
    };
    put_state(alloc, out, program, lines, &view)?;
    Ok(StateWritten {
        cost: next_cost(&view.next),
        goes_on: is_instruction(&view.next),
    })
}

fn is_instruction(next: &Next<'_>) -> bool
    ensures { result ≡ is_instruction (next_seen next.now) }
{
    match next {
        Next::Instruction(_) => true,
        Next::Fault(_) => false,
        Next::End => false,
    }
}

/// What the instruction costs that comes next.
fn next_cost(next: &Next<'_>) -> u8
    ensures { result ≡ next_cost (next_seen next.now) }
{
    match next {
        Next::Instruction(instruction) => instruction.opcode.cost(),
        Next::Fault(_) => 0,
        Next::End => 0,
    }
}
