//! What the machine holds before a step of a call's program, as JSON.

ghost use Rattle.std.specs.Prelude.{◌≡◌, ◌-◌, OnOk, replicate};
ghost use Rattle.json.specs.Tree.{json_tokens};
ghost use Rattle.teal_value.specs.declared.value.Value.TheVariants.{Uint};
ghost use Rattle.teal_dis.specs.Shown.{AreLineNumbers};
ghost use Rattle.avm_stepper.specs.Scratch.{places_seen};
ghost use Rattle.avm_stepper.specs.Shown.{machine_seen, next_seen};
ghost use Rattle.json_views.specs.Documents.{array_of, member_tokens};
ghost use Rattle.json_views.specs.States.{shown_value};
ghost use Rattle.json_views.specs.Writing.{Adds};
ghost use Rattle.json_views.specs.MachineStates.{error_members, filled, line_at, shown_state};
ghost use Rattle.json_views.specs.ValueTokens.{value_tokens};

use crate::states::put_value;
use crate::writing::{
    Writer, begin_array, begin_object, end_array, end_object, put_name, put_text_member,
    put_uint_member,
};
use avm_stepper::{MachineView, Next, ScratchPlace};
use std::alloc::{AllocError, Global};
use teal_check::Program;
use teal_value::Value;

/// What the machine holds, by the lines of the program's listing.
pub(crate) fn put_state(
    alloc: Global,
    out: &mut Writer,
    program: &Program,
    lines: &[u16],
    view: &MachineView<'_>,
) -> Result<(), AllocError>
    requires lines { AreLineNumbers program.now.placed lines.now }
    ensures { OnOk result
        (Adds out.old out.new (json_tokens (shown_state program.now (machine_seen view.now)))) }
{
    let line = line_at(program, lines, view.place);
    begin_object(out)?;
    put_error(out, &view.next)?;
    put_uint_member(out, "line", u64::from(line))?;
    put_uint_member(out, "pc", u64::from(view.place))?;
    put_name(out, "scratch")?;
    put_scratch(alloc, out, &view.scratch)?;
    put_name(out, "stack")?;
    put_values(alloc, out, view.stack)?;
    end_object(out)
}

/// The line of the instruction at a place.
fn line_at(program: &Program, lines: &[u16], place: u16) -> u16
    requires lines { AreLineNumbers program.now.placed lines.now }
    ensures { result ≡ line_at program.now.placed place }
{
    let number = match program.at(place) {
        Some(number) => usize::from(number),
        None => program.count(),
    };
    lines[number]
}

/// The fault of the instruction that stands there, if it has faulted.
fn put_error(out: &mut Writer, next: &Next<'_>) -> Result<(), AllocError>
    ensures { OnOk result
        (Adds out.old out.new (member_tokens (error_members (next_seen next.now)))) }
{
    match next {
        Next::Fault(fault) => put_text_member(out, "error", fault.name()),
        Next::Instruction(_) => Ok(()),
        Next::End => Ok(()),
    }
}

/// The array of values.
fn put_values(alloc: Global, out: &mut Writer, values: &[Value]) -> Result<(), AllocError>
    ensures { OnOk result
        (Adds out.old out.new (json_tokens (array_of shown_value values.now))) }
{
    begin_array(out)?;
    for value in values {
        put_value(alloc, out, value)?;
    }
    end_array(out)
}

/// The array of a scratch space up to the last place that is not the uint 0.
fn put_scratch(alloc: Global, out: &mut Writer, places: &[ScratchPlace]) -> Result<(), AllocError>
    ensures { OnOk result (Adds out.old out.new
        (json_tokens (array_of shown_value (filled 0 (places_seen places.now))))) }
{
    begin_array(out)?;
    let mut next = 0u16;
    for place in places {
        let index = u16::from(place.index);
        put_zeros(alloc, out, next, index)?;
        put_value(alloc, out, &place.value)?;
        next = index + 1;
    }
    end_array(out)
}

/// The uint 0 at each place from one on and below another.
fn put_zeros(alloc: Global, out: &mut Writer, from: u16, to: u16) -> Result<(), AllocError>
    ensures { OnOk result
        (Adds out.old out.new (value_tokens (replicate (to - from) (Uint 0)))) }
{
    for _zero in 0..to.saturating_sub(from) {
        put_value(alloc, out, &Value::Uint(0))?;
    }
    Ok(())
}
