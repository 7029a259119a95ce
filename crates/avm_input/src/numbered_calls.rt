//! Lines of calls, which are numbered.

ghost use Rattle.std.specs.Prelude.{◌≡◌, ◌+◌, ◌<◌, ◌^◌, length};
ghost use Rattle.teal_value.specs.Answer.{Gives};
ghost use Rattle.avm_input.specs.CallLines.{checked_call};
ghost use Rattle.avm_input.specs.Lines.{line_shown, lines_shown};
ghost use Rattle.avm_input.specs.ProposeInputs.{call_on_line, calls_on_lines, on_call};

use crate::call_line::checked_call;
use crate::digit_lines::{NumberedLine, line_bytes};
use crate::refusals::Refusal;
use avm_call::Call;
use std::alloc::Global;
use teal_value::Failure;

/// The calls of lines, numbered from this on, or the first refusal in the order of the lines. The list has room for so many calls
/// from the beginning.
pub fn calls_on(
    alloc: Global,
    number: usize,
    lines: &[NumberedLine<'_>],
    room: usize,
) -> Result<Vec<Call>, Failure<Refusal>>
    requires { number + length lines.now < 2 ^ 64 }
    ensures { Gives (λ calls. calls.items) result (calls_on_lines number (lines_shown lines.now)) }
{
    let mut calls = Vec::with_capacity(alloc, room)?;
    for index in 0..lines.len() {
        calls.push(call_on(alloc, number + index, lines[index])?)?;
    }
    Ok(calls)
}

/// The call of a line, whose number among the calls this is.
fn call_on(alloc: Global, number: usize, line: NumberedLine<'_>) -> Result<Call, Failure<Refusal>>
    ensures { Gives (λ call. call) result (call_on_line number (line_shown line.entry)) }
{
    let bytes = line_bytes(alloc, line.0, line.1)?;
    numbered_call(alloc, number, bytes.as_slice())
}

/// The call of this number.
fn numbered_call(alloc: Global, number: usize, bytes: &[u8]) -> Result<Call, Failure<Refusal>>
    ensures { Gives (λ call. call) result (on_call number (checked_call bytes.now)) }
{
    checked_call(alloc, bytes).map_err(|failure| failure.map(|fault| Refusal::Call(number, fault)))
}
