//! The lines of calls. They are read by as many threads as there are workers, up to four; where no thread can be made, parts
//! are read one after another. Whoever reads a line, the first refusal in the order of the lines is the answer. The first part's
//! list has room for the calls of all, so that they are put together without a copy of it.

ghost use Rattle.std.specs.Prelude.{◌≡◌, ◌+◌, ◌<◌, ◌^◌, length};
ghost use Rattle.teal_value.specs.Answer.{Gives};
ghost use Rattle.avm_input.specs.Lines.{lines_shown};
ghost use Rattle.avm_input.specs.ProposeInputs.{calls_on_lines};
ghost use Rattle.avm_node.specs.CallParts.{GiveTogether};

use avm_call::Call;
use avm_input::{NumberedLine, Refusal, calls_on};
use avm_pool::take_room;
use std::alloc::Global;
use std::thread::{Threads, join};
use teal_value::Failure;

/// How few lines one thread reads alone: to make a thread for them would cost more than it saves.
const FEW: usize = 128;

/// What a call takes, in bytes.
const CALL_ROOM: usize = 512;

/// Calls, or the first refusal of a line.
type Calls = Result<Vec<Call>, Failure<Refusal>>;

/// The calls of lines, numbered from 1.
pub(crate) fn calls_of<R: Threads + Sync>(
    rt: &R,
    alloc: Global,
    workers: usize,
    lines: &[NumberedLine<'_>],
) -> Calls
    ensures { Gives (λ calls. calls.items) result (calls_on_lines 1 (lines_shown lines.now)) }
{
    if workers < 2 || lines.len() < FEW {
        calls_in_room(alloc, 1, lines, lines.len())
    } else if workers < 4 {
        by_two(rt, alloc, 1, lines, lines.len())
    } else {
        by_four(rt, alloc, 1, lines)
    }
}

/// The calls of lines, numbered from this on, by four threads.
fn by_four<R: Threads + Sync>(
    rt: &R,
    alloc: Global,
    number: usize,
    lines: &[NumberedLine<'_>],
) -> Calls
    requires { number + length lines.now < 2 ^ 64 }
    ensures { Gives (λ calls. calls.items) result (calls_on_lines number (lines_shown lines.now)) }
{
    let (front, back) = lines.split_at(lines.len() / 2);
    let behind = number + front.len();
    let (first, second) = join(
        rt,
        || -> Calls
            requires { number + length front.now < 2 ^ 64 }
            ensures { Gives (λ calls. calls.items) result
                (calls_on_lines number (lines_shown front.entry.now)) }
        { by_two(rt, alloc, number, front, lines.len()) },
        || -> Calls
            requires { behind + length back.now < 2 ^ 64 }
            ensures { Gives (λ calls. calls.items) result
                (calls_on_lines behind (lines_shown back.entry.now)) }
        { by_two(rt, alloc, behind, back, back.len()) },
    );
    together(first, second)
}

/// The calls of lines, numbered from this on, by two threads, in a list with room for so many.
fn by_two<R: Threads + Sync>(
    rt: &R,
    alloc: Global,
    number: usize,
    lines: &[NumberedLine<'_>],
    room: usize,
) -> Calls
    requires { number + length lines.now < 2 ^ 64 }
    ensures { Gives (λ calls. calls.items) result (calls_on_lines number (lines_shown lines.now)) }
{
    let (front, back) = lines.split_at(lines.len() / 2);
    let behind = number + front.len();
    let (first, second) = join(
        rt,
        || -> Calls
            requires { number + length front.now < 2 ^ 64 }
            ensures { Gives (λ calls. calls.items) result
                (calls_on_lines number (lines_shown front.entry.now)) }
        { calls_in_room(alloc, number, front, room) },
        || -> Calls
            requires { behind + length back.now < 2 ^ 64 }
            ensures { Gives (λ calls. calls.items) result
                (calls_on_lines behind (lines_shown back.entry.now)) }
        { calls_in_room(alloc, behind, back, back.len()) },
    );
    together(first, second)
}

/// The calls of both, or the first refusal.
fn together(first: Calls, second: Calls) -> Calls
    ensures { GiveTogether (λ calls. calls.items) first second result }
{
    let mut calls = first?;
    let mut more = second?;
    calls.append(&mut more)?;
    Ok(calls)
}

/// The calls of lines, numbered from this on, by one thread, in a list with room for so many. What calls take is taken at once.
fn calls_in_room(alloc: Global, number: usize, lines: &[NumberedLine<'_>], room: usize) -> Calls
    requires { number + length lines.now < 2 ^ 64 }
    ensures { Gives (λ calls. calls.items) result (calls_on_lines number (lines_shown lines.now)) }
{
    take_room(alloc, lines.len(), CALL_ROOM);
    calls_on(alloc, number, lines, room)
}
