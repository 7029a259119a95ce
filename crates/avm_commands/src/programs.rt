//! The commands `dis` and `check`, whose input is one line of digits: a program.

ghost use Rattle.std.specs.Prelude.{◌≡◌, IfOk, Ok};
ghost use Rattle.teal_value.specs.Answer.{Gives};
ghost use Rattle.teal_check.specs.WellFormed.{checked};
ghost use Rattle.avm_input.specs.DigitLines.{digit_lines};
ghost use Rattle.avm_commands.specs.Programs.{check_reply, dis_reply, first_program, on_check, only_program, program_reply, size_text};
ghost use Rattle.avm_input.specs.Shown.{reply_shown};

use avm_input::{DONE, DigitLines, Refusal, Reply, refusal_reply};
use std::alloc::{AllocError, Global};
use teal_check::{Program, check};
use teal_dis::list;
use teal_value::Failure;

/// What `dis` answers to its input: the program's listing.
pub fn dis_reply(alloc: Global, input: &[u8]) -> Result<Reply, AllocError>
    ensures { IfOk result (λ reply. reply_shown reply ≡ dis_reply input.now) }
{
    match only_program(alloc, input) {
        Ok(program) => {
            let text = list(alloc, &program)?;
            Ok(Reply {
                text: text.into_bytes(),
                status: DONE,
            })
        }
        Err(failure) => refusal_reply(alloc, failure.into_fault()?),
    }
}

/// What `check` answers to its input: how many instructions the program has, and what they cost together.
pub fn check_reply(alloc: Global, input: &[u8]) -> Result<Reply, AllocError>
    ensures { IfOk result (λ reply. reply_shown reply ≡ check_reply input.now) }
{
    match only_program(alloc, input) {
        Ok(program) => size_reply(alloc, &program),
        Err(failure) => refusal_reply(alloc, failure.into_fault()?),
    }
}

fn size_reply(alloc: Global, program: &Program) -> Result<Reply, AllocError>
    ensures { IfOk result (λ reply. reply_shown reply ≡ program_reply size_text (Ok program.now)) }
{
    let count = program.count();
    let cost = program.cost();
    let text = format!(in alloc; "ok instructions {count} cost {cost}\n")?;
    Ok(Reply {
        text: text.into_bytes(),
        status: DONE,
    })
}

// The program of the only line.
fn only_program(alloc: Global, input: &[u8]) -> Result<Program, Failure<Refusal>>
    ensures { Gives (λ program. program) result (only_program (digit_lines input.now)) }
{
    let mut lines = DigitLines::new(input);
    let program = first_program(alloc, &mut lines)?;
    lines.end()?;
    Ok(program)
}

// The program of the next line; where there is none, of no bytes.
fn first_program(alloc: Global, lines: &mut DigitLines) -> Result<Program, Failure<Refusal>>
    ensures { Gives (λ program. (program, lines.new)) result (first_program lines.old) }
{
    match lines.next_bytes(alloc)? {
        Some(bytes) => checked(alloc, bytes.as_slice()),
        None => checked(alloc, &[]),
    }
}

fn checked(alloc: Global, bytes: &[u8]) -> Result<Program, Failure<Refusal>>
    ensures { Gives (λ program. program) result (on_check (checked bytes.now)) }
{
    check(alloc, bytes).map_err(|failure| failure.map(Refusal::Check))
}
