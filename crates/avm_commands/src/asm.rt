//! The command `asm`: source text becomes a program in hexadecimal digits.

ghost use Rattle.std.specs.Prelude.{◌≡◌, IfOk};
ghost use Rattle.avm_commands.specs.Answers.{asm_reply, assembly_reply};
ghost use Rattle.avm_input.specs.Shown.{reply_shown};

use avm_input::{DONE, REFUSED, Reply, digit_line_bytes, input_refusal};
use std::alloc::{AllocError, Global};
use std::str;
use teal_asm::{AsmFault, assemble};
use teal_value::Failure;

/// What `asm` answers to its input.
pub fn asm_reply(alloc: Global, input: &[u8]) -> Result<Reply, AllocError>
    ensures { IfOk result (λ reply. reply_shown reply ≡ asm_reply input.now) }
{
    let Ok(text) = str::from_utf8(input) else {
        return input_refusal(alloc);
    };
    match assemble(alloc, text) {
        Ok(program) => program_reply(alloc, program.as_slice()),
        Err(Failure::Fault(fault)) => fault_reply(alloc, fault),
        Err(Failure::Memory) => Err(AllocError),
    }
}

fn program_reply(alloc: Global, program: &[u8]) -> Result<Reply, AllocError>
    ensures { IfOk result (λ reply. reply_shown reply ≡ assembly_reply (Ok program.now)) }
{
    let text = digit_line_bytes(alloc, program)?;
    Ok(Reply { text, status: DONE })
}

fn fault_reply(alloc: Global, fault: AsmFault) -> Result<Reply, AllocError>
    ensures { IfOk result (λ reply. reply_shown reply ≡ assembly_reply (Err fault)) }
{
    let line = fault.line;
    let name = fault.kind.name();
    let text = format!(in alloc; "refused asm {line} {name}\n")?;
    Ok(Reply {
        text: text.into_bytes(),
        status: REFUSED,
    })
}
