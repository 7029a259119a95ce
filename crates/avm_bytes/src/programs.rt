//! What is answered of programs and of source text.

ghost use Rattle.std.specs.Prelude.{◌≡◌, IfOk};
ghost use Rattle.teal_check.specs.WellFormed.{checked};
ghost use Rattle.teal_asm.specs.Program.{assembled};
ghost use Rattle.avm_bytes.specs.Programs.{assembled_answer, assembly_answer, check_status, listed_answer};
ghost use Rattle.avm_bytes.specs.Shown.{answer_shown};

use crate::answers::{Answer, done, refusal};
use crate::statuses::Status;
use std::alloc::{AllocError, Global};
use std::str;
use teal_asm::assemble;
use teal_check::check;
use teal_dis::list;
use teal_value::Failure;

/// Whether the bytes are a program.
pub fn check_status(alloc: Global, program: &[u8]) -> Result<Status, AllocError>
    ensures { IfOk result (λ status. status ≡ check_status (checked program.now)) }
{
    match check(alloc, program) {
        Ok(_program) => Ok(Status::Done),
        Err(Failure::Fault(_fault)) => Ok(Status::NoProgram),
        Err(Failure::Memory) => Err(AllocError),
    }
}

/// The program that source text assembles to, as bytes.
pub fn assembled_answer(alloc: Global, text: &[u8]) -> Result<Answer, AllocError>
    ensures { IfOk result (λ answer. answer_shown answer ≡ assembled_answer text.now) }
{
    match str::from_utf8(text) {
        Ok(text) => assembly_answer(alloc, text),
        Err(_) => Ok(refusal(alloc, Status::NoText)),
    }
}

fn assembly_answer(alloc: Global, text: &str) -> Result<Answer, AllocError>
    ensures { IfOk result (λ answer. answer_shown answer ≡ assembly_answer (assembled text.now)) }
{
    match assemble(alloc, text) {
        Ok(program) => Ok(done(program)),
        Err(Failure::Fault(_fault)) => Ok(refusal(alloc, Status::NotAssembled)),
        Err(Failure::Memory) => Err(AllocError),
    }
}

/// The listing of a program.
pub fn listed_answer(alloc: Global, program: &[u8]) -> Result<Answer, AllocError>
    ensures { IfOk result (λ answer. answer_shown answer ≡ listed_answer program.now) }
{
    match check(alloc, program) {
        Ok(program) => {
            let text = list(alloc, &program)?;
            Ok(done(text.into_bytes()))
        }
        Err(Failure::Fault(_fault)) => Ok(refusal(alloc, Status::NoProgram)),
        Err(Failure::Memory) => Err(AllocError),
    }
}
