//! Programs, as bytes and as source text.

ghost use Rattle.std.specs.Prelude.{◌≡◌, Ok};
ghost use Rattle.std.specs.Option.{option_copied};
ghost use Rattle.teal_value.specs.Answer.{Gives};
ghost use Rattle.json_documents.specs.Programs.{checked_code, on_source, program_of_source};
ghost use Rattle.teal_asm.specs.Program.{assembled};

use crate::document_fault::DocumentFault;
use crate::fault::{Fault, FieldError};
use crate::members::Form;
use crate::plain::Bytes;
use json::Value;
use std::alloc::Global;
use teal_asm::assemble;
use teal_check::check;
use teal_value::ByteString;

/// The bytes of a program that keeps the rules of programs.
#[derive(Clone, Copy)]
pub(crate) struct ProgramForm;

impl Form for ProgramForm {
    type Read = ByteString;

    ghost use Rattle.json_documents.specs.Programs.{program};

    ghost meaning = { λ _. program };

    fn read(&self, alloc: Global, value: &Value<'_>) -> Result<ByteString, FieldError> {
        let code = Bytes.read(alloc, value)?;
        checked_code(alloc, code)
    }
}

/// The bytes, where they keep the rules of programs.
fn checked_code(alloc: Global, code: ByteString) -> Result<ByteString, FieldError>
    ensures { Gives (λ c. c) result (checked_code code) }
{
    match check(alloc, code.as_slice()) {
        Ok(_program) => Ok(code),
        Err(failure) => Err(failure.map(|fault| Fault::of(alloc, DocumentFault::Program(fault)))),
    }
}

/// The program that a source text means.
pub(crate) fn program_of_source(alloc: Global, text: &str) -> Result<ByteString, FieldError>
    ensures { Gives (λ c. c) result (program_of_source text.now) }
{
    let code = code_of_source(alloc, text)?;
    checked_code(alloc, code)
}

fn code_of_source(alloc: Global, text: &str) -> Result<ByteString, FieldError>
    ensures { Gives (λ c. c) result (on_source (assembled text.now)) }
{
    match assemble(alloc, text) {
        Ok(code) => Ok(ByteString::from_vec(code)),
        Err(failure) => Err(failure.map(|fault| Fault::of(alloc, DocumentFault::Source(fault)))),
    }
}
