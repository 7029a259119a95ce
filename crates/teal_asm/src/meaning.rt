//! What the lines of a text mean: the version that the pragma names, and the instructions.

ghost use Rattle.std.specs.Prelude.{◌≡◌, Ok, length, All, IfOk};
ghost use Rattle.teal_text.specs.Tokens.{LiesWithin};
ghost use Rattle.teal_text.specs.Lines.{view};
ghost use Rattle.teal_source.specs.Statements.{pragma_of};
ghost use Rattle.teal_asm.specs.Reading.{line_total, meaning_behind, unread_meaning};
ghost use Rattle.teal_asm.specs.Instructions.{meaning_in};
ghost use Rattle.teal_asm.specs.Thinned.{GivesProgram};

use crate::emit::Instruction;
use crate::lines::{body_of, first_line, later_fault, pragma_version};
use crate::resolve::instructions_of;
use std::alloc::Global;
use teal_source::{AsmError, AsmFault, AsmFaultKind};
use teal_table::Version;
use teal_text::{Line, Lines};
use teal_value::Failure;

/// What a text means, or as much of it as makes its program too long.
#[derive(Debug, Drop)]
pub(crate) struct Meaning {
    pub version: Version,
    pub instructions: Vec<Instruction>,
}

/// The meaning of the lines of a text.
pub(crate) fn meaning_of(alloc: Global, lines: &mut Lines<'_>) -> Result<Meaning, AsmError>
    ensures meaning { GivesProgram meaning_in result (unread_meaning lines.old) }
    ensures read { IfOk result (λ m. line_total lines.old ≡ Ok lines.new.read) }
{
    match first_line(alloc, lines)? {
        Some(line) => meaning_from(alloc, lines, line),
        None => Err(Failure::Fault(AsmFault {
            line: 1,
            kind: AsmFaultKind::NoPragma,
        })),
    }
}

// The meaning of a text whose pragma is in a line, with lines behind it.
fn meaning_from(alloc: Global, lines: &mut Lines<'_>, first: Line) -> Result<Meaning, AsmError>
    requires { All (LiesWithin 0 (length lines.old.text)) first.tokens.items }
    ensures meaning { GivesProgram meaning_in result
        (meaning_behind (pragma_of lines.old.text (view first)) lines.old) }
    ensures read { IfOk result (λ m. line_total lines.old ≡ Ok lines.new.read) }
{
    let version = match pragma_version(alloc, lines.text(), &first) {
        Ok(version) => version,
        Err(error) => return Err(later_fault(lines, first.tokens, error)),
    };
    let body = body_of(alloc, version, lines, first.tokens)?;
    let instructions = instructions_of(alloc, body)?;
    Ok(Meaning {
        version,
        instructions,
    })
}
