//! The assembler's one call.

ghost use Rattle.teal_value.specs.Answer.{Gives};
ghost use Rattle.teal_asm.specs.Program.{assembled};

use crate::emit::short_program;
use crate::meaning::meaning_of;
use std::alloc::Global;
use teal_source::AsmError;
use teal_text::Lines;

/// The bytes of the program that a source text means.
///
/// The answer is the text's alone: the version of its pragma, in the first line with a token; integers and byte strings
/// gathered once each into blocks in front, in the order in which they are first used; branches as distances forward;
/// every varuint as short as it can be (TEAL specification, "Assembler syntax").
///
/// # Errors
///
/// The first fault of the first of three rounds that has one: tokens of the whole text; then line by line; then the
/// branches, line by line, and at last the program's length, at the last line.
pub fn assemble(alloc: Global, text: &str) -> Result<Vec<u8>, AsmError>
    ensures { Gives (λ code. code.items) result (assembled text.now) }
{
    let mut lines = Lines::of(text);
    let meaning = meaning_of(alloc, &mut lines)?;
    short_program(alloc, lines.read(), meaning.version, &meaning.instructions)
}
