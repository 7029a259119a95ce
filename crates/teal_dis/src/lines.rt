//! One instruction's line.

ghost use Rattle.std.specs.Prelude.{◌≡◌, ◌∷◌, ◌++◌, [], string_bytes, IfOk, OnOk};
ghost use Rattle.teal_text.specs.PlainWords.{spaced, line_of_words};
ghost use Rattle.teal_dis.specs.Listing.{line_of, offset_of, words_of};
ghost use Rattle.teal_dis.specs.Shown.{texts};

use crate::operands::operands;
use std::alloc::{AllocError, Global};
use teal_code::{Immediates, Instr};

/// The line of the instruction at a place of a checked program, without a line feed. It names a branch's target by its
/// place.
pub fn line(alloc: Global, place: u16, instr: &Instr) -> Result<String, AllocError>
    ensures { IfOk result (λ text. string_bytes text ≡ line_of place instr.now) }
{
    let target = u32::from(place) + 3 + u32::from(offset_of(&instr.immediates));
    let target = format!(in alloc; "{target}")?;
    let mut text = String::new(alloc);
    push_line(alloc, &mut text, &target, instr)?;
    Ok(text)
}

// A branch is three bytes long, and its offset counts from its end.
fn offset_of(immediates: &Immediates) -> u16
    ensures { result ≡ offset_of immediates.now }
{
    match immediates {
        Immediates::Offset(offset) => *offset,
        _ => 0,
    }
}

/// Adds an instruction's line to a text, without a line feed; the target of a branch is given.
pub(crate) fn push_line(
    alloc: Global,
    text: &mut String,
    target: &str,
    instr: &Instr,
) -> Result<(), AllocError>
    ensures { OnOk result (string_bytes text.new
        ≡ string_bytes text.old ++ line_of_words (words_of target.now instr.now)) }
{
    let row = instr.opcode.row();
    let words = operands(alloc, row.immediates, target, &instr.immediates)?;
    text.push_str(row.name)?;
    push_spaced(text, &words)
}

// Adds each word behind a space.
fn push_spaced(text: &mut String, words: &[String]) -> Result<(), AllocError>
    ensures { OnOk result
        (string_bytes text.new ≡ string_bytes text.old ++ spaced (texts words.now)) }
{
    for word in words {
        text.push_str(" ")?;
        text.push_str(word)?;
    }
    Ok(())
}
