//! The listing of a program.

ghost use Rattle.std.specs.Prelude.{◌≡◌, ◌∷◌, ◌++◌, [], string_bytes, IfOk, OnOk};
ghost use Rattle.teal_text.specs.PlainWords.{text_of_lines};
ghost use Rattle.teal_dis.specs.Listing.{listing, pragma_line, words_of};
ghost use Rattle.teal_dis.specs.Shown.{label_in};

use crate::labels::{labels_of, push_label, target_label};
use crate::lines::push_line;
use std::alloc::{AllocError, Global};
use teal_check::{PlacedInstr, Program};
use teal_table::Version;

/// The listing of a program: its version, then an instruction a line, and a line for each label.
pub fn list(alloc: Global, program: &Program) -> Result<String, AllocError>
    ensures { IfOk result (λ text. string_bytes text ≡ listing program.now) }
{
    // What is known of the bytes bounds the numbers of instructions and targets.
    let _checked = program.bytes();
    let labels = labels_of(alloc, program)?;
    let mut text = pragma(alloc, program.version())?;
    let mut number = 0u16;
    while let Some(placed) = program.placed(number) {
        push_label(alloc, &mut text, labels[usize::from(number)])?;
        push_instruction(alloc, &mut text, &labels, placed)?;
        number += 1;
    }
    let end = labels[usize::from(number)];
    push_label(alloc, &mut text, end)?;
    Ok(text)
}

fn pragma(alloc: Global, version: Version) -> Result<String, AllocError>
    ensures { IfOk result (λ text. string_bytes text ≡ text_of_lines (pragma_line version ∷ [])) }
{
    match version {
        Version::Two => String::from_str(alloc, "#pragma version 2\n"),
        Version::Three => String::from_str(alloc, "#pragma version 3\n"),
    }
}

// Adds the line of an instruction to a text.
fn push_instruction(
    alloc: Global,
    text: &mut String,
    labels: &[Option<u16>],
    placed: &PlacedInstr,
) -> Result<(), AllocError>
    ensures { OnOk result (string_bytes text.new ≡ string_bytes text.old
        ++ text_of_lines (words_of (label_in labels.now placed.now.target) placed.now.instr ∷ [])) }
{
    let target = target_label(alloc, labels, placed.target)?;
    push_line(alloc, text, &target, &placed.instr)?;
    text.push_str("\n")
}
