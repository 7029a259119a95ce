//! The labels of a program: the targets of its branches, numbered by rising place.

ghost use Rattle.std.specs.Prelude.{◌≡◌, ◌≤◌, ◌++◌, length, string_bytes, IfOk, OnOk};
ghost use Rattle.teal_code.specs.Limits.{most_program_bytes};
ghost use Rattle.teal_text.specs.PlainWords.{text_of_lines};
ghost use Rattle.teal_dis.specs.Shown.{AreLabels, AreMarks, label, label_in, lines_of_label};

use std::alloc::{AllocError, Global};
use teal_check::Program;

/// The number of each instruction's label, and of the end's, where a branch leads there.
pub(crate) fn labels_of(alloc: Global, program: &Program) -> Result<Vec<Option<u16>>, AllocError>
    requires { length program.now.placed ≤ most_program_bytes }
    ensures { IfOk result (λ labels. AreLabels program.now.placed labels.items) }
{
    let marks = marks_of(alloc, program)?;
    let mut labels = Vec::new(alloc);
    let mut last = 0u16;
    for mark in &marks {
        let label = if *mark {
            last += 1;
            Some(last)
        } else {
            None
        };
        labels.push(label)?;
    }
    Ok(labels)
}

/// Whether a branch leads to each instruction, and to the end.
pub(crate) fn marks_of(alloc: Global, program: &Program) -> Result<Vec<bool>, AllocError>
    requires { length program.now.placed ≤ most_program_bytes }
    ensures { IfOk result (λ marks. AreMarks program.now.placed marks.items) }
{
    let mut marks = vec![in alloc; false; program.count() + 1]?;
    let mut number = 0u16;
    while let Some(placed) = program.placed(number) {
        if let Some(target) = placed.target {
            let target = usize::from(target);
            if target < marks.len() {
                marks[target] = true;
            }
        }
        number += 1;
    }
    Ok(marks)
}

/// The label of a branch's target.
pub(crate) fn target_label(
    alloc: Global,
    labels: &[Option<u16>],
    target: Option<u16>,
) -> Result<String, AllocError>
    ensures { IfOk result (λ word. string_bytes word ≡ label_in labels.now target) }
{
    match target {
        Some(target) => match labels.get(usize::from(target)) {
            Some(label) => label_word(alloc, *label),
            None => Ok(String::new(alloc)),
        },
        None => Ok(String::new(alloc)),
    }
}

fn label_word(alloc: Global, number: Option<u16>) -> Result<String, AllocError>
    ensures { IfOk result (λ word. string_bytes word ≡ label number) }
{
    match number {
        Some(k) => format!(in alloc; "label{k}"),
        None => Ok(String::new(alloc)),
    }
}

/// Adds the line of the label with a number to a text, if there is one.
pub(crate) fn push_label(
    alloc: Global,
    text: &mut String,
    number: Option<u16>,
) -> Result<(), AllocError>
    ensures { OnOk result
        (string_bytes text.new ≡ string_bytes text.old ++ text_of_lines (lines_of_label number)) }
{
    if let Some(k) = number {
        let line = format!(in alloc; "label{k}:\n")?;
        text.push_str(&line)?;
    }
    Ok(())
}
