//! Where the instructions of a program stand in its listing.

ghost use Rattle.std.specs.Prelude.{IfOk};
ghost use Rattle.teal_dis.specs.Shown.{AreLineNumbers};

use crate::labels::marks_of;
use std::alloc::{AllocError, Global};
use teal_check::Program;

/// The number of each instruction's line in the listing of a program, counted from 0, and behind them how many lines the
/// listing has.
pub fn line_numbers(alloc: Global, program: &Program) -> Result<Vec<u16>, AllocError>
    ensures { IfOk result (λ numbers. AreLineNumbers program.now.placed numbers.items) }
{
    // What is known of the bytes bounds the numbers of instructions and targets.
    let _checked = program.bytes();
    let marks = marks_of(alloc, program)?;
    let mut numbers = Vec::new(alloc);
    // The version stands on the first line.
    let mut lines = 1u16;
    for mark in &marks {
        if *mark {
            lines += 1;
        }
        numbers.push(lines)?;
        lines += 1;
    }
    Ok(numbers)
}
