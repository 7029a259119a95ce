//! The lines of a whole text.

ghost use Rattle.teal_value.specs.Answer.{Gives};
ghost use Rattle.teal_text.specs.Lines.{lines_of, views};

use crate::fault::TextError;
use crate::line::Line;
use crate::unread::Lines;
use std::alloc::Global;

/// The lines of a text, those without a token too, each with its tokens from left to right.
///
/// # Errors
///
/// The fault of the first line that has one.
pub fn lines(alloc: Global, text: &str) -> Result<Vec<Line>, TextError>
    ensures { Gives (λ lines. views lines.items) result (lines_of text.now) }
{
    let mut unread = Lines::of(text);
    let mut lines = Vec::new(alloc);
    while let Some(line) = unread.next_line(Vec::new(alloc))? {
        lines.push(line)?;
    }
    Ok(lines)
}
