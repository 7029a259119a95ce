//! The lines of a text, one behind another.

ghost use Rattle.std.specs.Prelude.{◌≡◌, ◌∷◌, [], Ok, length, map, All, OnOk, IfOk};
ghost use Rattle.teal_value.specs.Answer.{Gives};
ghost use Rattle.teal_text.specs.Tokens.{LiesWithin};
ghost use Rattle.teal_text.specs.Lines.{view};
ghost use Rattle.teal_source.specs.Statements.{failure_on_line, pragma_in, pragma_of, statements, word_at, words_of_line, words_on};
ghost use Rattle.teal_asm.specs.Bodies.{IsBody};
ghost use Rattle.teal_asm.specs.LineWords.{line_words};
ghost use Rattle.teal_asm.specs.Reading.{AddsOrStops, FindsFirst, IsLater, IsNext, all_tokens, line_total, unread_statements};
ghost use Rattle.teal_asm.specs.Thinned.{GivesThinned, LeavesThinned};
ghost use Rattle.teal_source.specs.Shown.{words};

use crate::body::Body;
use crate::line::{LineWords, add_line};
use std::alloc::{AllocError, Global};
use teal_source::{AsmError, AsmFault, AsmFaultKind, LineError, is_pragma, named_version};
use teal_table::Version;
use teal_text::{Line, Lines, Token};
use teal_value::Failure;

/// The statements of the lines that are left. Their tokens take the memory of `spare`.
pub(crate) fn body_of(
    alloc: Global,
    version: Version,
    lines: &mut Lines<'_>,
    spare: Vec<Token>,
) -> Result<Body, AsmError>
    ensures statements { GivesThinned (λ body. body.statements.items) result
        (unread_statements version [] lines.old) }
    ensures kept { IfOk result IsBody }
    ensures read { IfOk result (λ body. line_total lines.old ≡ Ok lines.new.read) }
{
    let mut body = Body::new(alloc);
    let mut spare = spare;
    while let Some(line) = next_line(lines, spare)? {
        spare = add_statements(alloc, version, lines, line, &mut body)?;
    }
    Ok(body)
}

/// Adds the statements of a line, and gives the memory of its tokens for the next line's.
fn add_statements(
    alloc: Global,
    version: Version,
    lines: &mut Lines<'_>,
    line: Line,
    body: &mut Body,
) -> Result<Vec<Token>, AsmError>
    requires tokens { All (LiesWithin 0 (length lines.old.text)) line.tokens.items }
    requires body { IsBody body.old }
    ensures adds { AddsOrStops result body.new.statements.items
        (statements version body.old.statements.items (words_of_line lines.old.text (view line)))
        lines.old.lines }
    ensures kept { OnOk result (IsBody body.new) }
    ensures stays { OnOk result (lines.new ≡ lines.old) }
{
    match add_tokens(alloc, version, lines.text(), &line, body) {
        Ok(()) => Ok(line.tokens),
        Err(error) => Err(later_fault(lines, line.tokens, error)),
    }
}

/// The first line with a token, if there is one.
pub(crate) fn first_line(alloc: Global, lines: &mut Lines<'_>) -> Result<Option<Line>, AsmError>
    ensures { FindsFirst result lines.old lines.new }
{
    let mut spare = Vec::new(alloc);
    while let Some(line) = next_line(lines, spare)? {
        if !line.tokens.is_empty() {
            return Ok(Some(line));
        }
        spare = line.tokens;
    }
    Ok(None)
}

/// A failure behind the round of the tokens, unless a line that is left has a fault in that round.
pub(crate) fn later_fault(lines: &mut Lines<'_>, spare: Vec<Token>, error: AsmError) -> AsmError
    ensures { IsLater error result lines.old.lines }
{
    match error {
        Failure::Memory => Failure::Memory,
        Failure::Fault(fault) => match read_all(lines, spare) {
            Ok(()) => Failure::Fault(fault),
            Err(error) => error,
        },
    }
}

// Reads the lines that are left.
fn read_all(lines: &mut Lines<'_>, spare: Vec<Token>) -> Result<(), AsmError>
    ensures { Gives (λ x. x) result (all_tokens lines.old.lines) }
{
    let mut spare = spare;
    while let Some(line) = next_line(lines, spare)? {
        spare = line.tokens;
    }
    Ok(())
}

fn next_line(lines: &mut Lines<'_>, spare: Vec<Token>) -> Result<Option<Line>, AsmError>
    ensures { IsNext result lines.old lines.new }
{
    lines.next_line(spare).map_err(|failure| {
        failure.map(|fault| AsmFault {
            line: fault.line,
            kind: AsmFaultKind::Text,
        })
    })
}

// Adds the statement of a line, if it has a token.
fn add_tokens(
    alloc: Global,
    version: Version,
    text: &[u8],
    line: &Line,
    body: &mut Body,
) -> Result<(), AsmError>
    requires tokens { All (LiesWithin 0 (length text.now)) line.now.tokens.items }
    requires body { IsBody body.old }
    ensures leaves { LeavesThinned result body.new.statements.items
        (statements version body.old.statements.items (words_of_line text.now (view line.now))) }
    ensures kept { OnOk result (IsBody body.new) }
{
    let words = words_of(alloc, text, &line.tokens)?;
    add_words(alloc, version, line.number, &words, body)
}

#[tactic(auto, unfolding(teal_source::specs::Statements::statements))]
fn add_words(
    alloc: Global,
    version: Version,
    line: usize,
    line_words: &[&[u8]],
    body: &mut Body,
) -> Result<(), AsmError>
    requires { IsBody body.old }
    ensures leaves { LeavesThinned result body.new.statements.items
        (statements version body.old.statements.items (words_on line (words line_words.now))) }
    ensures kept { OnOk result (IsBody body.new) }
{
    match line_words {
        [] => Ok(()),
        [first, more @ ..] => add_on_line(alloc, version, &LineWords { line, first, more }, body),
    }
}

fn add_on_line(
    alloc: Global,
    version: Version,
    line: &LineWords<'_>,
    body: &mut Body,
) -> Result<(), AsmError>
    requires { IsBody body.old }
    ensures leaves { LeavesThinned result body.new.statements.items
        (statements version body.old.statements.items (line_words line.now ∷ [])) }
    ensures kept { OnOk result (IsBody body.new) }
{
    match add_line(alloc, version, line, body) {
        Ok(()) => Ok(()),
        Err(error) => Err(on_line(line.line, error)),
    }
}

/// The version that the pragma names in a line with a token.
pub(crate) fn pragma_version(alloc: Global, text: &[u8], line: &Line) -> Result<Version, AsmError>
    requires { All (LiesWithin 0 (length text.now)) line.now.tokens.items }
    ensures { Gives (λ version. version) result (pragma_of text.now (view line.now)) }
{
    let words = words_of(alloc, text, &line.tokens)?;
    version_named_by(line.number, &words)
}

fn version_named_by(line: usize, line_words: &[&[u8]]) -> Result<Version, AsmError>
    ensures { Gives (λ version. version) result
        (pragma_in line (words_on line (words line_words.now))) }
{
    match line_words {
        [first, more @ ..] if is_pragma(first) => match named_version(more) {
            Ok(version) => Ok(version),
            Err(error) => Err(on_line(line, error)),
        },
        _ => Err(Failure::Fault(AsmFault {
            line,
            kind: AsmFaultKind::NoPragma,
        })),
    }
}

fn on_line(line: usize, error: LineError) -> AsmError
    ensures { result ≡ failure_on_line line error }
{
    match error {
        Failure::Memory => Failure::Memory,
        Failure::Fault(kind) => Failure::Fault(AsmFault { line, kind }),
    }
}

// The words of tokens.
fn words_of<'a>(
    alloc: Global,
    text: &'a [u8],
    tokens: &[Token],
) -> Result<Vec<&'a [u8]>, AllocError>
    requires { All (LiesWithin 0 (length text.now)) tokens.now }
    ensures { IfOk result (λ v. words v.items ≡ map (word_at text.now) tokens.now) }
{
    let mut words = Vec::new(alloc);
    for token in tokens {
        words.push(&text[token.start..token.end])?;
    }
    Ok(words)
}
