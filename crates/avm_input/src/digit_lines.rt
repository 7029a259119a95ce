//! Inputs of lines of hexadecimal digits.

ghost use Rattle.std.specs.Prelude.{◌≡◌, ◌∷◌, ◌<◌, IfOk, length, Ok};
ghost use Rattle.std.specs.List.{list_all};
ghost use Rattle.std.specs.Option.{option_map};
ghost use Rattle.std.specs.Str.Lines.{lines};
ghost use Rattle.teal_value.specs.Answer.{Gives};
ghost use Rattle.teal_text.specs.Tokens.{is_blank};
ghost use Rattle.avm_input.specs.DigitLines.{line_bytes, digit_lines, first_bytes, with_no_line};
ghost use Rattle.avm_input.specs.Lines.{IsTaken, lines_shown};

use crate::digits::decode_digits;
use crate::refusals::Refusal;
use std::alloc::{AllocError, Global};
use std::marker::Model;
use teal_text::first_line;
use teal_value::Failure;

/// A line with digits, and its number among all lines, from 1.
pub type NumberedLine<'a> = (usize, &'a [u8]);

/// The lines of an input that are still to be read. Blank lines are skipped, but counted.
///
/// A line ends with a line feed, and a carriage return directly before it is no part of the line.
#[derive(Drop)]
pub struct DigitLines<'a> {
    rest: &'a [u8],
    /// How many lines were read.
    before: usize,
}

impl<'a> Model for DigitLines<'a> {
    ghost use Rattle.std.specs.Prelude.{◌+◌, ◌<◌, ◌^◌, List, length};
    ghost use Rattle.std.specs.Str.Lines.{lines};
    ghost use Rattle.avm_input.specs.DigitLines.{DigitLine, lines_after};

    ghost Value = { List DigitLine };

    ghost view = { λ s. lines_after s.before (lines s.rest.now) };

    ghost invariant = { λ s. s.before + length s.rest.now < 2 ^ 64 };
}

impl<'a> DigitLines<'a> {
    /// All lines of an input.
    pub fn new(input: &'a [u8]) -> DigitLines<'a>
        ensures { result ≡ digit_lines input.now }
    {
        DigitLines {
            rest: input,
            before: 0,
        }
    }

    /// The bytes of the next line, if there is one.
    pub fn next_bytes(&mut self, alloc: Global) -> Result<Option<Vec<u8>>, Failure<Refusal>>
        ensures { Gives (λ bytes. (option_map (λ v. v.items) bytes, self.new)) result
            (first_bytes self.old) }
    {
        match self.next_line() {
            Some((number, digits)) => {
                let bytes = line_bytes(alloc, number, digits)?;
                Ok(Some(bytes))
            }
            None => Ok(None),
        }
    }

    /// All lines that are left, as they stand: what is on them is not looked at.
    pub fn into_lines(mut self, alloc: Global) -> Result<Vec<NumberedLine<'a>>, AllocError>
        ensures { IfOk result (λ lines. lines_shown lines.items ≡ self.entry) }
    {
        let mut lines = Vec::new(alloc);
        while let Some(line) = self.next_line() {
            lines.push(line)?;
        }
        Ok(lines)
    }

    /// Refuses what is left, if there is a line.
    pub fn end(mut self) -> Result<(), Failure<Refusal>>
        ensures { Gives (λ x. x) result (with_no_line self.entry tt) }
    {
        match self.next_line() {
            Some(_) => Err(Failure::Fault(Refusal::Lines)),
            None => Ok(()),
        }
    }

    // The next line, with its number.
    fn next_line(&mut self) -> Option<NumberedLine<'a>>
        ensures { IsTaken result self.old self.new }
    {
        while !self.rest.is_empty() {
            let (text, rest) = first_line(self.rest);
            self.rest = rest;
            self.before += 1;
            if !are_blank(text) {
                return Some((self.before, text));
            }
        }
        None
    }
}

fn are_blank(text: &[u8]) -> bool
    ensures { result ≡ list_all is_blank text.now }
{
    for byte in text {
        if !is_blank(*byte) {
            return false;
        }
    }
    true
}

fn is_blank(byte: u8) -> bool
    ensures { result ≡ is_blank byte }
{
    byte == b' ' || byte == b'\t'
}

/// The bytes of a line's digits, which may be of either case.
#[tactic(auto, using(crate::proofs::LineReading::line_read, crate::proofs::LineReading::line_refused))]
pub fn line_bytes(alloc: Global, number: usize, digits: &[u8]) -> Result<Vec<u8>, Failure<Refusal>>
    ensures { Gives (λ bytes. bytes.items) result
        (line_bytes (record { number = number; digits = digits.now })) }
{
    match decode_digits(alloc, digits)? {
        Some(bytes) => Ok(bytes),
        None => Err(Failure::Fault(Refusal::Hex(number))),
    }
}
