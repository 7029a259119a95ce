//! The lines of a text, read one by one.

ghost use Rattle.std.specs.Prelude.{◌≡◌, OnErr};

use crate::fault::TextError;
use crate::line::{Line, first_line, tokens_of};
use crate::token::Token;
use std::marker::Model;

/// The lines of a text that are still to be read, those without a token too.
///
/// A line feed ends a line, and a carriage return directly before it is no part of the line.
#[derive(Drop)]
pub struct Lines<'a> {
    text: &'a [u8],
    /// What follows the lines that were read.
    rest: &'a [u8],
    /// How many lines were read.
    read: usize,
}

impl<'a> Model for Lines<'a> {
    ghost use Rattle.std.specs.Prelude.{◌+◌, ◌≤◌, length};
    ghost use Rattle.teal_text.specs.Unread.{Unread, unread_behind};

    ghost Value = { Unread };

    ghost view = { λ s. unread_behind s.read s.text.now s.rest.now };

    ghost invariant = { λ s. s.read + length s.rest.now ≤ length s.text.now };
}

impl<'a> Lines<'a> {
    ghost use Rattle.teal_text.specs.Unread.{all_lines, IsRead};

    /// All lines of a text.
    pub fn of(text: &'a str) -> Lines<'a>
        ensures { result ≡ all_lines text.now }
    {
        let text = text.as_bytes();
        Lines {
            text,
            rest: text,
            read: 0,
        }
    }

    /// The text, with the lines that were read.
    pub fn text(&self) -> &'a [u8]
        ensures { result.now ≡ self.now.text }
    {
        self.text
    }

    /// How many lines were read.
    pub fn read(&self) -> usize
        ensures { result ≡ self.now.read }
    {
        self.read
    }

    /// The next line, if there is one, or the fault of its tokens, after which it is still the next. They take the memory
    /// of `spare`.
    pub fn next_line(&mut self, spare: Vec<Token>) -> Result<Option<Line>, TextError>
        ensures read { IsRead result self.old self.new }
        ensures unchanged { OnErr result (self.new ≡ self.old) }
    {
        if self.rest.is_empty() {
            return Ok(None);
        }
        let number = self.read + 1;
        let place = self.text.len() - self.rest.len();
        let (line, next) = first_line(self.rest);
        let tokens = tokens_of(number, place, line, spare)?;
        self.rest = next;
        self.read = number;
        Ok(Some(Line { number, tokens }))
    }
}
