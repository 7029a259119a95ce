//! Lines and their tokens.

ghost use Rattle.std.specs.Prelude.{◌≡◌, ◌+◌, ◌<◌, ◌^◌, ◌≤◌, ℕ, List, Ok, length, drop, map, All, IfOk, IsTrue};
ghost use Rattle.std.specs.Str.Lines.{strip_carriage_return};
ghost use Rattle.teal_value.specs.Answer.{Gives};
ghost use Rattle.teal_text.specs.Tokens.{tokens_of, LiesWithin};
ghost use Rattle.std.specs.List.{list_all};
ghost use Rattle.teal_text.specs.PlainWords.{is_plain_line, text_of_lines, lines_of_words, words_at};
ghost use Rattle.teal_text.specs.TokenOrder.{LieInOrder};
ghost use Rattle.teal_text.specs.declared.token.Token.{Token};
ghost use Rattle.teal_text.specs.Lines.{lines_of, on_line, line_len, line_text};

use crate::fault::{TextError, TextFault};
use crate::scan::{announces_base64, blank_len, first_token};
use crate::token::Token;
use memchr::memchr;
use teal_value::Failure;

/// How many bytes of a line are looked at one by one: most lines have no more.
const SHORT: usize = 32;

/// A line, with its number from 1 and its tokens from left to right.
#[derive(Debug, Drop)]
pub struct Line {
    pub number: usize,
    pub tokens: Vec<Token>,
}

/// The law of a line's tokens: they lie in order in their line, only blanks stand between them, and only blanks and a
/// comment stand behind the last.
pub fn tokens_lie_in_order()
    ensures { (place : ℕ) (line : List ℕ) (tokens : List Token)
        → tokens_of place line ≡ Ok tokens → LieInOrder place line tokens }
{}

/// The law of texts of plain words, as listings are: the lines of such a text are its lines, and their tokens its words.
pub fn plain_words_read_back()
    ensures lines { (lines : List (List (List ℕ))) → IsTrue (list_all is_plain_line lines)
        → lines_of (text_of_lines lines) ≡ Ok (lines_of_words 1 0 lines) }
    ensures words { (lines : List (List (List ℕ)))
        → map (words_at (text_of_lines lines)) (lines_of_words 1 0 lines) ≡ lines }
{}

/// The first line, without the carriage return directly before its line feed, and what follows that.
#[tactic(auto, unfolding(crate::specs::Lines::line_text))]
pub fn first_line(bytes: &[u8]) -> (&[u8], &[u8])
    ensures line { result.0.now ≡ line_text bytes.now }
    ensures shorter { length result.0.now ≤ length bytes.now }
    ensures next { result.1.now ≡ drop (line_len bytes.now + 1) bytes.now }
{
    let len = line_len(bytes);
    if len == bytes.len() {
        (bytes, &[])
    } else {
        let (line, after) = bytes.split_at(len);
        (without_carriage_return(line), &after[1..])
    }
}

fn line_len(bytes: &[u8]) -> usize
    ensures value { result ≡ line_len bytes.now }
    ensures within { result ≤ length bytes.now }
{
    let (front, behind) = bytes.split_at(bytes.len().min(SHORT));
    let len = short_line_len(front);
    if len < front.len() {
        len
    } else {
        front.len() + long_line_len(behind)
    }
}

fn short_line_len(bytes: &[u8]) -> usize
    ensures value { result ≡ line_len bytes.now }
    ensures within { result ≤ length bytes.now }
{
    for (i, byte) in bytes.iter().enumerate() {
        if *byte == b'\n' {
            return i;
        }
    }
    bytes.len()
}

fn long_line_len(bytes: &[u8]) -> usize
    ensures value { result ≡ line_len bytes.now }
    ensures within { result ≤ length bytes.now }
{
    match memchr(b'\n', bytes) {
        Some(place) => place,
        None => bytes.len(),
    }
}

fn without_carriage_return(line: &[u8]) -> &[u8]
    ensures { result.now ≡ strip_carriage_return line.now }
{
    match line {
        [front @ .., b'\r'] => front,
        _ => line,
    }
}

/// The tokens of the line of this number, which begins at a place of the text. They take the memory of `spare`.
pub(crate) fn tokens_of(
    number: usize,
    place: usize,
    line: &[u8],
    spare: Vec<Token>,
) -> Result<Vec<Token>, TextError>
    requires { place + length line.now < 2 ^ 64 }
    ensures value { Gives (λ v. v.items) result (on_line number (tokens_of place line.now)) }
    ensures within { IfOk result (λ v. All (LiesWithin place (place + length line.now)) v.items) }
{
    let mut tokens = spare;
    tokens.clear();
    let mut rest = line;
    let mut start = place;
    let mut base64 = false;
    loop {
        let gap = blank_len(rest);
        let (_, here) = rest.split_at(gap);
        start += gap;
        let token = match first_token(here, base64) {
            Ok(Some(token)) => token,
            Ok(None) => return Ok(tokens),
            Err(kind) => return Err(Failure::Fault(TextFault { line: number, kind })),
        };
        let (text, after) = here.split_at(token.len);
        let end = start + token.len;
        tokens.push(Token {
            start,
            end,
            string: token.string,
        })?;
        base64 = announces_base64(text, after);
        rest = after;
        start = end;
    }
}
