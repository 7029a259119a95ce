//! Tokens.

/// A word or a string, from byte `start` up to byte `end` of the text. A string has its quotation marks.
#[derive(Clone, Copy, Debug, PartialEq, Eq)]
pub struct Token {
    pub start: usize,
    pub end: usize,
    pub string: bool,
}
