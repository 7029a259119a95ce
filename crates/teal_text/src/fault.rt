//! What is wrong with a source text.

ghost use Rattle.std.specs.Prelude.{◌≡◌};
ghost use Rattle.teal_text.specs.FaultNames.{text_fault_name};

use teal_value::Failure;
use thiserror::Error;

/// What is wrong with a line.
#[derive(Clone, Copy, Debug, PartialEq, Eq, Error)]
#[error("{name}", name = self.name())]
pub enum TextFaultKind {
    /// The line ends inside a string.
    Unclosed = 1,
    /// A `\` in a string stands before something that it does not escape.
    BadEscape,
    /// Something other than a blank or a comment stands directly behind a string.
    Glued,
}

impl TextFaultKind {
    /// Its name.
    pub fn name(self) -> &'static str
        ensures { result.now ≡ text_fault_name self }
    {
        match self {
            TextFaultKind::Unclosed => "Unclosed",
            TextFaultKind::BadEscape => "BadEscape",
            TextFaultKind::Glued => "Glued",
        }
    }
}

/// The first fault of a text.
#[derive(Clone, Copy, Debug, PartialEq, Eq, Error)]
#[error("{line} {kind}")]
pub struct TextFault {
    /// The number of its line, from 1.
    pub line: usize,
    pub kind: TextFaultKind,
}

/// A fault of a text, or an allocation that was refused.
pub type TextError = Failure<TextFault>;
