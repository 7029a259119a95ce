//! Why a text has no meaning.

ghost use Rattle.std.specs.Prelude.{◌≡◌};
ghost use Rattle.teal_source.specs.FaultNames.{asm_fault_name};

use std::fmt;
use teal_value::Failure;
use thiserror::Error;

/// What is wrong with a line of source text.
#[derive(Clone, Copy, Debug, PartialEq, Eq, Error)]
pub enum AsmFaultKind {
    /// A string or its escapes.
    Text = 1,
    /// The first line with a token doesn't begin with `#pragma`.
    NoPragma,
    /// The pragma names another version than 2 and 3, or is not in the first line with a token.
    Version,
    /// No instruction or field of the version has the name.
    UnknownName,
    /// The instruction takes another number of operands, or another kind of field.
    Operands,
    /// An operand is no number, or is too large for its place.
    BadNumber,
    /// An operand is no byte literal, or no address.
    BadBytes,
    /// An earlier line has the same label.
    LabelTwice,
    /// No line has the label that a branch names.
    LabelMissing,
    /// A branch names a label that stands at or before it.
    LabelBehind,
    /// The constants that are gathered are more than 256 of a kind.
    TooManyConstants,
    /// A constant is gathered beside an explicit block of its kind.
    MixedBlock,
    /// The program has more than 1024 bytes.
    TooLong,
}

impl fmt::Display for AsmFaultKind {
    fn fmt<W: fmt::Write>(&self, f: &mut fmt::Formatter<W>) -> fmt::Result {
        f.write_str(self.name())
    }
}

impl AsmFaultKind {
    /// Its name, as commands print it.
    pub fn name(self) -> &'static str
        ensures { result.now ≡ asm_fault_name self }
    {
        match self {
            AsmFaultKind::Text => "Text",
            AsmFaultKind::NoPragma => "NoPragma",
            AsmFaultKind::Version => "Version",
            AsmFaultKind::UnknownName => "UnknownName",
            AsmFaultKind::Operands => "Operands",
            AsmFaultKind::BadNumber => "BadNumber",
            AsmFaultKind::BadBytes => "BadBytes",
            AsmFaultKind::LabelTwice => "LabelTwice",
            AsmFaultKind::LabelMissing => "LabelMissing",
            AsmFaultKind::LabelBehind => "LabelBehind",
            AsmFaultKind::TooManyConstants => "TooManyConstants",
            AsmFaultKind::MixedBlock => "MixedBlock",
            AsmFaultKind::TooLong => "TooLong",
        }
    }
}

/// The fault of a text, and its line, counted from 1.
#[derive(Clone, Copy, Debug, PartialEq, Eq, Error)]
#[error("{line} {kind}")]
pub struct AsmFault {
    pub line: usize,
    pub kind: AsmFaultKind,
}

/// An [`AsmFault`], or a refused allocation.
pub type AsmError = Failure<AsmFault>;
