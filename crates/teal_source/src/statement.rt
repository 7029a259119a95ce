//! Statements: what the lines of a text say.

use crate::command::Command;
use teal_value::ByteString;

/// What a line says: a label, a command, or both.
#[derive(Debug, Drop)]
pub struct Statement {
    /// The line, counted from 1.
    pub line: usize,
    pub label: Option<ByteString>,
    pub command: Option<Command>,
}
