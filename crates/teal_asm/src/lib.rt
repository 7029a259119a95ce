//! The assembler: source text becomes the bytes of a program, or its first fault (TEAL specification, "Assembler syntax").
//!
//! `specs/Meaning.antt` is the meaning of a whole text: its instructions, or the first fault of the first of three rounds
//! that has one; `specs/Program.antt` encodes the instructions. What one line says stands in `teal_source`.
#![tactic(auto)]

mod assembler;
mod body;
mod emit;
mod gathered;
mod line;
mod lines;
mod meaning;
mod resolve;

pub use assembler::assemble;
pub use teal_source::{AsmError, AsmFault, AsmFaultKind, Command};
