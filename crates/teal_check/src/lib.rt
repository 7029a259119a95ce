//! The program checker: bytes that keep the rules of programs become a [`Program`], which keeps that they do (AVM
//! specification, program checks). `specs/WellFormed.antt` says which bytes are programs, and the first fault of others.
#![tactic(auto)]

mod branches;
mod fault;
mod instructions;
mod program;
mod rules;

pub use fault::{CheckError, CheckFault};
pub use program::{PlacedInstr, Program};
pub use rules::check;
