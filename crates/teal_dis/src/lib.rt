//! The disassembler: the listing of a program (TEAL specification, "Assembler syntax"), and one instruction's line.
//!
//! `specs/Listing.antt` is the listing as lines of words.
#![tactic(auto)]

mod labels;
mod lines;
mod listing;
mod numbering;
mod operands;

pub use lines::line;
pub use listing::list;
pub use numbering::line_numbers;
