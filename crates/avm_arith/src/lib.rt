//! The instructions on numbers and byte strings, as objects: one type a family of opcodes, each with `of`, which gives the
//! family's object of an opcode, so that a set is filled by a loop over the codes.
//!
//! What an instruction does stands in `avm_ops`, `specs/Numbers.antt` and `specs/ByteStrings.antt`.
#![tactic(auto)]

mod binary;
mod bits;
mod comparison;
mod joined;
mod of_bytes;
mod unary;
mod wide;

pub use binary::Binary;
pub use bits::Bits;
pub use comparison::{Comparison, Equality};
pub use joined::Joined;
pub use of_bytes::OfBytes;
pub use unary::Unary;
pub use wide::Wide;
