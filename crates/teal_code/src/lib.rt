//! Instructions and their bytes: an instruction is read at a place of a program and written back (AVM specification,
//! program encoding). `specs/Grammar.antt` says which bytes encode which instruction, `specs/Reader.antt` computes it.
#![tactic(auto)]

mod decode;
mod encode;
pub mod fault_laws;
mod instr;
pub mod laws;

pub use decode::{CodeError, CodeFault, decode_at, varuint_of};
pub use encode::{encode_into, varuint_bytes};
pub use instr::{Immediates, Instr};
