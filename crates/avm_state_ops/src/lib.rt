//! The instructions on the fields of a call and of a block, and on the states of applications and accounts, as objects:
//! one type a family of opcodes, each with `of`, which gives the family's object of an opcode.
//!
//! What an instruction does stands in `avm_ops`, `specs/Fields.antt` and `specs/States.antt`.
#![tactic(auto)]

mod fields;
mod global;
mod item_reads;
mod reads;
mod txn;
mod writes;

pub use global::GlobalOp;
pub use reads::StateRead;
pub use txn::Txn;
pub use writes::StateWrite;
