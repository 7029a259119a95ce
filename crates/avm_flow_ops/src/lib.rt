//! The instructions on the stack, the constants, the scratch space, and where a run goes on, as objects: one type a family
//! of opcodes, each with `of`, which gives the family's object of an opcode, so that a set is filled by a loop over the codes.
//!
//! What an instruction does stands in `avm_ops`, `specs/Stack.antt`.
#![tactic(auto)]

mod block;
mod branch;
mod constants;
mod literal;
mod scratch;
mod stack;
mod stops;

pub use block::Block;
pub use branch::Branch;
pub use constants::{Bytec, Intc};
pub use literal::Literal;
pub use scratch::Scratch;
pub use stack::Stack;
pub use stops::Stops;
