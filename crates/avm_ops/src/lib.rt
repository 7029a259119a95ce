//! What one instruction does, and instructions as objects.
//!
//! `specs/Effect.antt` has one case a row of the opcode table; the frame that all rows share (underflow, the types of the
//! operands, the row's own tests, and last the height of the stack) stands in `specs/Frame.antt`, and what every
//! instruction keeps to in `laws`. [`Op`] is the interface of the objects that carry instructions out: its contract is
//! the table. Their types stand in the crates above, one for each family of rows.
#![tactic(auto)]

pub mod immediates;
pub mod laws;
mod op;
mod set;

pub use avm_cpu::Flow;
pub use op::{BoxedOp, Control, Executed, Op, Stop, flag};
pub use set::{OpSet, Ops, PushFault};
