//! The machine of one run: stack, scratch space, constants in force and place (`specs/Machine.antt`), with one reading
//! call for each kind of operands (`specs/Operands.antt`).
#![tactic(auto)]

mod constants;
mod cpu;
mod flow;
mod push;
mod values;

pub use cpu::{Cpu, MAX_BYTES};
pub use flow::Flow;
pub use push::Push;
