//! What the program `avm` answers: the commands that start no thread (`avm_commands`), and `propose`, which makes a block of
//! calls by workers in threads (`specs/ProposeCommands.antt`).
#![tactic(auto)]

mod call_lines;
mod propose_command;
mod propose_input;
mod running;

pub use avm_commands::{answer, one_finding};
pub use avm_input::FAILED;
pub use running::run;
