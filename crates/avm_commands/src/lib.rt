//! The commands of the program `avm` that start no thread: a command's text and exit status, from the words of its command line
//! and its input.
//!
//! `specs/Answers.antt` says what each command answers. `specs/BlockCommands.antt` has the commands that replay blocks,
//! `specs/DebugCommands.antt` the one that steps through a call of a block.
#![tactic(auto)]

mod asm;
mod block_commands;
mod commands;
mod debug_command;
mod leftovers;
mod programs;
mod view_text;

pub use block_commands::verdict_text;
pub use commands::{answer, answer_to};
pub use debug_command::{DebugPoint, one_finding, view_found};
pub use leftovers::leak_at_exit;
