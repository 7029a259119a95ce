//! What a line of source text says: operands, commands, statements, and the faults of a line (TEAL specification,
//! "Assembler syntax").
//!
//! `specs/Operands.antt` reads words, `specs/Commands.antt` a name with its operands, and `specs/Statements.antt` lines.
//! What a text means as a whole stands above, in `teal_asm`.
#![tactic(auto)]

mod arity;
mod command;
mod fault;
mod line;
mod operand;
mod statement;

pub use command::{Command, command_of};
pub use fault::{AsmError, AsmFault, AsmFaultKind};
pub use line::{is_pragma, label_name, named_version, optional_command};
pub use operand::LineError;
pub use statement::Statement;
