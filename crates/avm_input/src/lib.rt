//! The command line, its input and its replies: which command the words are (`specs/CommandLine.antt`), the whole input,
//! lines of hexadecimal digits (`specs/DigitLines.antt`), the ledger and the block on them (`specs/BlockLines.antt`), what a
//! block is to be made of (`specs/ProposeInputs.antt`), why an input is refused (`specs/Refusals.antt`), and what is written
//! (`specs/Answers.antt`). Programs stand on it; it carries out no command, and starts no thread.
#![tactic(auto)]

mod block_lines;
mod call_line;
mod command_line;
mod digit_lines;
mod digits;
mod draft;
mod input;
mod json_command_line;
mod numbered_calls;
mod outcomes;
mod refusals;
mod replies;

pub use block_lines::{ledger_and_block, needed_bytes, next_base};
pub use call_line::{CallLineFault, checked_call};
pub use command_line::{NodeCommand, command_in, words_of_commands, workers_of};
pub use digit_lines::{DigitLines, NumberedLine, line_bytes};
pub use digits::{decode_digits, digit_line, digit_line_bytes};
pub use draft::{BlockDraft, block_draft, header_of};
pub use input::{INPUT_LIMIT, read_input};
pub use json_command_line::{JsonCommand, json_command_in, words_of_json_commands};
pub use numbered_calls::calls_on;
pub use outcomes::outcome_text;
pub use refusals::{Refusal, check_place, refusal_reply};
pub use replies::{
    DONE, FAILED, REFUSED, Reply, USAGE, input_refusal, write_digits_reply, write_reply,
};
