//! The commands of the program `avm_json`: what each answers to its input, and what is written (`specs/Commands.antt`); and a
//! block on a page for a browser, which `avm_json page` answers (`specs/Pages.antt`).
//!
//! A page is one HTML file: a fixed text, a JSON document in base64 (RFC 4648, section 4), and another fixed text (`texts`), with the
//! script that shows the document. The document has the ledger before and after the block, the block, the verdict of a replay, and
//! the traces of the calls, in the words of `show`, `replay` and `trace`.
#![tactic(auto)]

mod commands;
mod front;
mod laws;
mod page;
mod texts;
mod traces;

pub use commands::answer;
pub use laws::{base64_reads_back, pages_read_back};
pub use page::page_reply;
pub use texts::{BEGINNING, END};
pub use traces::Traces;
