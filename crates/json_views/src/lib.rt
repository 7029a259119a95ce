//! Ledgers and blocks shown as JSON documents (RFC 8259), in the words of Algorand's dry-run requests: what `avm_json show`
//! answers (`specs/Show.antt`).
//!
//! What a ledger is shown as stands in `specs/ShownLedgers.antt`, and a block in `specs/ShownBlocks.antt`, over the parts in
//! the other files of `specs/`. Documents are written token by token, so that no second form of a ledger stands in memory.
//!
//! What calls do is a document too, in the words of dry-run responses: what `avm_json run` answers for the calls of a document
//! (`specs/Runs.antt`), and `avm_json trace` for those of a block (`specs/TraceReplies.antt`). What the trace of a call is stands in
//! `specs/Traces.antt`. Its states are those that the debugger shows (`avm_stepper`), from before the first instruction to the
//! fault or the end. They are written one after another, and none is kept.
#![tactic(auto)]

mod accounts;
mod applications;
pub mod block;
pub mod by_account;
mod call;
mod call_trace;
mod changes;
mod disassembly;
pub mod ledger;
mod machine;
mod refusal;
mod run;
mod show;
mod states;
mod trace;
mod trace_replies;
mod trace_states;
pub mod writing;

pub use refusal::TraceRefusal;
pub use run::run_reply;
pub use show::show_reply;
pub use states::put_value;
pub use trace::{block_trace, entry_trace, put_block_trace, put_entry_trace};
pub use trace_replies::{found_reply, trace_reply};
