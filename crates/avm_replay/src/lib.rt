//! The replayer: whether a block holds over the ledger before it, and the ledger after some of its calls. What it finds is
//! said in `specs/Verdicts.antt`, by the meaning of a block (`avm_block`, `specs/Blocks.antt`); one thread makes one call
//! after another, by `avm_run::call_on`.
#![tactic(auto)]

mod past;
mod plain;
mod replayer;
mod verdict;
pub mod worked;

pub use avm_block::{StateError, StateFault};
pub use past::{state_at, state_at_owned};
pub use plain::plain_block;
pub use replayer::{one_verdict, replay, replay_owned};
pub use verdict::Verdict;
