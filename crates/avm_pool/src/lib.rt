//! Calls that several threads run into one block.
//!
//! Workers draw call numbers, run each call outside all locks, and commit it to a journal and shards that are locked
//! apart, by multiversion timestamp ordering (Bernstein, Hadzilacos, Goodman, "Concurrency Control and Recovery in
//! Database Systems", section 5.3). What comes out is a block that anyone replays, whatever the threads did:
//! specs/Proposals.antt says so without a word about them.
#![tactic(auto)]

mod after_workers;
mod block_prefix;
mod call_numbers;
mod commit_log;
mod draft;
mod ends;
mod finishing;
mod gate;
mod held_notes;
mod left_numbers;
mod locked_work;
mod log_prefix;
mod logged_held;
mod logged_journal;
mod logged_shard;
mod naming;
mod opening;
mod own_call;
mod pool_fault;
mod proposal;
mod proposing;
mod refusals;
mod running;
mod thread_room;
mod waiting;
mod worker;
mod workers;

pub use call_numbers::{NumberPass, Numbers};
pub use commit_log::{CommitLog, EntryOffer, OpenedLog};
pub use draft::{Draft, ThreadSets};
pub use gate::{Gate, GateEvent, OpenGate};
pub use log_prefix::LogPrefix;
pub use logged_held::LoggedHeld;
pub use logged_journal::LoggedJournal;
pub use logged_shard::LoggedShard;
pub use naming::Naming;
pub use pool_fault::{PoolError, PoolFault};
pub use proposal::Proposal;
pub use proposing::{propose, propose_on};
pub use thread_room::take_room;
