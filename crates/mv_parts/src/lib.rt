//! The journal of a block that is being made: which calls are live, which are committed, in timestamp order, by
//! multiversion timestamp ordering (Bernstein, Hadzilacos, Goodman, "Concurrency Control and Recovery in Database
//! Systems", section 5.3). It stands on the shards of mv_shards, which hold the versions of items; what their parts
//! are told, each by its own lock, this crate joins.
//!
//! What is seen of a journal, and what it keeps, is in specs/Journals.antt; to which block it is sealed, in
//! specs/Sealing.antt; when a shard agrees with a journal, in specs/Agreeing.antt. The order theorem for calls on a ledger, on which it
//! rests, is in specs/SerialCalls.antt.
#![tactic(auto)]

mod begin_fault;
mod call_state;
mod commit_fault;
mod commit_tests;
mod committing;
mod entry;
mod entry_tests;
mod journal;
mod laws;
mod live;
mod opening;
mod past;
mod same_ledger;
mod seal_fault;
mod sealing;
mod serial_calls;

pub use begin_fault::{BeginError, BeginFault};
pub use commit_fault::{CommitError, CommitFault, RefusedCommit};
pub use entry::Entry;
pub use journal::Journal;
pub use laws::{
    every_call_keeps_agreement, every_call_keeps_settled_entries,
    every_read_above_the_low_mark_is_marked,
};
pub use opening::{open_on, open_parts};
pub use seal_fault::{RefusedSeal, SealError, SealFault};
pub use sealing::Sealed;
pub use serial_calls::{
    LedgerLookups, calls_leave_lookups, every_consistent_world_of_calls_is_serial,
    every_interleaving_of_calls_is_serial, histories_are_replays, order_theorem,
};
