//! The store: calls on a ledger that run side by side, each in an attempt that begins, reads, and is committed or
//! abandoned, by multiversion timestamp ordering (Bernstein, Hadzilacos, Goodman, "Concurrency Control and Recovery in
//! Database Systems", section 5.3). It is a journal with all its shards and the live attempts. What is seen of it is a
//! record in `specs/SeenStores.antt`; how that comes from what it keeps, and what its calls do, is in `specs/Stores.antt`, and
//! what a list of steps of eight workers comes to in `specs/Running.antt`.
//!
//! What each event makes of a store is a law; those functions do no work.
#![tactic(auto)]

ghost use Rattle.mv_core.specs.Laws.{EveryAbandonLeavesAStore, EveryBeginLeavesAStore, EveryMarkIsAVersions, EveryPruneLeavesAStore, EveryReadLeavesAStore};

mod committing;
mod event_list;
mod faults;
mod opening;
mod reading;
mod running;
mod sealing;
mod steps;
mod store;
mod ticket;
mod world;

pub use event_list::{Tools, run_events};
pub use faults::{
    AbandonFault, CommitError, CommitFault, ReadError, ReadFault, RefusedCommit, StateError,
    StateFault,
};
pub use running::{Event, every_read_is_used, every_run_is_serial, every_same_run_goes_on};
pub use sealing::RefusedSeal;
pub use store::Store;
pub use ticket::Ticket;
pub use world::{Worker, World};

/// The events of calls leave a store, and make of the world that is seen what they mean: beginnings, reads, abandoned
/// attempts and prunes.
pub fn every_event_leaves_a_store()
    ensures begin { EveryBeginLeavesAStore }
    ensures read { EveryReadLeavesAStore }
    ensures abandon { EveryAbandonLeavesAStore }
    ensures prune { EveryPruneLeavesAStore }
{}

/// The marks that a store is seen with are those of its versions, and the facts of the order theorem hold of the world
/// that is seen.
pub fn every_mark_is_a_versions()
    ensures { EveryMarkIsAVersions }
{}
