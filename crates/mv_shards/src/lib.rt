//! Shards: the versions of a ledger's items, in parts that are locked apart, for multiversion timestamp ordering
//! (Bernstein, Hadzilacos, Goodman, "Concurrency Control and Recovery in Database Systems", section 5.3). An attempt of
//! a call reads from a shard and leaves its mark there; shards that are held together are read and written as one.
//!
//! Which shard an item is in is defined in specs/Indexes.antt, what is seen of a shard and what a read is in
//! specs/Shards.antt. It stands on `mv_chain`, the versions of one item.
#![tactic(auto)]

mod attempt;
mod chain_ref;
mod chains;
mod commit_scratch;
mod held;
mod index;
mod notes;
mod number_maps;
mod placed_tests;
mod read_fault;
mod shard;
mod shard_state;
mod slot;
mod write_fault;
mod writing;

pub use attempt::Attempt;
pub use held::Held;
pub use index::{SHARD_COUNT, shard_of};
pub use read_fault::{ReadError, ReadFault};
pub use shard::Shard;
pub use write_fault::{WriteError, WriteFault};
