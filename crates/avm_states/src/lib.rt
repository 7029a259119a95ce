//! States of applications and accounts: finite maps from keys to values (`specs/Entries.antt`), with how many uints and
//! byte strings they have, and may have by their schema (`specs/Schemas.antt`).
//!
//! The maps are sorted lists of entries (`sorted_entries`, `specs/Places.antt`), for any key that is ordered: the items of a
//! call are such lists too.
#![tactic(auto)]

mod entry_counts;
pub mod laws;
mod schema;
mod shared_state;
pub mod sorted_entries;
mod state;

pub use entry_counts::EntryCounts;
pub use schema::{MAX_GLOBAL_ENTRIES, MAX_LOCAL_ENTRIES, Schema};
pub use shared_state::SharedState;
pub use state::{MAX_VALUE_BYTES, State};
