//! What ledgers are read from, for crates that read their items one by one.

pub use crate::ledger_reading::{next_id_of, row_of, schema_of};
pub use crate::state_reading::{shared_state_of, value_of};
