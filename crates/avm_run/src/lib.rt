//! Runs of calls. A run is handed the items that its call asks for, one by one, and ends in what the definition of calls
//! says: a [`CallRun`] for whoever holds the items, and [`call_on`] over a ledger. What a call does is defined in
//! `avm_call`; `specs/Standing.antt` says how far a run has come.
#![tactic(auto)]

mod admission;
mod call_run;
mod context;
mod ending;
mod finished;
mod full_ops;
mod item_values;
pub mod laws;
mod on_ledger;
mod phase;
mod reading;
mod running;
mod shown;

pub use call_run::{Advance, CallRun, RunFault, Step};
pub use context::RunContext;
pub use finished::Finished;
pub use full_ops::{Executions, FullOps};
pub use on_ledger::{call_on, call_plain};
pub use reading::{Reader, run_reading};
pub use running::Spare;
pub use shown::Shown;
