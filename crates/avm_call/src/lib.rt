//! Runs of programs and whole calls: `specs/Runs.antt` has the path and the result of a program, `specs/Calls.antt` the
//! tests before it, what is prepared for it, and what comes after.
#![tactic(auto)]

mod call;
mod call_fault;
pub mod laws;
mod outcome;
pub mod rule_laws;
pub mod worked;

pub use call::Call;
pub use call_fault::{CallError, CallFault};
pub use outcome::{Cause, Ended, Outcome, Why, is_same_outcome};
