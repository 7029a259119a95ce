//! A call over items that its caller knows, for whoever keeps a ledger item by item: how the call ends and what it writes, or
//! the first item that it looks at and that is not known. What that means stands in `specs/Attempts.antt`.
#![tactic(auto)]

mod over_known;

pub use over_known::attempt;
