//! The laws of whole calls: what a run's own writes say of the keys, which items calls ask for, what a call changes, and
//! that calls keep ledgers in order. Each is the contract of a function without work, over the definitions of `avm_call`.
#![tactic(auto)]

pub mod call_laws;
pub mod ledger_laws;
pub mod order_laws;
