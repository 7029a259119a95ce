//! That ledgers keep their rules: which values, states and programs they may have, whatever calls are executed; that runs
//! stay within the bounds of the stack and of byte strings; that items may be put in any order; and that no encoding
//! begins another. Each is the contract of a function without work, over the definitions of `avm_call`. Whoever executes
//! calls rests on `avm_laws` alone, so nothing of a run stands on these.
#![tactic(auto)]

pub mod encoding_laws;
pub mod ledger_laws;
pub mod rule_laws;
