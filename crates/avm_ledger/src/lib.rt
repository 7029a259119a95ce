//! Ledgers: applications, local states, and what a block tells its programs. What a ledger is stands in
//! `specs/Ledgers.antt`, the rules of ledgers in `specs/LedgerRules.antt`, their bytes in `specs/Encodings.antt` and
//! `specs/LedgerReader.antt`. The states are those of `avm_states`.
#![tactic(auto)]

mod application;
mod base;
mod codec;
pub mod encoding;
mod fields;
mod header;
mod ids_end;
mod ledger;
mod ledger_fault;
mod ledger_reading;
mod open_ledger;
pub mod reading;
pub mod reading_laws;
mod shared_application;
mod sorted_map;
mod state_reading;
mod stored_program;

pub use application::{Application, StoredApplication};
pub use avm_states::Schema;
pub use base::Base;
pub use fields::Fields;
pub use header::{Header, Profile};
pub use ids_end::IdsEnd;
pub use ledger::Ledger;
pub use ledger_fault::{LedgerError, LedgerFault};
pub use open_ledger::OpenLedger;
pub use shared_application::SharedApplication;
pub use stored_program::StoredProgram;
