//! Why bytes are no ledger.

ghost use Rattle.std.specs.Prelude.{◌≡◌};
ghost use Rattle.avm_ledger.specs.FaultNames.{ledger_fault_name};

use teal_value::Failure;
use thiserror::Error;

/// What is wrong with the bytes of a ledger. A ledger is read field by field, and the first fault counts.
#[derive(Clone, Copy, Debug, PartialEq, Eq, Error)]
#[error("{name}", name = self.name())]
pub enum LedgerFault {
    /// A field breaks a rule of ledgers.
    Malformed = 1,
    /// The bytes end in a field.
    Truncated,
    /// Bytes stand behind the ledger.
    Rest,
}

impl LedgerFault {
    /// Its name, as commands print it.
    pub fn name(self) -> &'static str
        ensures { result.now ≡ ledger_fault_name self }
    {
        match self {
            LedgerFault::Malformed => "Malformed",
            LedgerFault::Truncated => "Truncated",
            LedgerFault::Rest => "Rest",
        }
    }
}

/// A [`LedgerFault`], or a refused allocation.
pub type LedgerError = Failure<LedgerFault>;
