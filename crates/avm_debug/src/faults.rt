//! Why there is no ledger of the past.

ghost use Rattle.std.specs.Prelude.{◌≡◌};
ghost use Rattle.avm_debug.specs.FaultNames.{past_fault_name};

use teal_value::Failure;
use thiserror::Error;

/// Why there is no ledger of the past.
#[derive(Clone, Copy, Debug, PartialEq, Eq, Error)]
#[error("{name}", name = self.name())]
pub enum PastFault {
    /// The block stands over another ledger.
    WrongBase = 2,
    /// The timestamp is below the store's low mark.
    Pruned = 5,
}

impl PastFault {
    /// Its name.
    pub fn name(self) -> &'static str
        ensures { result.now ≡ past_fault_name self }
    {
        match self {
            PastFault::WrongBase => "WrongBase",
            PastFault::Pruned => "Pruned",
        }
    }
}

/// A [`PastFault`], or that memory ran out.
pub type PastError = Failure<PastFault>;
