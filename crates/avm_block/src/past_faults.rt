//! Why a block's past is not shown: the ledger after some of its calls, or a call on its way.

ghost use Rattle.std.specs.Prelude.{◌≡◌};
ghost use Rattle.avm_block.specs.FaultNames.{open_fault_name, state_fault_name};

use teal_value::Failure;
use thiserror::Error;

/// Why there is no ledger of the past.
#[derive(Clone, Copy, Debug, PartialEq, Eq, Error)]
#[error("{name}", name = self.name())]
pub enum StateFault {
    /// The block stands over another ledger.
    WrongBase = 1,
}

impl StateFault {
    /// Its name, as commands print it.
    pub fn name(self) -> &'static str
        ensures { result.now ≡ state_fault_name self }
    {
        match self {
            StateFault::WrongBase => "WrongBase",
        }
    }
}

/// A [`StateFault`], or that memory ran out.
pub type StateError = Failure<StateFault>;

/// Why a call is not opened in a debugger. The tests come in this order.
#[derive(Clone, Copy, Debug, PartialEq, Eq, Error)]
#[error("{name}", name = self.name())]
pub enum OpenFault {
    /// The block has no entry of this number. Entries are numbered from 1.
    NoEntry = 1,
    /// The block stands over another ledger.
    WrongBase,
    /// No program runs: the call is refused, or clears the local state of an application that is gone.
    NoProgram,
    /// The ledger before the call is below the store's low mark.
    Pruned = 5,
}

impl OpenFault {
    /// Its name, as commands print it.
    pub fn name(self) -> &'static str
        ensures { result.now ≡ open_fault_name self }
    {
        match self {
            OpenFault::NoEntry => "NoEntry",
            OpenFault::WrongBase => "WrongBase",
            OpenFault::NoProgram => "NoProgram",
            OpenFault::Pruned => "Pruned",
        }
    }
}

/// An [`OpenFault`], or that memory ran out.
pub type OpenError = Failure<OpenFault>;
