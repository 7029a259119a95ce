//! Why a call gave no answer.

ghost use Rattle.std.specs.Prelude.{◌≡◌, MatchResult};
ghost use Rattle.teal_value.specs.declared.failure.Failure.TheVariants.{Memory, Fault};
ghost use Rattle.teal_value.specs.Answer.{ForFault, IsMapped};

use std::alloc::{AllocError, AllocFailed};
use std::fmt::Display;
use thiserror::Error;

/// A fault of the input, or an allocation that was refused.
#[derive(Clone, Copy, Debug, PartialEq, Eq, Drop, Error)]
#[error_bound(F: Display)]
pub enum Failure<F> {
    /// The allocator refused memory.
    #[error("out of memory")]
    Memory,
    /// The input is refused.
    #[error("{0}")]
    Fault(F),
}

impl<F> Failure<F> {
    /// The failure with another fault in place of its own.
    pub fn map<G, M: FnOnce(F) -> G>(self, into: M) -> Failure<G>
        requires { ForFault self (M.pre into) }
        ensures { IsMapped (M.post into) self result }
    {
        match self {
            Failure::Memory => Failure::Memory,
            Failure::Fault(fault) => Failure::Fault(into(fault)),
        }
    }

    /// The fault, for a caller to whom a refused allocation is an error of its own.
    pub fn into_fault(self) -> Result<F, AllocError>
        ensures { MatchResult result (λ fault. self ≡ Fault fault) (λ _. self ≡ Memory) }
    {
        match self {
            Failure::Memory => Err(AllocError),
            Failure::Fault(fault) => Ok(fault),
        }
    }
}

impl<F> From<AllocError> for Failure<F> {
    ghost from_gives = { λ _ e. e ≡ Memory };

    fn from(_error: AllocError) -> Self {
        Failure::Memory
    }
}

impl<F, T: Drop> From<AllocFailed<T>> for Failure<F> {
    ghost from_gives = { λ _ e. e ≡ Memory };

    fn from(_error: AllocFailed<T>) -> Self {
        Failure::Memory
    }
}
