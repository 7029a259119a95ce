//! Why no step is made.

ghost use Rattle.std.specs.Prelude.{◌≡◌};
ghost use Rattle.avm_stepper.specs.FaultNames.{step_fault_name};

use teal_value::Failure;
use thiserror::Error;

/// Why no step is made.
#[derive(Clone, Copy, Debug, PartialEq, Eq, Error)]
#[error("{name}", name = self.name())]
pub enum StepFault {
    /// A step has faulted, or no instruction is left.
    Ended = 4,
    /// A step before was refused memory.
    Spent = 6,
}

impl StepFault {
    /// Its name.
    pub fn name(self) -> &'static str
        ensures { result.now ≡ step_fault_name self }
    {
        match self {
            StepFault::Ended => "Ended",
            StepFault::Spent => "Spent",
        }
    }
}

/// A [`StepFault`], or that memory ran out.
pub type StepError = Failure<StepFault>;
