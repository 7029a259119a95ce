//! Why bytes are no call.

ghost use Rattle.std.specs.Prelude.{◌≡◌};
ghost use Rattle.avm_call_codec.specs.FaultNames.{call_data_fault_name};

use teal_value::Failure;
use thiserror::Error;

/// What is wrong with the bytes of a call. A call is read field by field, and the first fault counts.
#[derive(Clone, Copy, Debug, PartialEq, Eq, Error)]
#[error("{name}", name = self.name())]
pub enum CallDataFault {
    /// A field has a value that none has.
    Field = 1,
    /// The bytes end in a field.
    Truncated,
    /// Bytes stand behind the call.
    Rest,
}

impl CallDataFault {
    /// Its name, as commands print it.
    pub fn name(self) -> &'static str
        ensures { result.now ≡ call_data_fault_name self }
    {
        match self {
            CallDataFault::Field => "Field",
            CallDataFault::Truncated => "Truncated",
            CallDataFault::Rest => "Rest",
        }
    }
}

/// A [`CallDataFault`], or that memory ran out.
pub type CallDataError = Failure<CallDataFault>;
