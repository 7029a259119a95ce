//! Lines that are calls.

ghost use Rattle.std.specs.Prelude.{◌≡◌};
ghost use Rattle.std.specs.Arc.{arc_value};
ghost use Rattle.teal_value.specs.Answer.{Gives};
ghost use Rattle.avm_call_codec.specs.CallReader.{call_at};
ghost use Rattle.avm_call.specs.CallRules.{call_fault};
ghost use Rattle.avm_input.specs.CallLines.{call_line_name, checked_call, on_bytes, unless_broken};

use avm_call::{Call, CallFault};
use avm_call_codec::{CallCodec, CallDataFault};
use avm_items::CallData;
use std::alloc::Global;
use std::sync::Arc;
use teal_value::Failure;
use thiserror::Error;

/// Why the bytes of a line are no call.
#[derive(Clone, Copy, Debug, PartialEq, Eq, Error)]
#[error("{name}", name = self.name())]
pub enum CallLineFault {
    /// They encode no call.
    Bytes(CallDataFault),
    /// They encode a call that breaks this rule.
    Rule(CallFault),
}

impl CallLineFault {
    /// The name of the fault or the rule, as commands print it.
    pub fn name(self) -> &'static str
        ensures { result.now ≡ call_line_name self }
    {
        match self {
            CallLineFault::Bytes(fault) => fault.name(),
            CallLineFault::Rule(fault) => fault.name(),
        }
    }
}

/// The call that the bytes are. The rules are tested once all of it is read.
pub fn checked_call(alloc: Global, bytes: &[u8]) -> Result<Call, Failure<CallLineFault>>
    ensures { Gives (λ call. call) result (checked_call bytes.now) }
{
    let fields = call_fields(alloc, bytes)?;
    call_of_fields(alloc, fields)
}

fn call_fields(alloc: Global, bytes: &[u8]) -> Result<Arc<CallData>, Failure<CallLineFault>>
    ensures { Gives (λ fields. arc_value fields) result (on_bytes (call_at bytes.now)) }
{
    CallData::shared_read(alloc, bytes).map_err(|failure| failure.map(CallLineFault::Bytes))
}

fn call_of_fields(alloc: Global, fields: Arc<CallData>) -> Result<Call, Failure<CallLineFault>>
    ensures { Gives (λ call. call) result
        (unless_broken (arc_value fields) (call_fault (arc_value fields))) }
{
    Call::of_shared(alloc, fields).map_err(|failure| failure.map(CallLineFault::Rule))
}
