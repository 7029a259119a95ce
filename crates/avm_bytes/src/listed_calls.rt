//! Lists of calls, read from bytes.

ghost use Rattle.std.specs.Prelude.{◌≡◌};
ghost use Rattle.std.specs.Arc.{arc_value};
ghost use Rattle.teal_value.specs.Answer.{Gives};
ghost use Rattle.avm_call.specs.CallRules.{call_fault};
ghost use Rattle.avm_call_codec.specs.CallReader.{call_from};
ghost use Rattle.avm_input.specs.CallLines.{on_bytes, unless_broken};
ghost use Rattle.avm_bytes.specs.ListedCalls.{calls_of, listed_call, more_calls, no_call, of_call};

use crate::attempts::call_number;
use crate::statuses::Status;
use crate::troubles::{Refused, trouble_at};
use avm_call::Call;
use avm_call_codec::{CallCodec, CallDataFault};
use avm_input::CallLineFault;
use avm_items::CallData;
use avm_ledger::Fields;
use std::alloc::Global;
use std::sync::Arc;
use teal_value::Failure;

/// How many bytes the count of calls has.
const COUNT_LEN: usize = 4;

/// The calls that the bytes are: their count in four bytes, and then each. Nothing grows by a count that the bytes do not back.
pub fn calls_of(alloc: Global, bytes: &[u8]) -> Result<Vec<Call>, Failure<Refused>>
    ensures { Gives (λ calls. calls.items) result (calls_of bytes.now) }
{
    let truncated = no_call(0, CallLineFault::Bytes(CallDataFault::Truncated));
    let (count, _rest) = Fields::new(bytes).u32(truncated)?;
    let (calls, end) = many_of(alloc, bytes, count)?;
    if end < bytes.len() {
        return Err(Failure::Fault(no_call(0, CallLineFault::Bytes(CallDataFault::Rest))));
    }
    Ok(calls)
}

/// So many calls behind their count, and the place behind them.
fn many_of(alloc: Global, bytes: &[u8], count: u32) -> Result<(Vec<Call>, usize), Failure<Refused>>
    ensures { Gives (λ x. (x.0.items, x.1)) result (more_calls bytes.now 1 count COUNT_LEN) }
{
    let mut calls = Vec::new(alloc);
    let mut place = COUNT_LEN;
    for index in 0..count {
        let (call, next) = listed_call(alloc, bytes, u64::from(index) + 1, place)?;
        calls.push(call)?;
        place = next;
    }
    Ok((calls, place))
}

/// The call of this number, which begins at a place, and the place behind it. Its rules are tested once all of it is read.
fn listed_call(
    alloc: Global,
    bytes: &[u8],
    number: u64,
    place: usize,
) -> Result<(Call, usize), Failure<Refused>>
    ensures { Gives (λ x. x) result (listed_call bytes.now number place) }
{
    let (fields, next) = fields_at(alloc, bytes, number, place)?;
    let call = call_of_fields(alloc, number, fields)?;
    Ok((call, next))
}

fn fields_at(
    alloc: Global,
    bytes: &[u8],
    number: u64,
    place: usize,
) -> Result<(Arc<CallData>, usize), Failure<Refused>>
    ensures { Gives (λ x. (arc_value x.0, x.1)) result
        (of_call number (on_bytes (call_from bytes.now place))) }
{
    CallData::shared_front(alloc, bytes, place).map_err(|failure| failure.map(|fault| no_call(
        number,
        CallLineFault::Bytes(fault),
    )))
}

fn call_of_fields(
    alloc: Global,
    number: u64,
    fields: Arc<CallData>,
) -> Result<Call, Failure<Refused>>
    ensures { Gives (λ call. call) result
        (of_call number (unless_broken (arc_value fields) (call_fault (arc_value fields)))) }
{
    Call::of_shared(alloc, fields).map_err(|failure| failure.map(|fault| no_call(
        number,
        CallLineFault::Rule(fault),
    )))
}

/// That the call of this number is none; or, of the number 0, that the bytes are no list.
fn no_call(number: u64, fault: CallLineFault) -> Refused
    ensures { result ≡ no_call number fault }
{
    Refused {
        status: Status::NoCall,
        trouble: trouble_at(number, call_number(fault)),
    }
}
