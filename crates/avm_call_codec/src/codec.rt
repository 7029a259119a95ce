//! Calls read from bytes and written as bytes.

ghost use Rattle.std.specs.Prelude.{◌≡◌, ◌++◌, ◌<◌, ◌≤◌, length, Ok, IfOk, OnErr, OnOk};
ghost use Rattle.std.specs.Arc.{arc_value};
ghost use Rattle.teal_value.specs.Answer.{Gives};
ghost use Rattle.avm_items.specs.declared.call_data.CallData.{CallData as CallFields};
ghost use Rattle.avm_call_codec.specs.CallReader.{call_at, call_from};
ghost use Rattle.avm_call_codec.specs.CallRoundTrip.{HasFields};
ghost use Rattle.avm_call_codec.specs.CallEncoding.{call_bytes};

use crate::call_data_fault::{CallDataError, CallDataFault};
use crate::reading::{call_alone, front_of, shared_alone, shared_front_of};
use crate::writing::put_call;
use avm_items::CallData;
use avm_ledger::Fields;
use std::alloc::{AllocError, Global};
use std::sync::Arc;
use teal_value::Failure;

/// A value with one encoding in bytes: the calls of this trait on [`CallData`].
pub trait CallCodec: Sized {
    /// The call that the bytes are. The first fault in reading order counts. Nothing grows by a count or a length that the
    /// bytes do not back.
    fn read(alloc: Global, bytes: &[u8]) -> Result<Self, CallDataError>;

    /// The call that begins at a place of the bytes, and the place behind it, whatever follows. A place behind the end has
    /// no bytes.
    fn front(alloc: Global, bytes: &[u8], place: usize) -> Result<(Self, usize), CallDataError>;

    /// As `read`, with the call in the memory where it stays: whoever passes it on moves a pointer.
    fn shared_read(alloc: Global, bytes: &[u8]) -> Result<Arc<Self>, CallDataError>;

    /// As `front`, with the call in the memory where it stays.
    fn shared_front(
        alloc: Global,
        bytes: &[u8],
        place: usize,
    ) -> Result<(Arc<Self>, usize), CallDataError>;

    /// Appends the call's encoding. Of a count or a length that has no room in its field, the low bytes are written.
    /// Where memory is refused, the bytes hold what they held.
    fn encode_into(&self, bytes: &mut Vec<u8>) -> Result<(), AllocError>;
}

impl CallCodec for CallData {
    fn read(alloc: Global, bytes: &[u8]) -> Result<CallData, CallDataError>
        // The call that the grammar reads, or the fault that it names.
        ensures exact { Gives (λ call. call) result (call_at bytes.now) }
        // What is read is encoded by those very bytes.
        ensures encoded { IfOk result (λ call. call_bytes call ≡ bytes.now) }
        // A call is read from its encoding, unless memory runs out.
        ensures only { (call : CallFields)
            → HasFields call → bytes.now ≡ call_bytes call → Gives (λ x. x) result (Ok call) }
    {
        call_alone(alloc, bytes)
    }

    fn front(alloc: Global, bytes: &[u8], place: usize) -> Result<(CallData, usize), CallDataError>
        ensures exact { Gives (λ x. x) result (call_from bytes.now place) }
        ensures forward { IfOk result (λ x. (place < x.1) × (x.1 ≤ length bytes.now)) }
    {
        if place > bytes.len() {
            return Err(Failure::Fault(CallDataFault::Truncated));
        }
        let (_, here) = bytes.split_at(place);
        let (call, rest) = front_of(alloc, Fields::new(here))?;
        Ok((call, bytes.len() - rest.len()))
    }

    fn shared_read(alloc: Global, bytes: &[u8]) -> Result<Arc<CallData>, CallDataError>
        ensures exact { Gives (λ call. arc_value call) result (call_at bytes.now) }
        ensures encoded { IfOk result (λ call. call_bytes (arc_value call) ≡ bytes.now) }
        ensures only { (call : CallFields) → HasFields call
            → bytes.now ≡ call_bytes call → Gives (λ x. arc_value x) result (Ok call) }
    {
        shared_alone(alloc, bytes)
    }

    fn shared_front(
        alloc: Global,
        bytes: &[u8],
        place: usize,
    ) -> Result<(Arc<CallData>, usize), CallDataError>
        ensures exact { Gives (λ x. (arc_value x.0, x.1)) result (call_from bytes.now place) }
        ensures forward { IfOk result (λ x. (place < x.1) × (x.1 ≤ length bytes.now)) }
    {
        if place > bytes.len() {
            return Err(Failure::Fault(CallDataFault::Truncated));
        }
        let (_, here) = bytes.split_at(place);
        let (call, rest) = shared_front_of(alloc, Fields::new(here))?;
        Ok((call, bytes.len() - rest.len()))
    }

    fn encode_into(&self, bytes: &mut Vec<u8>) -> Result<(), AllocError>
        ensures written { OnOk result (bytes.new.items ≡ bytes.old.items ++ call_bytes self.now) }
        ensures unchanged { OnErr result (bytes.new.items ≡ bytes.old.items) }
    {
        put_call(bytes, self)
    }
}
