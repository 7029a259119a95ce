//! What is answered of a call over items that the caller knows.

ghost use Rattle.std.specs.Prelude.{◌≡◌, IfOk, Ok};
ghost use Rattle.teal_value.specs.Answer.{Gives};
ghost use Rattle.avm_ops.specs.OpSets.{IsFull};
ghost use Rattle.avm_run.specs.declared.call_run.Advance.TheVariants as advance;
ghost use Rattle.avm_bytes.specs.Attempts.{IsAttempted, asked_of, attempted_shown, call_number, call_of, header_of, items_of, not_made, of_advance};

use crate::answers::{Answer, done, refusal};
use crate::ends::{End, end_of};
use crate::questions::Question;
use crate::statuses::Status;
use crate::troubles::{Refused, refused_for};
use avm_attempt::attempt;
use avm_call::Call;
use avm_call_codec::CallDataFault;
use avm_input::{CallLineFault, checked_call, header_of as header_in};
use avm_item_codec::{item_bytes, items_bytes, read_items};
use avm_items::{Item, ItemMap};
use avm_ledger::Header;
use avm_ops::{Op, OpSet, Ops};
use avm_run::{Advance, Finished, FullOps};
use std::alloc::{AllocError, Global};
use teal_value::Failure;

/// A call over known items, as bytes.
#[derive(Drop)]
pub struct CallOver<'a> {
    pub header: &'a [u8],
    pub call: &'a [u8],
    pub known: &'a [u8],
}

/// What the bytes of a call over known items are.
#[derive(Drop)]
pub struct Asked {
    pub header: Header,
    pub call: Call,
    pub known: ItemMap,
}

/// An answer, and how the call ends.
#[derive(Drop)]
pub struct Attempted {
    pub answer: Answer,
    pub end: End,
}

impl Question for CallOver<'_> {
    type Answer = Attempted;

    ghost use Rattle.avm_bytes.specs.Attempts.{IsAttempted, asked_of, attempted_shown};

    ghost answers = { λ asked attempted. IsAttempted
        (asked_of asked.header.now asked.call.now asked.known.now) (attempted_shown attempted) };

    fn answer(&self, alloc: Global, ops: OpSet) -> Result<Attempted, AllocError> {
        match asked_of(alloc, self.header, self.call, self.known) {
            Ok(asked) => attempted_by(alloc, &asked, ops),
            Err(failure) => Ok(not_made(alloc, failure.into_fault()?)),
        }
    }
}

/// What the bytes are. The header is read first, then the call.
fn asked_of(
    alloc: Global,
    header: &[u8],
    call: &[u8],
    known: &[u8],
) -> Result<Asked, Failure<Refused>>
    ensures { Gives (λ asked. asked) result (asked_of header.now call.now known.now) }
{
    let header = header_of(header)?;
    let call = call_of(alloc, call)?;
    let known = items_of(alloc, known)?;
    Ok(Asked {
        header,
        call,
        known,
    })
}

/// The header that the bytes are, of a block that may have calls of all versions.
pub(crate) fn header_of(bytes: &[u8]) -> Result<Header, Failure<Refused>>
    ensures { Gives (λ header. header) result (header_of bytes.now) }
{
    header_in(bytes).map_err(|failure| failure.map(|_fault| refused_for(Status::NoHeader, 0)))
}

pub(crate) fn call_of(alloc: Global, bytes: &[u8]) -> Result<Call, Failure<Refused>>
    ensures { Gives (λ call. call) result (call_of bytes.now) }
{
    checked_call(alloc, bytes).map_err(|failure| failure.map(|fault| refused_for(
        Status::NoCall,
        call_number(fault),
    )))
}

/// The number of a call's fault, as `include/avm.h` has it.
pub(crate) fn call_number(fault: CallLineFault) -> u32
    ensures { result ≡ call_number fault }
{
    match fault {
        CallLineFault::Bytes(CallDataFault::Field) => 1,
        CallLineFault::Bytes(CallDataFault::Truncated) => 2,
        CallLineFault::Bytes(CallDataFault::Rest) => 3,
        CallLineFault::Rule(fault) => 16 + u32::from(fault.number()),
    }
}

fn items_of(alloc: Global, bytes: &[u8]) -> Result<ItemMap, Failure<Refused>>
    ensures { Gives (λ items. items) result (items_of bytes.now) }
{
    read_items(alloc, bytes).map_err(|failure| failure.map(|_fault| refused_for(
        Status::NoItems,
        0,
    )))
}

/// That the bytes are none.
pub(crate) fn not_made(alloc: Global, why: Refused) -> Attempted
    ensures { attempted_shown result ≡ not_made why }
{
    Attempted {
        answer: refusal(alloc, why.status),
        end: End {
            ending: 0,
            number: why.trouble.number,
            place: 0,
        },
    }
}

fn attempted_by<O: Op>(alloc: Global, asked: &Asked, ops: Ops<O>) -> Result<Attempted, AllocError>
    requires full { IsFull O.opcode ops }
    ensures { IfOk result (λ attempted. IsAttempted (Ok asked.now) (attempted_shown attempted)) }
{
    let ops = FullOps::from_full(ops);
    match attempt(alloc, &ops, &asked.call, &asked.header, &asked.known)? {
        Advance::Need(item) => needs(alloc, &item),
        Advance::Done(finished) => ended(alloc, &finished),
    }
}

/// That the call asks for an item.
fn needs(alloc: Global, item: &Item) -> Result<Attempted, AllocError>
    ensures { IfOk result
        (λ attempted. attempted_shown attempted ≡ of_advance (advance.Need item.now)) }
{
    let bytes = item_bytes(alloc, item)?;
    Ok(Attempted {
        answer: Answer {
            status: Status::Needs.number(),
            bytes,
        },
        end: End {
            ending: 0,
            number: 0,
            place: 0,
        },
    })
}

/// How the call ends, and what it writes.
fn ended(alloc: Global, finished: &Finished) -> Result<Attempted, AllocError>
    ensures { IfOk result
        (λ attempted. attempted_shown attempted ≡ of_advance (advance.Done finished.now)) }
{
    let bytes = items_bytes(alloc, finished.writes().as_slice())?;
    Ok(Attempted {
        answer: done(bytes),
        end: end_of(finished.outcome()),
    })
}
