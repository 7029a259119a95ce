//! The bytes of outcomes. Where memory is refused, the bytes hold what they held.

ghost use Rattle.std.specs.Prelude.{◌≡◌, ◌++◌, OnErr, OnOk};
ghost use Rattle.teal_value.specs.Answer.{Gives};
ghost use Rattle.teal_value.specs.FaultNumbers.{fault_number, faults};
ghost use Rattle.teal_code.specs.Encoding.{Continues};
ghost use Rattle.avm_call.specs.OutcomeEncoding.{outcome_bytes, why_number, whys};
ghost use Rattle.avm_block.specs.OutcomeReader.{cause_at, fault_and_place_at, one_at, outcome_at, place_at};

use crate::block_fault::{BlockError, BlockFault};
use avm_call::{Cause, Outcome, Why};
use avm_ledger::Fields;
use avm_ledger::encoding::cut_if_refused;
use std::alloc::AllocError;
use teal_value::{Failure, Fault};

/// The last place that a fault may name: the end of the longest program.
const MAX_PLACE: u16 = 1024;

/// Appends an outcome's encoding.
pub fn put_outcome(bytes: &mut Vec<u8>, outcome: Outcome) -> Result<(), AllocError>
    ensures written { OnOk result (bytes.new.items ≡ bytes.old.items ++ outcome_bytes outcome) }
    ensures unchanged { OnErr result (bytes.new.items ≡ bytes.old.items) }
{
    let start = bytes.len();
    let appended = push_outcome(bytes, outcome);
    cut_if_refused(bytes, start, appended)
}

// Where memory is refused, a part of the encoding may stand behind what was there.
fn push_outcome(bytes: &mut Vec<u8>, outcome: Outcome) -> Result<(), AllocError>
    ensures written { OnOk result (bytes.new.items ≡ bytes.old.items ++ outcome_bytes outcome) }
    ensures kept { Continues bytes.old.items bytes.new.items }
{
    match outcome {
        Outcome::Approved => bytes.extend_from_slice(&[0]),
        Outcome::Rejected => bytes.extend_from_slice(&[1]),
        Outcome::Faulted(fault, place) => {
            let [high, low] = place.to_be_bytes();
            bytes.extend_from_slice(&[2, fault.number(), high, low])
        }
        Outcome::Refused(why) => bytes.extend_from_slice(&[3, why.number()]),
        Outcome::ClearedAnyway(Cause::Gone) => bytes.extend_from_slice(&[4, 0]),
        Outcome::ClearedAnyway(Cause::Rejected) => bytes.extend_from_slice(&[4, 1]),
        Outcome::ClearedAnyway(Cause::Faulted(fault, place)) => {
            let [high, low] = place.to_be_bytes();
            bytes.extend_from_slice(&[4, 2, fault.number(), high, low])
        }
    }
}

/// The outcome that the bytes begin with, and the bytes behind it.
pub fn outcome_of(fields: Fields<'_>) -> Result<(Outcome, Fields<'_>), BlockError>
    ensures { Gives (λ x. x) result (outcome_at fields.entry) }
{
    let (kind, rest) = fields.u8(BlockFault::Truncated)?;
    match kind {
        0 => Ok((Outcome::Approved, rest)),
        1 => Ok((Outcome::Rejected, rest)),
        2 => {
            let ((fault, place), rest) = fault_of(rest)?;
            Ok((Outcome::Faulted(fault, place), rest))
        }
        3 => {
            let (why, rest) = why_of(rest)?;
            Ok((Outcome::Refused(why), rest))
        }
        4 => {
            let (cause, rest) = cause_of(rest)?;
            Ok((Outcome::ClearedAnyway(cause), rest))
        }
        _ => Err(Failure::Fault(BlockFault::Field)),
    }
}

fn cause_of(fields: Fields<'_>) -> Result<(Cause, Fields<'_>), BlockError>
    ensures { Gives (λ x. x) result (cause_at fields.entry) }
{
    let (kind, rest) = fields.u8(BlockFault::Truncated)?;
    match kind {
        0 => Ok((Cause::Gone, rest)),
        1 => Ok((Cause::Rejected, rest)),
        2 => {
            let ((fault, place), rest) = fault_of(rest)?;
            Ok((Cause::Faulted(fault, place), rest))
        }
        _ => Err(Failure::Fault(BlockFault::Field)),
    }
}

fn fault_of(fields: Fields<'_>) -> Result<((Fault, u16), Fields<'_>), BlockError>
    ensures { Gives (λ x. x) result (fault_and_place_at fields.entry) }
{
    let (fault, rest) = fault_number_of(fields)?;
    let (place, rest) = place_of(rest)?;
    Ok(((fault, place), rest))
}

fn place_of(fields: Fields<'_>) -> Result<(u16, Fields<'_>), BlockError>
    ensures { Gives (λ x. x) result (place_at fields.entry) }
{
    let (place, rest) = fields.u16(BlockFault::Truncated)?;
    if place > MAX_PLACE {
        return Err(Failure::Fault(BlockFault::Field));
    }
    Ok((place, rest))
}

fn fault_number_of(fields: Fields<'_>) -> Result<(Fault, Fields<'_>), BlockError>
    ensures { Gives (λ x. x) result (one_at fault_number faults fields.entry) }
{
    let (number, rest) = fields.u8(BlockFault::Truncated)?;
    match Fault::numbered(number) {
        Some(fault) => Ok((fault, rest)),
        None => Err(Failure::Fault(BlockFault::Field)),
    }
}

fn why_of(fields: Fields<'_>) -> Result<(Why, Fields<'_>), BlockError>
    ensures { Gives (λ x. x) result (one_at why_number whys fields.entry) }
{
    let (number, rest) = fields.u8(BlockFault::Truncated)?;
    match Why::numbered(number) {
        Some(why) => Ok((why, rest)),
        None => Err(Failure::Fault(BlockFault::Field)),
    }
}
