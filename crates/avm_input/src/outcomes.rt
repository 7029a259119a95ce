//! Outcomes in words.

ghost use Rattle.std.specs.Prelude.{◌≡◌, IfOk, string_bytes};
ghost use Rattle.avm_input.specs.Outcomes.{cause_text, faulted_text, outcome_text};

use avm_call::{Cause, Outcome};
use std::alloc::{AllocError, Global};
use teal_value::Fault;

/// An outcome in words.
pub fn outcome_text(alloc: Global, outcome: Outcome) -> Result<String, AllocError>
    ensures { IfOk result (λ text. string_bytes text ≡ outcome_text outcome) }
{
    match outcome {
        Outcome::Approved => String::from_str(alloc, "approved"),
        Outcome::Rejected => String::from_str(alloc, "rejected"),
        Outcome::Faulted(fault, place) => faulted_text(alloc, fault, place),
        Outcome::Refused(why) => {
            let name = why.name();
            format!(in alloc; "refused {name}")
        }
        Outcome::ClearedAnyway(cause) => {
            let cause = cause_text(alloc, cause)?;
            format!(in alloc; "cleared {cause}")
        }
    }
}

fn cause_text(alloc: Global, cause: Cause) -> Result<String, AllocError>
    ensures { IfOk result (λ text. string_bytes text ≡ cause_text cause) }
{
    match cause {
        Cause::Gone => String::from_str(alloc, "gone"),
        Cause::Rejected => String::from_str(alloc, "rejected"),
        Cause::Faulted(fault, place) => faulted_text(alloc, fault, place),
    }
}

fn faulted_text(alloc: Global, fault: Fault, place: u16) -> Result<String, AllocError>
    ensures { IfOk result (λ text. string_bytes text ≡ faulted_text fault place) }
{
    let name = fault.name();
    format!(in alloc; "faulted {name} {place}")
}
