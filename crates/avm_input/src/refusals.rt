//! Why an input of lines of digits is refused, and what is answered to it.

ghost use Rattle.std.specs.Prelude.{◌≡◌, ◌++◌, IfOk, codes, string_bytes};
ghost use Rattle.avm_input.specs.Refusals.{call_text, check_place, check_text, refusal_reply, refusal_text};
ghost use Rattle.avm_input.specs.Shown.{reply_shown};

use crate::call_line::CallLineFault;
use crate::replies::{REFUSED, Reply};
use avm_block::{BlockFault, OpenFault, StateFault};
use avm_ledger::LedgerFault;
use std::alloc::{AllocError, Global};
use teal_check::CheckFault;

/// Why an input of lines of digits is refused.
#[derive(Clone, Copy, Debug, PartialEq, Eq)]
pub enum Refusal {
    /// The line of this number has another character than digits, or an odd count of them.
    Hex(usize),
    /// There is a line too many, or too few.
    Lines,
    /// The program breaks this rule.
    Check(CheckFault),
    /// The ledger has this fault.
    Ledger(LedgerFault),
    /// The block has this fault.
    Block(BlockFault),
    /// There is no ledger of the past.
    State(StateFault),
    /// The line for the header has more or fewer than its 40 bytes.
    Header,
    /// The call of this number, counted from 1, has this fault.
    Call(usize, CallLineFault),
    /// The call of an entry is not opened in a debugger.
    Opening(OpenFault),
    /// The program of a call ends before so many steps.
    Ended,
}

/// What is answered to a refused input.
pub fn refusal_reply(alloc: Global, refusal: Refusal) -> Result<Reply, AllocError>
    ensures { IfOk result (λ reply. reply_shown reply ≡ refusal_reply refusal) }
{
    let text = refusal_text(alloc, refusal)?;
    Ok(Reply {
        text: text.into_bytes(),
        status: REFUSED,
    })
}

fn refusal_text(alloc: Global, refusal: Refusal) -> Result<String, AllocError>
    ensures { IfOk result (λ text. string_bytes text ≡ refusal_text refusal) }
{
    match refusal {
        Refusal::Hex(line) => format!(in alloc; "refused hex {line}\n"),
        Refusal::Lines => String::from_str(alloc, "refused lines\n"),
        Refusal::Check(fault) => check_text(alloc, fault),
        Refusal::Ledger(fault) => named_text(alloc, "ledger", fault.name()),
        Refusal::Block(fault) => named_text(alloc, "block", fault.name()),
        Refusal::State(fault) => named_text(alloc, "state", fault.name()),
        Refusal::Header => String::from_str(alloc, "refused header\n"),
        Refusal::Call(number, fault) => call_text(alloc, number, fault),
        Refusal::Opening(fault) => named_text(alloc, "debug", fault.name()),
        Refusal::Ended => named_text(alloc, "debug", "Ended"),
    }
}

/// The refusal of a part of the input, by the name of its fault.
fn named_text(alloc: Global, part: &str, fault: &str) -> Result<String, AllocError>
    ensures { IfOk result (λ text. string_bytes text
        ≡ codes "refused " ++ (part.now ++ (codes " " ++ (fault.now ++ codes "\n")))) }
{
    format!(in alloc; "refused {part} {fault}\n")
}

fn check_text(alloc: Global, fault: CheckFault) -> Result<String, AllocError>
    ensures { IfOk result (λ text. string_bytes text ≡ check_text fault) }
{
    let name = fault.name();
    match check_place(fault) {
        Some(place) => format!(in alloc; "refused check {name} {place}\n"),
        None => format!(in alloc; "refused check {name}\n"),
    }
}

fn call_text(alloc: Global, number: usize, fault: CallLineFault) -> Result<String, AllocError>
    ensures { IfOk result (λ text. string_bytes text ≡ call_text number fault) }
{
    let name = fault.name();
    format!(in alloc; "refused call {number} {name}\n")
}

/// The place of the instruction that breaks the rule, where the rule is one of instructions.
pub fn check_place(fault: CheckFault) -> Option<u16>
    ensures { result ≡ check_place fault }
{
    match fault {
        CheckFault::Code { place, .. }
        | CheckFault::OutOfProfile { place }
        | CheckFault::Backward { place }
        | CheckFault::NotAligned { place }
        | CheckFault::PastEnd { place }
        | CheckFault::UnknownField { place } => Some(place),
        CheckFault::Version | CheckFault::Length | CheckFault::Cost => None,
    }
}
