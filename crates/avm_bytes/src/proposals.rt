//! What is answered of calls that are made one after another: their block.

ghost use Rattle.std.specs.Prelude.{◌≡◌, IfOk, Ok};
ghost use Rattle.teal_value.specs.Answer.{Gives};
ghost use Rattle.avm_ops.specs.OpSets.{IsFull};
ghost use Rattle.avm_bytes.specs.Proposals.{IsProposed, calls_on_ledger, calls_shown, no_block, not_proposed, proposed_shown};

use crate::answers::{Answer, done, refusal};
use crate::attempts::header_of;
use crate::calls::ledger_in;
use crate::listed_calls::calls_of;
use crate::questions::Question;
use crate::statuses::Status;
use crate::troubles::{Refused, Trouble, trouble_at};
use avm_block::{CallsFault, encode};
use avm_call::Call;
use avm_ledger::{Header, Ledger};
use avm_ops::{Op, OpSet, Ops};
use avm_replay::plain_block;
use avm_run::FullOps;
use std::alloc::{AllocError, Global};
use teal_value::Failure;

/// Calls that are made on a ledger one after another, as bytes.
#[derive(Drop)]
pub struct Propose<'a> {
    pub ledger: &'a [u8],
    pub header: &'a [u8],
    pub calls: &'a [u8],
}

/// What the bytes of such calls are.
#[derive(Drop)]
pub struct CallsOnLedger {
    pub ledger: Ledger,
    pub header: Header,
    pub calls: Vec<Call>,
}

/// An answer, and what is wrong with which call, where one is none.
#[derive(Drop)]
pub struct Proposed {
    pub answer: Answer,
    pub trouble: Option<Trouble>,
}

impl Question for Propose<'_> {
    type Answer = Proposed;

    ghost use Rattle.avm_bytes.specs.Proposals.{IsProposed, calls_on_ledger, proposed_shown};

    ghost answers = { λ asked proposed. IsProposed
        (calls_on_ledger asked.ledger.now asked.header.now asked.calls.now) (proposed_shown proposed) };

    fn answer(&self, alloc: Global, ops: OpSet) -> Result<Proposed, AllocError> {
        match calls_on_ledger(alloc, self.ledger, self.header, self.calls) {
            Ok(asked) => proposed_by(alloc, asked, ops),
            Err(failure) => Ok(not_proposed(alloc, failure.into_fault()?)),
        }
    }
}

/// What the bytes are. The ledger is read first, then the header, then the calls.
fn calls_on_ledger(
    alloc: Global,
    ledger: &[u8],
    header: &[u8],
    calls: &[u8],
) -> Result<CallsOnLedger, Failure<Refused>>
    ensures { Gives calls_shown result (calls_on_ledger ledger.now header.now calls.now) }
{
    let ledger = ledger_in(alloc, ledger)?;
    let header = header_of(header)?;
    let calls = calls_of(alloc, calls)?;
    Ok(CallsOnLedger {
        ledger,
        header,
        calls,
    })
}

/// Makes the calls, and answers their block.
fn proposed_by<O: Op>(
    alloc: Global,
    asked: CallsOnLedger,
    ops: Ops<O>,
) -> Result<Proposed, AllocError>
    requires full { IsFull O.opcode ops }
    ensures { IfOk result (λ p. IsProposed (Ok (calls_shown asked)) (proposed_shown p)) }
{
    let CallsOnLedger {
        ledger,
        header,
        calls,
    } = asked;
    match plain_block(alloc, &ledger, &header, calls, &FullOps::from_full(ops)) {
        Ok(block) => Ok(Proposed {
            answer: done(encode(alloc, &block)?),
            trouble: None,
        }),
        Err(Failure::Fault(fault)) => Ok(not_proposed(alloc, no_block(fault))),
        Err(Failure::Memory) => Err(AllocError),
    }
}

/// That the bytes are none, or make no block.
fn not_proposed(alloc: Global, why: Refused) -> Proposed
    ensures { proposed_shown result ≡ not_proposed why }
{
    Proposed {
        answer: refusal(alloc, why.status),
        trouble: match why.status {
            Status::NoCall => Some(why.trouble),
            _ => None,
        },
    }
}

/// That calls make no block, for this reason.
fn no_block(fault: CallsFault) -> Refused
    ensures { result ≡ no_block fault }
{
    let trouble = match fault {
        CallsFault::TooMany => trouble_at(0, 33),
        CallsFault::Profile { number } => trouble_at(u64::from(number), 34),
    };
    Refused {
        status: Status::NoCall,
        trouble,
    }
}
