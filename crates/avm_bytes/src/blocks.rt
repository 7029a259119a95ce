//! What is answered of blocks over the ledgers before them: a replay, and the ledger at a timestamp.

ghost use Rattle.std.specs.Prelude.{IfOk, Ok};
ghost use Rattle.avm_ops.specs.OpSets.{IsFull};
ghost use Rattle.teal_value.specs.Answer.{Gives};
ghost use Rattle.avm_bytes.specs.BlockAnswers.{block_of, ledger_and_block, ledger_of, past_ledger};
ghost use Rattle.avm_bytes.specs.Findings.{IsFinding};

use crate::answers::{Answer, done, refusal};
use crate::findings::{Finding, difference_of};
use crate::questions::Question;
use crate::statuses::Status;
use avm_block::{Block, decode};
use avm_ledger::{Base, Ledger};
use avm_ops::{Op, OpSet, Ops};
use avm_replay::{Verdict, replay_owned, state_at_owned};
use avm_run::FullOps;
use std::alloc::{AllocError, Global};
use teal_value::Failure;

/// Whether a block replays over a ledger.
#[derive(Drop)]
pub struct Replay<'a> {
    pub ledger: &'a [u8],
    pub block: &'a [u8],
}

impl Question for Replay<'_> {
    type Answer = Finding;

    ghost use Rattle.avm_bytes.specs.BlockAnswers.{ledger_and_block};
    ghost use Rattle.avm_bytes.specs.Findings.{IsFinding};

    ghost answers = { λ asked. IsFinding (ledger_and_block asked.ledger.now asked.block.now) };

    fn answer(&self, alloc: Global, ops: OpSet) -> Result<Finding, AllocError> {
        match ledger_and_block(alloc, self.ledger, self.block) {
            Ok((base, block)) => finding_on(alloc, base, &block, ops),
            Err(failure) => Ok(Finding::Other(failure.into_fault()?)),
        }
    }
}

/// The ledger after the calls of a block with timestamps up to this one.
#[derive(Drop)]
pub struct State<'a> {
    pub ledger: &'a [u8],
    pub block: &'a [u8],
    pub timestamp: u64,
}

impl Question for State<'_> {
    type Answer = Answer;

    ghost use Rattle.std.specs.Prelude.{◌≡◌};
    ghost use Rattle.avm_bytes.specs.BlockAnswers.{ledger_and_block, state_answer_at};
    ghost use Rattle.avm_bytes.specs.Shown.{answer_shown};

    ghost answers = { λ asked answer. answer_shown answer
        ≡ state_answer_at asked.timestamp (ledger_and_block asked.ledger.now asked.block.now) };

    fn answer(&self, alloc: Global, ops: OpSet) -> Result<Answer, AllocError> {
        match past_ledger(alloc, self.ledger, self.block, self.timestamp, ops) {
            Ok(ledger) => Ok(done(ledger.canonical(alloc)?)),
            Err(failure) => Ok(refusal(alloc, failure.into_fault()?)),
        }
    }
}

/// The ledger and the block that bytes are. The ledger is read first.
pub fn ledger_and_block(
    alloc: Global,
    ledger: &[u8],
    block: &[u8],
) -> Result<(Base, Block), Failure<Status>>
    ensures { Gives (λ both. both) result (ledger_and_block ledger.now block.now) }
{
    let base = ledger_of(alloc, ledger)?;
    let block = block_of(alloc, block)?;
    Ok((base, block))
}

fn ledger_of(alloc: Global, bytes: &[u8]) -> Result<Base, Failure<Status>>
    ensures { Gives (λ base. base) result (ledger_of bytes.now) }
{
    Base::read(alloc, bytes).map_err(|failure| failure.map(|_fault| Status::NoLedger))
}

fn block_of(alloc: Global, bytes: &[u8]) -> Result<Block, Failure<Status>>
    ensures { Gives (λ block. block) result (block_of bytes.now) }
{
    decode(alloc, bytes).map_err(|failure| failure.map(|_fault| Status::NoBlock))
}

/// The verdict on a block, as a finding.
fn finding_on<O: Op>(
    alloc: Global,
    base: Base,
    block: &Block,
    ops: Ops<O>,
) -> Result<Finding, AllocError>
    requires full { IsFull O.opcode ops }
    ensures { IfOk result (IsFinding (Ok (base, block.now))) }
{
    match replay_owned(alloc, base, block, &FullOps::from_full(ops))? {
        Verdict::Agrees(_after) => Ok(Finding::Agrees(*block.after())),
        Verdict::WrongBase => Ok(Finding::Other(Status::WrongBase)),
        Verdict::WrongOutcome { entry, found } => {
            Ok(Finding::Differs(difference_of(entry, found)))
        }
        Verdict::WrongState => Ok(Finding::Other(Status::WrongState)),
    }
}

fn past_ledger<O: Op>(
    alloc: Global,
    ledger: &[u8],
    block: &[u8],
    timestamp: u64,
    ops: Ops<O>,
) -> Result<Ledger, Failure<Status>>
    requires full { IsFull O.opcode ops }
    ensures { Gives (λ l. l) result
        (past_ledger timestamp (ledger_and_block ledger.now block.now)) }
{
    let (base, block) = ledger_and_block(alloc, ledger, block)?;
    match state_at_owned(alloc, base, &block, timestamp, &FullOps::from_full(ops)) {
        Ok(past) => Ok(past),
        Err(Failure::Fault(_fault)) => Err(Failure::Fault(Status::WrongBase)),
        Err(Failure::Memory) => Err(Failure::Memory),
    }
}
