//! What is answered of what calls of a block do, instruction by instruction.

ghost use Rattle.std.specs.Prelude.{◌≡◌, IfOk, Ok};
ghost use Rattle.avm_ops.specs.OpSets.{IsFull};
ghost use Rattle.json_views.specs.Traces.{Finds, FindsBlock, FindsEntry};
ghost use Rattle.avm_bytes.specs.Shown.{answer_shown};
ghost use Rattle.avm_bytes.specs.TraceAnswers.{IsFoundTrace, IsTraceAnswer, entry_named, trace_status};

use crate::answers::{Answer, done, refusal};
use crate::blocks::ledger_and_block;
use crate::questions::Question;
use crate::statuses::Status;
use avm_block::Block;
use avm_ledger::Base;
use avm_ops::{Op, OpSet, Ops};
use avm_run::FullOps;
use avm_stepper::OpenFault;
use json_views::{TraceRefusal, block_trace, entry_trace};
use std::alloc::{AllocError, Global};
use teal_value::Failure;

/// What the call of an entry does, counted from 1, or where it is 0 what all calls do.
#[derive(Drop)]
pub struct TraceOf<'a> {
    pub ledger: &'a [u8],
    pub block: &'a [u8],
    pub entry: u64,
}

impl Question for TraceOf<'_> {
    type Answer = Answer;

    ghost use Rattle.avm_bytes.specs.BlockAnswers.{ledger_and_block};
    ghost use Rattle.avm_bytes.specs.Shown.{answer_shown};
    ghost use Rattle.avm_bytes.specs.TraceAnswers.{IsTraceAnswer};

    ghost answers = { λ asked answer. IsTraceAnswer asked.entry
        (ledger_and_block asked.ledger.now asked.block.now) (answer_shown answer) };

    fn answer(&self, alloc: Global, ops: OpSet) -> Result<Answer, AllocError> {
        match ledger_and_block(alloc, self.ledger, self.block) {
            Ok((base, block)) => traced_with(alloc, base, &block, self.entry, ops),
            Err(failure) => Ok(refusal(alloc, failure.into_fault()?)),
        }
    }
}

fn traced_with<O: Op>(
    alloc: Global,
    base: Base,
    block: &Block,
    entry: u64,
    ops: Ops<O>,
) -> Result<Answer, AllocError>
    requires full { IsFull O.opcode ops }
    ensures { IfOk result (λ answer.
        IsTraceAnswer entry (Ok (base, block.now)) (answer_shown answer)) }
{
    traced(alloc, base, block, entry, &FullOps::from_full(ops))
}

/// What the call of an entry does, or all calls where the entry is 0.
fn traced<O: Op>(
    alloc: Global,
    base: Base,
    block: &Block,
    entry: u64,
    ops: &FullOps<O>,
) -> Result<Answer, AllocError>
    ensures { IfOk result (λ answer.
        IsFoundTrace (Finds (entry_named entry) (base, block.now)) (answer_shown answer)) }
{
    if entry == 0 {
        return block_answer(alloc, base, block, ops);
    }
    entry_answer(alloc, &base, block, entry as usize, ops)
}

/// What all calls do.
fn block_answer<O: Op>(
    alloc: Global,
    base: Base,
    block: &Block,
    ops: &FullOps<O>,
) -> Result<Answer, AllocError>
    ensures { IfOk result
        (λ answer. IsFoundTrace (FindsBlock (base, block.now)) (answer_shown answer)) }
{
    match block_trace(alloc, base, block, ops) {
        Ok(text) => Ok(done(text.into_bytes())),
        Err(Failure::Fault(why)) => Ok(refusal(alloc, trace_status(why))),
        Err(Failure::Memory) => Err(AllocError),
    }
}

/// What the call of an entry does.
fn entry_answer<O: Op>(
    alloc: Global,
    base: &Base,
    block: &Block,
    number: usize,
    ops: &FullOps<O>,
) -> Result<Answer, AllocError>
    ensures { IfOk result (λ answer.
        IsFoundTrace (FindsEntry (base.now, block.now) number) (answer_shown answer)) }
{
    match entry_trace(alloc, base, block, number, ops) {
        Ok(text) => Ok(done(text.into_bytes())),
        Err(Failure::Fault(why)) => Ok(refusal(alloc, trace_status(why))),
        Err(Failure::Memory) => Err(AllocError),
    }
}

fn trace_status(why: TraceRefusal) -> Status
    ensures { result ≡ trace_status why }
{
    match why {
        TraceRefusal::Opening(OpenFault::NoEntry) => Status::NoEntry,
        TraceRefusal::Opening(OpenFault::WrongBase) => Status::WrongBase,
        TraceRefusal::Opening(OpenFault::NoProgram) => Status::NoRun,
        TraceRefusal::TooLong => Status::TooLong,
        // A block of its own is never below a low mark.
        TraceRefusal::Opening(OpenFault::Pruned) => Status::NoRun,
    }
}
