//! What is answered of a call of a block, so many steps on.

ghost use Rattle.std.specs.Prelude.{◌≡◌, IfOk, Ok};
ghost use Rattle.avm_ops.specs.OpSets.{IsFull};
ghost use Rattle.avm_bytes.specs.Shown.{answer_shown};
ghost use Rattle.avm_bytes.specs.ViewAnswers.{IsViewAnswer, view_status};

use crate::answers::{Answer, done, refusal};
use crate::blocks::ledger_and_block;
use crate::questions::Question;
use crate::statuses::Status;
use avm_block::Block;
use avm_commands::{DebugPoint, view_found};
use avm_input::Refusal;
use avm_ledger::Base;
use avm_ops::{Op, OpSet, Ops};
use avm_run::FullOps;
use avm_stepper::OpenFault;
use std::alloc::{AllocError, Global};
use teal_value::Failure;

/// What stands where the program of an entry's call is after so many steps. Entries are counted from 1.
#[derive(Drop)]
pub struct ViewAfter<'a> {
    pub ledger: &'a [u8],
    pub block: &'a [u8],
    pub entry: u64,
    pub steps: u64,
}

impl Question for ViewAfter<'_> {
    type Answer = Answer;

    ghost use Rattle.avm_bytes.specs.BlockAnswers.{ledger_and_block};
    ghost use Rattle.avm_bytes.specs.Shown.{answer_shown};
    ghost use Rattle.avm_bytes.specs.ViewAnswers.{IsViewAnswer};

    ghost answers = { λ asked answer. IsViewAnswer asked.entry asked.steps
        (ledger_and_block asked.ledger.now asked.block.now) (answer_shown answer) };

    fn answer(&self, alloc: Global, ops: OpSet) -> Result<Answer, AllocError> {
        match ledger_and_block(alloc, self.ledger, self.block) {
            Ok((base, block)) => {
                let point = DebugPoint {
                    number: self.entry as usize,
                    steps: self.steps,
                };
                view_of(alloc, &base, &block, point, ops)
            }
            Err(failure) => Ok(refusal(alloc, failure.into_fault()?)),
        }
    }
}

fn view_of<O: Op>(
    alloc: Global,
    base: &Base,
    block: &Block,
    point: DebugPoint,
    ops: Ops<O>,
) -> Result<Answer, AllocError>
    requires full { IsFull O.opcode ops }
    ensures { IfOk result (λ answer.
        IsViewAnswer point.number point.steps (Ok (base.now, block.now)) (answer_shown answer)) }
{
    match view_found(alloc, base, block, point, &FullOps::from_full(ops)) {
        Ok(text) => Ok(done(text.into_bytes())),
        Err(Failure::Fault(why)) => Ok(refusal(alloc, view_status(why))),
        Err(Failure::Memory) => Err(AllocError),
    }
}

/// The status of a refusal that a view may have.
fn view_status(why: Refusal) -> Status
    ensures { result ≡ view_status why }
{
    match why {
        Refusal::Opening(OpenFault::NoEntry) => Status::NoEntry,
        Refusal::Opening(OpenFault::WrongBase) => Status::WrongBase,
        Refusal::Opening(OpenFault::NoProgram) => Status::NoRun,
        Refusal::Ended => Status::Ended,
        // A view has no other refusal.
        _ => Status::NoRun,
    }
}
