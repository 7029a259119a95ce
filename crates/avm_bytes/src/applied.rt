//! What is answered of a block that is applied to the ledger before it.

ghost use Rattle.std.specs.Prelude.{◌≡◌, IfOk, Ok};
ghost use Rattle.avm_ops.specs.OpSets.{IsFull};
ghost use Rattle.avm_bytes.specs.Shown.{answer_shown};
ghost use Rattle.avm_bytes.specs.Applied.{IsApplied, applied_by, applied_shown, told_difference, without};

use crate::answers::{Answer, done, refusal};
use crate::blocks::ledger_and_block;
use crate::findings::{Difference, difference_of};
use crate::questions::Question;
use crate::statuses::Status;
use avm_block::Block;
use avm_ledger::Base;
use avm_ops::{Op, OpSet, Ops};
use avm_replay::{Verdict, replay_owned};
use avm_run::FullOps;
use std::alloc::{AllocError, Global};

/// The ledger after a block that agrees.
#[derive(Drop)]
pub struct Apply<'a> {
    pub ledger: &'a [u8],
    pub block: &'a [u8],
}

/// An answer, and the first entry that differs, where one does.
#[derive(Drop)]
pub struct Applied {
    pub answer: Answer,
    pub difference: Option<Difference>,
}

impl Question for Apply<'_> {
    type Answer = Applied;

    ghost use Rattle.avm_bytes.specs.Applied.{IsApplied, applied_shown};
    ghost use Rattle.avm_bytes.specs.BlockAnswers.{ledger_and_block};

    ghost answers = { λ asked applied.
        IsApplied (ledger_and_block asked.ledger.now asked.block.now) (applied_shown applied) };

    fn answer(&self, alloc: Global, ops: OpSet) -> Result<Applied, AllocError> {
        match ledger_and_block(alloc, self.ledger, self.block) {
            Ok((base, block)) => applied_on(alloc, base, &block, ops),
            Err(failure) => Ok(without(refusal(alloc, failure.into_fault()?))),
        }
    }
}

/// An answer alone.
fn without(answer: Answer) -> Applied
    ensures { applied_shown result ≡ without (answer_shown answer) }
{
    Applied {
        answer,
        difference: None,
    }
}

/// The verdict on a block, as an answer.
fn applied_on<O: Op>(
    alloc: Global,
    base: Base,
    block: &Block,
    ops: Ops<O>,
) -> Result<Applied, AllocError>
    requires full { IsFull O.opcode ops }
    ensures { IfOk result (λ applied. IsApplied (Ok (base, block.now)) (applied_shown applied)) }
{
    let verdict = replay_owned(alloc, base, block, &FullOps::from_full(ops))?;
    applied_by(alloc, &verdict)
}

/// What a verdict says.
fn applied_by(alloc: Global, verdict: &Verdict) -> Result<Applied, AllocError>
    ensures { IfOk result (λ applied. applied_shown applied ≡ applied_by verdict.now) }
{
    match verdict {
        Verdict::Agrees(after) => Ok(without(done(after.canonical(alloc)?))),
        Verdict::WrongBase => Ok(without(refusal(alloc, Status::WrongBase))),
        Verdict::WrongOutcome { entry, found } => Ok(Applied {
            answer: refusal(alloc, Status::WrongOutcome),
            difference: Some(difference_of(*entry, *found)),
        }),
        Verdict::WrongState => Ok(without(refusal(alloc, Status::WrongState))),
    }
}

/// Tells C the entry that differs, where one does.
pub fn write_difference(found: Option<Difference>, difference: &mut Difference)
    ensures { difference.new ≡ told_difference difference.old found }
{
    if let Some(found) = found {
        *difference = found;
    }
}
