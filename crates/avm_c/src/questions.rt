//! Answers to questions, by an object of every opcode.

ghost use Rattle.std.specs.Prelude.{IfOk};

use avm_bytes::questions::Question;
use avm_objects::filled_set;
use avm_ops::{Op, OpSet};
use std::alloc::{AllocError, Global};

/// The answer to a question, for which the set of objects is filled.
pub fn ask<Q: Question>(alloc: Global, question: &Q) -> Result<Q::Answer, AllocError>
    ensures { IfOk result (Q.answers question.now) }
{
    let ops = filled_set!(alloc, Err(AllocError));
    ask_with(alloc, question, ops)
}

fn ask_with<Q: Question>(alloc: Global, question: &Q, ops: OpSet) -> Result<Q::Answer, AllocError>
    ensures { IfOk result (Q.answers question.now) }
{
    if ops.missing().is_some() {
        return Err(AllocError);
    }
    question.answer(alloc, ops)
}
