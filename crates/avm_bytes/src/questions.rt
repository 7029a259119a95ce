//! Questions that want an object of every opcode.

ghost use Rattle.std.specs.Prelude.{IfOk};
ghost use Rattle.avm_ops.specs.OpSets.{IsFull};

use avm_ops::{BoxedOp, Op, OpSet};
use std::alloc::{AllocError, Global};

/// What is asked of the machine.
pub trait Question {
    /// What is answered.
    type Answer;

    /// Which answers are right.
    ghost answers: { Self → Self.Answer → Type 0 };

    /// Answers it, with an object of every opcode.
    fn answer(&self, alloc: Global, ops: OpSet) -> Result<Self::Answer, AllocError>
        requires full { IsFull ⟦<BoxedOp as Op>⟧.opcode ops }
        ensures { IfOk result (answers self.now) };
}
