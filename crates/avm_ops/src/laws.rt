//! The laws of instructions, each the contract of a function without work.

ghost use Rattle.avm_ops.specs.LeftValues.{LeavesItsRow};
ghost use Rattle.avm_ops.specs.Steps.{AsksLittle};
ghost use Rattle.avm_ops.specs.TakenOperands.{Underflows, TestsTypes};

/// An instruction asks for at most three items, and a run goes on behind it; constants change at a block alone.
pub fn asks_little()
    ensures { AsksLittle }
{}

/// The operands that the opcode table names are tested first: whether they are there, and then their types.
pub fn tests_operands_first()
    ensures underflow { Underflows }
    ensures types { TestsTypes }
{}

/// An instruction behind which a run goes on replaces the operands that the opcode table names by values of the kinds that
/// it names, and leaves the stack below them.
pub fn leaves_its_row()
    ensures { LeavesItsRow }
{}
