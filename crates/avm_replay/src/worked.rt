//! The definitions, computed on a block with known verdicts: each function has no work, and its contract is what the
//! definitions give. Digests are compared as they stand, and not opened.

ghost use Rattle.avm_ledger.specs.Ledgers.{empty_ledger};
ghost use Rattle.avm_call.specs.declared.outcome.Outcome.TheVariants as outcome;
ghost use Rattle.avm_replay.specs.declared.verdict.Verdict.TheVariants as verdict;
ghost use Rattle.avm_replay.specs.Verdicts.{Judges};
ghost use Rattle.avm_replay.specs.WorkedVerdicts.{block_of_creation, ledger_after_creation};

/// The block of one approved creation over the ledger without applications agrees; the block that says of it that it was
/// rejected is wrong at its first entry.
pub fn verdicts()
    ensures agrees { Judges empty_ledger
        (block_of_creation outcome.Approved) (verdict.Agrees ledger_after_creation) }
    ensures wrong_outcome { Judges empty_ledger
        (block_of_creation outcome.Rejected) (verdict.WrongOutcome 1 outcome.Approved) }
{}
