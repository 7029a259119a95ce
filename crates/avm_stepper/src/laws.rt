//! The ledger that an entry's call met: the contract of a function without work.

ghost use Rattle.avm_stepper.specs.Laws.{LedgersBeforeAreReplays};

/// The ledger over which an entry's call is opened is the one after the calls of the entries before it, one after
/// another.
pub fn ledgers_before_are_replays()
    ensures { LedgersBeforeAreReplays }
{}
