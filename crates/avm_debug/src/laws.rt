//! The ledger that a committed call of a store met: the contract of a function without work.

ghost use Rattle.avm_debug.specs.Laws.{LiveLedgersBeforeAreReplays};

/// The ledger over which a store's committed call is opened is the one after the committed calls before it, one after
/// another. That a store's entries rise is told by `mv_core::Store::holds`.
pub fn live_ledgers_before_are_replays()
    ensures { LiveLedgersBeforeAreReplays }
{}
