//! Laws of runs, each the contract of a function without work.

ghost use Rattle.avm_run.specs.FinishedCalls.{IsCallOnLedgers};
ghost use Rattle.avm_run.specs.Showing.{PathsHoldOnLedgers};

use crate::finished::Finished;

/// Where the path of a call's program has come to over the items supplied, and whether it has ended there, it has come to on
/// every ledger that agrees with them. So what a run shows is the path on the ledger that it is supplied from.
pub fn paths_hold_on_ledgers()
    ensures { PathsHoldOnLedgers }
{}

/// On every ledger that has what the call read, the definition gives its outcome, and its writes are what it changes.
pub fn finished_calls_change(finished: &Finished)
    ensures { IsCallOnLedgers finished.now }
{
    finished.holds();
}
