//! What putting items into a ledger gives.

ghost use Rattle.avm_laws.specs.Ledgers.{PutsChanges};

/// The changes between two ledgers, put into the first, give the second.
pub fn changes_lead_on()
    ensures { PutsChanges }
{}
