//! What calls write, ask for and change.

ghost use Rattle.avm_laws.specs.Calls.{AsksForNoneGone, CallsAskForWhatIsUsed, ChangesWhatItRead, EndsAlike, HandsOnItsChanges, HasWhatWasWritten, IsAskedForAnswers, LosesNoWrite};
ghost use Rattle.avm_laws.specs.KnownValues.{KnowsTheLedger};
ghost use Rattle.avm_laws.specs.LedgerLooks.{CallsAreTheLedgers, LedgersAreLooks};

/// At each step of a call's program the ledger with its own writes has what was written, the counts with the keys.
pub fn writes_are_items()
    ensures { HasWhatWasWritten }
{}

/// No call asks for a key or the counts of an application that is gone.
pub fn none_gone_is_asked_for()
    ensures { AsksForNoneGone }
{}

/// A call hands on exactly what it changes.
pub fn changes_are_handed_on()
    ensures changes { HandsOnItsChanges }
    ensures all { LosesNoWrite }
{}

/// What is asked for over what was read is used on every ledger that has it; what was read stays what was asked for, with each
/// answer.
pub fn questions_are_used()
    ensures used { CallsAskForWhatIsUsed }
    ensures answers { IsAskedForAnswers }
{}

/// A call that has ended over what it read ends so on every ledger that has what was read, with these changes.
pub fn reads_decide()
    ensures result { EndsAlike }
    ensures changes { ChangesWhatItRead }
{}

/// What a run knows of an item, by its own writes or by what it read, is the item's value in the ledger with its own writes.
pub fn runs_know_the_ledger()
    ensures { KnowsTheLedger }
{}

/// A call over a look-up that has what a ledger has is the call over the ledger, whatever keys and counts of deleted
/// applications the look-up still has, as a store of versions may.
pub fn calls_over_looks()
    ensures ledgers { LedgersAreLooks }
    ensures calls { CallsAreTheLedgers }
{}
