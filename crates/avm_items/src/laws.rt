//! The laws of questions, each the contract of a function without work. They hold for every kind of result.

ghost use Rattle.avm_items.specs.Counting.{AnswersLeaveLess};
ghost use Rattle.avm_items.specs.PutLaws.{HasWhatWasPut, KeepsOthers, StaysInOrder, HasWhatWasPutLast, IsItsItems};
ghost use Rattle.avm_items.specs.Locality.{UsesWhatItAsks, StaysWithMore, HoldsOnLedgers, AsksForWhatIsUsed, WritesComeFirst, GoesOnInParts, GoesOnOverALedger};

/// What is computed over a ledger depends on the items alone that it asks for.
pub fn uses_what_it_asks<A>()
    ensures { UsesWhatItAsks A }
{}

/// What is computed from some known items is not changed by knowing more.
pub fn stays_with_more<A>()
    ensures { StaysWithMore A }
{}

/// What is computed from some known items is what every ledger gives that agrees with them.
pub fn holds_on_ledgers<A>()
    ensures { HoldsOnLedgers A }
{}

/// The item that is asked for over some known items is used on every ledger that agrees with them.
pub fn asks_for_what_is_used<A>()
    ensures { AsksForWhatIsUsed A }
{}

/// A call's own writes come before what it read.
pub fn writes_come_first<A>()
    ensures { WritesComeFirst A }
{}

/// Two parts, one after the other, over known items and over a ledger.
pub fn goes_on_in_parts<A, B>()
    ensures known { GoesOnInParts A B }
    ensures ledger { GoesOnOverALedger A B }
{}

/// Each answer to a question leaves one item less to ask for, where the values are such as may come.
pub fn answers_leave_less<A>()
    ensures { AnswersLeaveLess A }
{}

/// What an item of a ledger is after it is set, and what every other item is.
pub fn puts_one_item()
    ensures put { HasWhatWasPut }
    ensures others { KeepsOthers }
    ensures order { StaysInOrder }
{}

/// What an item of a ledger is after many are set.
pub fn puts_many_items()
    ensures { HasWhatWasPutLast }
{}

/// Two ledgers with the same items are the same.
pub fn is_its_items()
    ensures { IsItsItems }
{}
