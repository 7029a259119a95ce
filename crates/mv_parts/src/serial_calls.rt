//! The order theorem for calls on a ledger: whatever attempts begin, read, commit, abandon and prune, the committed
//! calls, made one after another by rising timestamp, are a replay by the definition of a call. The statement and
//! what it needs stand in specs/SerialCalls.antt. It takes the theorem of mv_history at the items, values and
//! outcomes of ledgers (specs/CallHistory.antt), with the laws of calls over look-ups of a ledger (specs/CallLaws.antt).
//! Each function is a law and does no work.

ghost use Rattle.avm_items.specs.declared.item.Item.{Item as ItemOf};
ghost use Rattle.avm_items.specs.declared.item_value.ItemValue.{ItemValue as ValueOf};
ghost use Rattle.avm_call.specs.declared.outcome.Outcome.{Outcome as OutcomeOf};
ghost use Rattle.avm_laws.specs.LedgerLooks.{IsOfLedger};
ghost use Rattle.mv_history.specs.Serial.{EveryInterleavingIsSerial};
ghost use Rattle.mv_parts.specs.CallLaws.{CallsLeaveLookups, FinishedCallsAreEntries, HistoriesAreReplays, ItemsHaveAnEquality};
ghost use Rattle.mv_parts.specs.SerialCalls.{EveryConsistentWorldOfCallsIsSerial, EveryEventOfCallsLeadsOn, EveryInterleavingOfCallsIsSerial};

use avm_call::Outcome;
use avm_items::{Item, ItemValue};
use mv_history::{ProperLookups, every_consistent_world_is_serial, every_interleaving_is_serial};

/// The look-ups of ledgers are the proper ones.
pub struct LedgerLookups;

impl ProperLookups<Item, ItemValue> for LedgerLookups {
    ghost use Rattle.avm_laws.specs.LedgerLooks.{IsOfLedger};

    ghost is_proper = { IsOfLedger };
}

/// However attempts of calls are interleaved, the committed calls are those of one thread: made one after another on
/// the ledger, by rising timestamp, they end as their entries say, and the newest versions are the ledger that they
/// leave. So are the versions of each earlier timestamp.
pub fn every_interleaving_of_calls_is_serial()
    ensures serial { EveryInterleavingOfCallsIsSerial }
    ensures leads { EveryEventOfCallsLeadsOn }
{
    order_theorem();
}

/// So they are in every world in which the facts hold that events keep: what a store keeps in its type is enough.
pub fn every_consistent_world_of_calls_is_serial()
    ensures { EveryConsistentWorldOfCallsIsSerial }
{
    every_consistent_world_is_serial::<Item, ItemValue, Outcome, LedgerLookups>();
}

/// The order theorem, at the items, values and outcomes of ledgers.
pub fn order_theorem()
    ensures serial { EveryInterleavingIsSerial ItemOf ValueOf OutcomeOf IsOfLedger }
    ensures equality { ItemsHaveAnEquality }
{
    every_interleaving_is_serial::<Item, ItemValue, Outcome, LedgerLookups>();
}

/// A call over a look-up of a ledger is the call on the ledger, and its writes leave a look-up of the ledger after,
/// creations and deletions included.
pub fn calls_leave_lookups()
    ensures { CallsLeaveLookups }
{}

/// A finished call is an entry, and a history of calls that replays is their replay on the ledger.
pub fn histories_are_replays()
    ensures entries { FinishedCallsAreEntries }
    ensures replays { HistoriesAreReplays }
{}
