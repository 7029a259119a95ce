//! That calls keep ledgers in order.

ghost use Rattle.avm_laws.specs.Orderly.{EveryCallKeepsOrder, ReplaysKeepOrder, RulesMakeOrderly};

/// Every call keeps a ledger in order and its next id free, whatever the call is, and brings no deleted application
/// back. A ledger that keeps the rules is such a one.
pub fn every_call_keeps_order()
    ensures call { EveryCallKeepsOrder }
    ensures calls { ReplaysKeepOrder }
    ensures rules { RulesMakeOrderly }
{}
