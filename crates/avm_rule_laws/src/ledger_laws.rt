//! In which order items may be put into a ledger.

ghost use Rattle.avm_rule_laws.specs.PutOrder.{OrderDoesNotMatter};

/// The same items with the same values, each once, give the same ledger in whatever order they are put.
pub fn order_does_not_matter()
    ensures { OrderDoesNotMatter }
{}
