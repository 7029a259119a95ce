//! What keeps the rules of ledgers, each law the contract of a function without work.

ghost use Rattle.avm_items.specs.RuleLaws.{EmptyKeepsRules, RulesStay, RulesStayAfterAll};

/// The rules stay where an item is set to a value that keeps them, and so where many are.
pub fn rules_stay()
    ensures empty { EmptyKeepsRules }
    ensures one { RulesStay }
    ensures all { RulesStayAfterAll }
{}
