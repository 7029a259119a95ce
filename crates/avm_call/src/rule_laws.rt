//! What calls that aren't approved do to a ledger, as the contract of a function without work.

ghost use Rattle.avm_call.specs.RuleLaws.{EndsByCompletion, UnapprovedChangesLittle, UnapprovedKeepsRules, UnapprovedWritesLittle};

/// A call that isn't approved writes nothing and changes nothing, but that one which clears, and was not refused, removes
/// the local state that its sender has of the call's application, and no other. The ledger keeps its rules.
pub fn unapproved_calls()
    ensures writes { UnapprovedWritesLittle }
    ensures kinds { EndsByCompletion }
    ensures changes { UnapprovedChangesLittle }
    ensures rules { UnapprovedKeepsRules }
{}
