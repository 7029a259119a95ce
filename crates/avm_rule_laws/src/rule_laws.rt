//! That calls keep the rules of ledgers, and their runs the bounds of the stack and of byte strings.

ghost use Rattle.avm_rule_laws.specs.Bounds.{RunsStayWithinBounds};
ghost use Rattle.avm_rule_laws.specs.ReadBlocks.{ReadBlocksLeadToReadableLedgers};
ghost use Rattle.avm_rule_laws.specs.Rules.{CheckedCallsBringPrograms, EmptyIsSound, EveryCallKeepsTheRules, ReadCallsAreOfBytes, ReadLedgersAreSound, ReplayedLedgersReadBack, ReplaysKeepTheRules, WritesKeepTheRules};

/// At each step of a call's program the ledger with its own writes keeps the rules: values are within 64 bits and 64 bytes,
/// and states within their schemas.
pub fn writes_keep_the_rules()
    ensures { WritesKeepTheRules }
{}

/// Every call keeps the rules: a creation, an opt-in, a clearing of state, and any other, approved or not.
pub fn every_call_keeps_the_rules()
    ensures call { EveryCallKeepsTheRules }
    ensures calls { ReplaysKeepTheRules }
{}

/// A ledger that calls lead to from one that keeps the rules is read back from its bytes.
pub fn replayed_ledgers_read_back()
    ensures { ReplayedLedgersReadBack }
{}

/// The ledger that a block leads to, after all its calls or the first of them, is read back from its bytes: the block and the
/// ledger before it were read from bytes, and nothing else is asked of them.
pub fn read_blocks_lead_to_readable_ledgers()
    ensures { ReadBlocksLeadToReadableLedgers }
{}

/// The first ledger keeps the rules, and so do ledgers that are read.
pub fn ledgers_begin_sound()
    ensures empty { EmptyIsSound }
    ensures read { ReadLedgersAreSound }
{}

/// Calls that are read are of bytes.
pub fn calls_are_of_bytes()
    ensures { ReadCallsAreOfBytes }
{}

/// A call that breaks no rule of calls brings what it has to.
pub fn checked_calls_bring_programs()
    ensures { CheckedCallsBringPrograms }
{}

/// A call that breaks no rule of calls, over a ledger that keeps the rules, never has more than 1000 values on its stack, nor
/// a byte string of more than 4096 bytes there or in its scratch space.
pub fn runs_stay_within_bounds()
    ensures { RunsStayWithinBounds }
{}
