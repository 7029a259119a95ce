//! What ties the versions of one item to the entries of a history: each version held is an entry's, and the newest
//! not above a timestamp is the one that the order theorem speaks of, from the low mark on. The events keep that:
//! what a chain does at a read, a commit and a prune is what the events of specs/World.antt in mv_history mean. The
//! definition is in specs/Agreement.antt, the laws of one item in specs/AgreementLaws.antt, those of a store of many
//! items in specs/Stores.antt; each function is a law and does no work.

ghost use Rattle.mv_chain.specs.Stores.{EveryCommitLeavesAStore, EveryPruneLeavesAStore, EveryReadLeavesAStore};
ghost use Rattle.mv_chain.specs.AgreementLaws.{EveryFirstVersionAgrees, EveryReadKeepsAgreement, NoVersionIsAtAFreshTimestamp, EveryCommitKeepsAgreement, EveryPruneKeepsAgreement, EveryWriteFollowsTheVersionBelow};

use mv_history::ProperLookups;

/// Before any commit the base's version alone agrees.
pub fn every_first_version_agrees<Item, Value, Outcome, V>()
    ensures { EveryFirstVersionAgrees Item Value Outcome V }
{}

/// A read finds the version that the entries have below the next timestamp, and leaves its mark there.
pub fn every_read_keeps_agreement<Item, Value, Outcome, V>()
    ensures { EveryReadKeepsAgreement Item Value Outcome V }
{}

/// To install an entry's writes in the chains of their items is the entry's commit. Where its timestamp is no other
/// entry's, no chain has a version there.
pub fn every_commit_keeps_agreement<Item, Value, Outcome, V>()
    ensures commit { EveryCommitKeepsAgreement Item Value Outcome V }
    ensures fresh { NoVersionIsAtAFreshTimestamp Item Value Outcome V }
    ensures follows { EveryWriteFollowsTheVersionBelow Item Value Outcome V }
{}

/// Pruning keeps what is needed from the new low mark on.
pub fn every_prune_keeps_agreement<Item, Value, Outcome, V>()
    ensures { EveryPruneKeepsAgreement Item Value Outcome V }
{}

/// A store that keeps chains for its items, and does at each event what the event means for them, keeps the facts of
/// the order theorem with the marks of its own versions. Beginning and abandoning touch no chain.
pub fn every_event_leaves_a_store<Item, Value, Outcome, V, P: ProperLookups<Item, Value>>()
    ensures read { EveryReadLeavesAStore Item Value Outcome V P.is_proper }
    ensures commit { EveryCommitLeavesAStore Item Value Outcome V P.is_proper }
    ensures prune { EveryPruneLeavesAStore Item Value Outcome V P.is_proper }
{}
