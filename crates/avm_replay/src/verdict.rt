//! What a replay finds.

use avm_call::Outcome;
use avm_ledger::Ledger;

/// What a replay of a block over a ledger finds. The tests come in this order: the digest of the ledger before, each entry
/// in the order of the timestamps, the digest of the ledger after.
#[derive(Drop)]
pub enum Verdict {
    /// The block replays, and this is the ledger after it.
    Agrees(Ledger),
    /// The block stands over another ledger.
    WrongBase,
    /// An entry's call ends otherwise than the entry says. Entries are numbered from 1.
    WrongOutcome { entry: usize, found: Outcome },
    /// All calls end as the block says, but the ledger after them has another digest.
    WrongState,
}
