//! The block of a store.

ghost use Rattle.std.specs.Prelude.{◌≡◌, ◌↔◌, [], IfErr, IfOk, IsTrue, OnOk};
ghost use Rattle.mv_parts.specs.Sealing.{IsJournalOf, IsSealRefusal, IsSealed};
ghost use Rattle.mv_core.specs.Calls.{as_journal};

use crate::store::Store;
use avm_call::Call;
use avm_ledger::{Header, Ledger};
use mv_parts::{SealError, Sealed};
use std::alloc::Global;

/// A store that was not sealed, handed back.
#[derive(Drop)]
pub struct RefusedSeal {
    pub error: SealError,
    pub store: Store,
}

impl Store {
    /// The block of the committed calls, by rising timestamp. It is refused while an attempt is live. It copies the
    /// base, and makes each entry's writes there again, for the digest of the ledger after them.
    pub fn seal(self, alloc: Global) -> Result<Sealed, RefusedSeal>
        ensures sealed { IfOk result
            (λ sealed. IsSealed (as_journal self) sealed.block sealed.numbers.items) }
        ensures over { OnOk result (self.world.live ≡ []) }
        ensures refused { IfErr result (λ refused. IsSealRefusal (as_journal self) refused.error) }
        ensures back { IfErr result (λ refused. refused.store ≡ self) }
    {
        let Store {
            journal,
            held,
            attempts,
        } = self;
        match journal.seal(alloc) {
            Ok(sealed) => Ok(sealed),
            Err(refused) => Err(RefusedSeal {
                error: refused.error,
                store: Store {
                    journal: refused.journal,
                    held,
                    attempts,
                },
            }),
        }
    }

    /// Whether the store is of this ledger, header and calls, and no attempt is live. It takes no memory; it goes
    /// through the ledger and the calls.
    pub fn is_of(&self, base: &Ledger, header: &Header, calls: &[Call]) -> bool
        ensures { IsTrue result ↔ IsJournalOf (as_journal self.now) base.now header.now calls.now }
    {
        self.journal.is_of(base, header, calls)
    }
}
