//! The bytes of a ledger: one encoding each.

ghost use Rattle.std.specs.Prelude.{◌≡◌, ◌++◌, Ok, IfOk, OnOk};
ghost use Rattle.teal_value.specs.Answer.{Gives};
ghost use Rattle.avm_ledger.specs.Ledgers.{Ledger as LedgerMaps};
ghost use Rattle.avm_ledger.specs.LedgerReader.{ledger_at};
ghost use Rattle.avm_ledger.specs.LedgerRules.{IsCountable, KeepsRules};
ghost use Rattle.avm_ledger.specs.Encodings.{application_bytes, counted_bytes, ledger_bytes, ledger_digest, local_state_bytes, u32_bytes};

use crate::application::StoredApplication;
use crate::encoding::{put_local_state, put_long_count, put_row, put_state, put_u64};
use crate::ledger::Ledger;
use crate::ledger_fault::LedgerError;
use crate::ledger_reading::parts_of;
use sha2::{Digest, Sha256};
use std::alloc::{AllocError, Global};

impl Ledger {
    /// The ledger that the bytes are. It keeps the rules of ledgers, and each program in it is checked once.
    ///
    /// The first fault in reading order counts. Nothing grows by a count or a length that the bytes do not back.
    pub fn read(alloc: Global, bytes: &[u8]) -> Result<Ledger, LedgerError>
        // The ledger that the grammar reads, or the fault that it names.
        ensures exact { Gives (λ l. l) result (ledger_at bytes.now) }
        // What is read keeps the rules, and is encoded by those very bytes.
        ensures rules { IfOk result (λ l. KeepsRules l) }
        ensures encoded { IfOk result (λ l. ledger_bytes l ≡ bytes.now) }
        // What keeps the rules is read from its encoding, unless memory runs out.
        ensures only { (l : LedgerMaps) → KeepsRules l
            → IsCountable l → bytes.now ≡ ledger_bytes l → Gives (λ x. x) result (Ok l) }
    {
        ledger_of(alloc, bytes)
    }

    /// The ledger's one encoding. Of a count or a length that has no room in its field, the low bytes are written; a
    /// ledger that keeps the rules has none.
    pub fn canonical(&self, alloc: Global) -> Result<Vec<u8>, AllocError>
        ensures { IfOk result (λ bytes. bytes.items ≡ ledger_bytes self.now) }
    {
        let mut bytes = Vec::new(alloc);
        put_u64(&mut bytes, self.next_id())?;
        put_applications(&mut bytes, self)?;
        put_local_states(&mut bytes, self)?;
        Ok(bytes)
    }

    /// The SHA-256 of the ledger's encoding (FIPS 180-4).
    pub fn digest(&self, alloc: Global) -> Result<[u8; 32], AllocError>
        ensures { IfOk result (λ digest. digest ≡ ledger_digest self.now) }
    {
        let bytes = self.canonical(alloc)?;
        Ok(Sha256::digest(bytes.as_slice()))
    }
}

fn ledger_of(alloc: Global, bytes: &[u8]) -> Result<Ledger, LedgerError>
    ensures { Gives (λ l. l) result (ledger_at bytes.now) }
{
    let parts = parts_of(alloc, bytes)?;
    Ok(Ledger::from_parts(parts.next_id, parts.applications, parts.local_states))
}

fn put_applications(bytes: &mut Vec<u8>, ledger: &Ledger) -> Result<(), AllocError>
    ensures { OnOk result (bytes.new.items
        ≡ bytes.old.items ++ counted_bytes u32_bytes application_bytes ledger.now.applications) }
{
    put_long_count(bytes, ledger.application_count())?;
    for (id, application) in ledger.applications() {
        put_application(bytes, *id, application)?;
    }
    Ok(())
}

fn put_application(
    bytes: &mut Vec<u8>,
    id: u64,
    application: &StoredApplication,
) -> Result<(), AllocError>
    ensures { OnOk result
        (bytes.new.items ≡ bytes.old.items ++ application_bytes (id, application.now)) }
{
    put_u64(bytes, id)?;
    put_row(bytes, application.row.get())?;
    put_state(bytes, &application.state)
}

fn put_local_states(bytes: &mut Vec<u8>, ledger: &Ledger) -> Result<(), AllocError>
    ensures { OnOk result (bytes.new.items
        ≡ bytes.old.items ++ counted_bytes u32_bytes local_state_bytes ledger.now.local_states) }
{
    put_long_count(bytes, ledger.local_state_count())?;
    for (key, state) in ledger.local_states() {
        put_local_state(bytes, key, state.get())?;
    }
    Ok(())
}
