//! Ledgers with their digests.

ghost use Rattle.std.specs.Prelude.{◌≡◌, IfOk};
ghost use Rattle.teal_value.specs.Answer.{Gives};
ghost use Rattle.avm_ledger.specs.LedgerReader.{ledger_at};
ghost use Rattle.avm_ledger.specs.LedgerRules.{KeepsRules};
ghost use Rattle.avm_ledger.specs.Encodings.{ledger_digest};

use crate::ledger::Ledger;
use crate::ledger_fault::LedgerError;
use sha2::{Digest, Sha256};
use std::alloc::{AllocError, Global};
use std::marker::Model;

/// A ledger before a block, with its digest, by which the block names it. It is encoded once at most: not at all where it
/// is read.
pub struct Base {
    ledger: Ledger,
    digest: [u8; 32],
}

/// Written out, so that how one is dropped is proved here once, and not in each crate that owns one.
impl Drop for Base {
    #[inline]
    fn drop(self) {
        let Base {
            ledger: _,
            digest: _,
        } = self;
    }
}

impl Model for Base {
    ghost use Rattle.std.specs.Prelude.{◌≡◌};
    ghost use Rattle.avm_ledger.specs.Ledgers.{Ledger as LedgerMaps};
    ghost use Rattle.avm_ledger.specs.Encodings.{ledger_digest};

    ghost Value = { LedgerMaps };

    ghost view = { λ b. b.ledger };

    ghost invariant = { λ b. b.digest ≡ ledger_digest b.ledger };
}

impl Base {
    /// The ledger, which is encoded once for its digest.
    pub fn of(alloc: Global, ledger: Ledger) -> Result<Base, AllocError>
        ensures { IfOk result (λ base. base ≡ ledger) }
    {
        let digest = ledger.digest(alloc)?;
        Ok(Base { ledger, digest })
    }

    /// The ledger with its digest, which the caller knows, as one that has read it does.
    pub fn with_digest(ledger: Ledger, digest: [u8; 32]) -> Base
        requires { digest ≡ ledger_digest ledger }
        ensures { result ≡ ledger }
    {
        Base { ledger, digest }
    }

    /// The ledger that the bytes are, with their digest, which is the ledger's since they are its one encoding.
    ///
    /// They are read as [`Ledger::read`] does.
    pub fn read(alloc: Global, bytes: &[u8]) -> Result<Base, LedgerError>
        ensures exact { Gives (λ base. base) result (ledger_at bytes.now) }
        ensures rules { IfOk result KeepsRules }
    {
        let ledger = Ledger::read(alloc, bytes)?;
        let digest = Sha256::digest(bytes);
        Ok(Base { ledger, digest })
    }

    /// A copy of the ledger, with the digest that is known.
    pub fn clone(&self) -> Result<Base, AllocError>
        ensures { IfOk result (λ copy. copy ≡ self.now) }
    {
        let ledger = self.ledger.clone()?;
        let digest = self.digest;
        Ok(Base { ledger, digest })
    }

    /// The ledger.
    pub fn ledger(&self) -> &Ledger
        ensures { result.now ≡ self.now }
    {
        &self.ledger
    }

    /// The ledger alone.
    pub fn into_ledger(self) -> Ledger
        ensures { result ≡ self }
    {
        let Base { ledger, digest: _ } = self;
        ledger
    }

    /// The ledger's digest.
    pub fn digest(&self) -> &[u8; 32]
        ensures { result.now ≡ ledger_digest self.now }
    {
        &self.digest
    }
}
