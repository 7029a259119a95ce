//! Blocks.

ghost use Rattle.std.specs.Prelude.{◌≡◌, ◌≤◌, true, All, IfOk, vec_len};
ghost use Rattle.avm_call.specs.Places.{HasPlace};
ghost use Rattle.avm_block.specs.AcceptedCalls.{is_accepted};
ghost use Rattle.avm_block.specs.Blocks.{RisesAbove};
ghost use Rattle.avm_block.specs.BlockRoundTrip.{IsBlock};

use crate::call_sizes::entries_fit;
use crate::entry::Entry;
use avm_ledger::Header;
use std::alloc::AllocError;
use std::marker::Model;

/// The most entries of a block.
pub const MAX_ENTRIES: usize = 4096;

/// Calls in the order of their timestamps, with how each ended, the header under which they were made, and the digests of
/// the ledgers before and after them. The entries are by rising timestamp, and their calls are such as a block of the
/// header's profile may have.
#[derive(Drop)]
pub struct Block {
    base: [u8; 32],
    header: Header,
    entries: Vec<Entry>,
    after: [u8; 32],
}

impl Model for Block {
    ghost use Rattle.avm_block.specs.AcceptedCalls.{is_accepted};
    ghost use Rattle.avm_block.specs.Blocks.{Block as BlockRecord};
    ghost use Rattle.avm_block.specs.BlockRoundTrip.{IsBlock};

    ghost Value = { BlockRecord };

    ghost view = { λ b. record { base = b.base; header = b.header; entries = b.entries.items; after = b.after } };

    ghost invariant = { λ b. IsBlock is_accepted (record { base = b.base; header = b.header; entries = b.entries.items; after = b.after }) };
}

/// What a block is made of, before its rules are kept in one type.
#[derive(Drop)]
pub(crate) struct Parts {
    pub base: [u8; 32],
    pub header: Header,
    pub entries: Vec<Entry>,
    pub after: [u8; 32],
}

impl Block {
    /// The block of these entries, over a ledger with the digest `base` that they lead to one with the digest `after`.
    pub fn new(base: [u8; 32], header: Header, entries: Vec<Entry>, after: [u8; 32]) -> Block
        requires few { vec_len entries ≤ MAX_ENTRIES }
        requires rising { RisesAbove 0 entries.items }
        requires calls { All (λ e. is_accepted header.profile e.call ≡ true) entries.items }
        requires places { All (λ e. HasPlace e.outcome) entries.items }
        ensures { result
            ≡ record { base = base; header = header; entries = entries.items; after = after } }
    {
        entries_fit(&entries);
        Block {
            base,
            header,
            entries,
            after,
        }
    }

    // The block of these parts.
    pub(crate) fn from_parts(parts: Parts) -> Block
        requires { IsBlock is_accepted (record {
          base = parts.base;
          header = parts.header;
          entries = parts.entries.items;
          after = parts.after;
        }) }
        ensures { result ≡ record {
          base = parts.base;
          header = parts.header;
          entries = parts.entries.items;
          after = parts.after;
        } }
    {
        let Parts {
            base,
            header,
            entries,
            after,
        } = parts;
        Block {
            base,
            header,
            entries,
            after,
        }
    }

    /// The digest of the ledger before the calls.
    pub fn base(&self) -> &[u8; 32]
        ensures { result.now ≡ self.now.base }
    {
        &self.base
    }

    /// The header under which the calls were made.
    pub fn header(&self) -> &Header
        ensures { result.now ≡ self.now.header }
    {
        &self.header
    }

    /// The entries, by rising timestamp.
    pub fn entries(&self) -> &[Entry]
        ensures entries { result.now ≡ self.now.entries }
        ensures block { IsBlock is_accepted self.now }
    {
        self.entries.as_slice()
    }

    /// The digest of the ledger after the calls.
    pub fn after(&self) -> &[u8; 32]
        ensures { result.now ≡ self.now.after }
    {
        &self.after
    }

    /// The same block. Its calls share their fields.
    pub fn clone(&self) -> Result<Block, AllocError>
        ensures { IfOk result (λ copy. copy ≡ self.now) }
    {
        let base = self.base;
        let header = self.header;
        let entries = self.entries.clone()?;
        let after = self.after;
        Ok(Block {
            base,
            header,
            entries,
            after,
        })
    }
}
