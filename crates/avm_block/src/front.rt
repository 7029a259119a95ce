//! The bytes of a block up to the digest of the ledger after it. They are written and hashed by themselves, so that whoever
//! makes a block can do so while that digest is made.

ghost use Rattle.std.specs.Prelude.{◌≡◌, ◌++◌, IfOk, OnOk};
ghost use Rattle.std.specs.List.{flat_map};
ghost use Rattle.sha2.specs.Sha256.{sha256};
ghost use Rattle.avm_block.specs.BlockEncoding.{block_entry_bytes, front_bytes, front_start};

use crate::entry::Entry;
use crate::header_codec::{put_format, put_header};
use crate::outcome_codec::put_outcome;
use avm_call::Call;
use avm_call_codec::CallCodec;
use avm_ledger::Header;
use avm_ledger::encoding::{put_long_count, put_u64};
use sha2::{Digest, Sha256};
use std::alloc::{AllocError, Global};
use std::marker::Model;

/// What the bytes of every block begin with.
pub(crate) const MAGIC: [u8; 4] = *b"AVMB";

/// How many bytes a block has at most beside its entries: magic number, format, header and count, the digests of the ledgers before
/// and after, and its own.
const FRAME: usize = 160;

/// How many bytes an entry has at most beside its call's note, arguments, accounts, foreign applications and programs.
const FIXED: usize = 156;

/// The bytes of a block up to the digest of the ledger after it, with a SHA-256 hasher (FIPS 180-4) that holds them.
#[derive(Drop)]
pub struct Front {
    bytes: Vec<u8>,
    hasher: Sha256,
}

impl Model for Front {
    ghost use Rattle.std.specs.Prelude.{ℕ, List};
    ghost use Rattle.sha2.specs.Hashers.{Holds256};

    ghost Value = { List ℕ };

    ghost view = { λ f. f.bytes.items };

    ghost invariant = { λ f. Holds256 f.hasher f.bytes.items };
}

impl Front {
    /// The front of a block of these entries, over a ledger with the digest `base`.
    pub fn of(
        alloc: Global,
        base: &[u8; 32],
        header: &Header,
        entries: &[Entry],
    ) -> Result<Front, AllocError>
        ensures { IfOk result (λ front. front ≡ front_bytes base.now header.now entries.now) }
    {
        Front::begin(alloc, base, header, entries.len(), room_for(entries))?.with(entries)
    }

    /// What stands before the entries of a block that has so many, over a ledger with the digest `base`. The entries have room
    /// for so many bytes from the beginning ([`entry_room`]); they grow beyond it.
    pub fn begin(
        alloc: Global,
        base: &[u8; 32],
        header: &Header,
        count: usize,
        room: usize,
    ) -> Result<Front, AllocError>
        ensures { IfOk result (λ front. front ≡ front_start base.now header.now count) }
    {
        let mut bytes = Vec::with_capacity(alloc, room.saturating_add(FRAME))?;
        put_start(&mut bytes, base, header, count)?;
        let mut hasher = Sha256::new();
        hasher.update(bytes.as_slice());
        Ok(Front { bytes, hasher })
    }

    /// The front with these entries behind those that it has. So whoever makes a block can write and hash its first entries
    /// before the last are known.
    pub fn with(self, entries: &[Entry]) -> Result<Front, AllocError>
        ensures { IfOk result (λ front. front ≡ self ++ flat_map block_entry_bytes entries.now) }
    {
        let Front {
            mut bytes,
            mut hasher,
        } = self;
        let before = bytes.len();
        put_entries(&mut bytes, entries)?;
        hasher.update(&bytes[before..]);
        Ok(Front { bytes, hasher })
    }

    /// The bytes of the block, where the ledger after it has the digest `after`.
    pub fn finish(self, after: &[u8; 32]) -> Result<Vec<u8>, AllocError>
        ensures { IfOk result
            (λ bytes. bytes.items ≡ self ++ after.now ++ sha256 (self ++ after.now)) }
    {
        let Front {
            mut bytes,
            mut hasher,
        } = self;
        bytes.extend_from_slice(after)?;
        hasher.update(after.as_slice());
        let digest = hasher.finalize();
        bytes.extend_from_slice(&digest)?;
        Ok(bytes)
    }
}

/// Appends what stands before so many entries. Where memory runs out a part may have been appended.
fn put_start(
    bytes: &mut Vec<u8>,
    base: &[u8; 32],
    header: &Header,
    count: usize,
) -> Result<(), AllocError>
    ensures { OnOk result
        (bytes.new.items ≡ bytes.old.items ++ front_start base.now header.now count) }
{
    bytes.extend_from_slice(&MAGIC)?;
    put_format(bytes, header.profile)?;
    bytes.extend_from_slice(base)?;
    put_header(bytes, header)?;
    put_long_count(bytes, count)?;
    Ok(())
}

/// The room that entries take.
fn room_for(entries: &[Entry]) -> usize {
    let mut room = 0usize;
    for entry in entries {
        room = room.saturating_add(entry_room(&entry.call));
    }
    room
}

/// How many bytes an entry of a call takes in a block at most. It is for whoever takes room at once, and nothing else rests on it.
pub fn entry_room(call: &Call) -> usize {
    let fields = call.fields();
    let mut room = FIXED;
    for argument in fields.arguments.as_slice() {
        room = room
            .saturating_add(2)
            .saturating_add(argument.as_slice().len());
    }
    room = room.saturating_add(fields.accounts.as_slice().len().saturating_mul(32));
    room = room.saturating_add(
        fields
            .foreign_applications
            .as_slice()
            .len()
            .saturating_mul(8),
    );
    room = room.saturating_add(fields.approval.as_slice().len());
    room = room.saturating_add(fields.clear.as_slice().len());
    room.saturating_add(fields.note.as_slice().len())
}

fn put_entries(bytes: &mut Vec<u8>, entries: &[Entry]) -> Result<(), AllocError>
    ensures { OnOk result
        (bytes.new.items ≡ bytes.old.items ++ flat_map block_entry_bytes entries.now) }
{
    for entry in entries {
        put_entry(bytes, entry)?;
    }
    Ok(())
}

fn put_entry(bytes: &mut Vec<u8>, entry: &Entry) -> Result<(), AllocError>
    ensures { OnOk result (bytes.new.items ≡ bytes.old.items ++ block_entry_bytes entry.now) }
{
    put_u64(bytes, entry.timestamp)?;
    entry.call.fields().encode_into(bytes)?;
    put_outcome(bytes, entry.outcome)?;
    Ok(())
}
