//! The front of a block, written and hashed while the workers run. Entries below each live attempt stay as they are, so now and
//! then a worker adds those to the front that have come to be so; little is left for the end. That the front begins the block
//! is asked at the end, and it is made anew where it does not: nothing is known of a value behind a lock but its type.

ghost use Rattle.std.specs.Prelude.{◌≡◌, IfOk, IsTrue, length};
ghost use Rattle.mv_parts.specs.MadeEntries.{AreBlockEntries};
ghost use Rattle.avm_block.specs.BlockEncoding.{front_bytes};
ghost use Rattle.avm_pool.specs.BlockPrefix.{Begins};

use avm_block::{Entry, Front, entry_room};
use avm_call::{Call, Outcome};
use avm_ledger::Header;
use mv_parts::Journal;
use std::alloc::{AllocError, Global};
use std::marker::Model;

/// A committed call: its timestamp, its number, and how it ended.
pub(crate) type Kept = (u64, u32, Outcome);

/// The first entries of a block, and its front up to them.
#[derive(Drop)]
pub(crate) struct BlockPrefix {
    /// The digest of the ledger before the block.
    base: [u8; 32],
    header: Header,
    /// How many entries the block is to have.
    count: usize,
    entries: Vec<Entry>,
    front: Front,
}

impl Model for BlockPrefix {
    ghost use Rattle.std.specs.Prelude.{◌≡◌};
    ghost use Rattle.avm_pool.specs.BlockPrefix.{Beginning, beginning_bytes};

    ghost Value = { Beginning };

    ghost view = { λ a. record { base = a.base; header = a.header; count = a.count; entries = a.entries.items } };

    ghost invariant = { λ a. a.front ≡ beginning_bytes a.base a.header a.count a.entries.items };
}

impl BlockPrefix {
    /// What stands before the entries of a block that is to have one for each of these calls. There is room for all of them.
    pub fn begin(
        alloc: Global,
        base: &[u8; 32],
        header: &Header,
        calls: &[Call],
    ) -> Result<BlockPrefix, AllocError> {
        let front = Front::begin(alloc, base, header, calls.len(), room_for(calls))?;
        Ok(BlockPrefix {
            base: *base,
            header: *header,
            count: calls.len(),
            entries: Vec::with_capacity(alloc, calls.len())?,
            front,
        })
    }

    /// How many entries there are.
    pub fn len(&self) -> usize
        ensures { result ≡ length self.now.entries }
    {
        self.entries.len()
    }

    /// With these entries behind those that there are.
    pub fn with(self, mut more: Vec<Entry>) -> Result<BlockPrefix, AllocError> {
        let BlockPrefix {
            base,
            header,
            count,
            mut entries,
            front,
        } = self;
        let front = front.with(more.as_slice())?;
        entries.append(&mut more)?;
        Ok(BlockPrefix {
            base,
            header,
            count,
            entries,
            front,
        })
    }

    /// Whether a block of a journal's entries, over a ledger with the digest `base`, begins so.
    fn begins(&self, base: &[u8; 32], header: &Header, journal: &Journal) -> bool
        ensures { IsTrue result → Begins self.now base.now header.now journal.now }
    {
        if self.count != journal.entries().len() {
            return false;
        }
        self.base == *base && self.header == *header && journal.begins_with(self.entries.as_slice())
    }

    /// The entries of a journal's block that begins so, and its front.
    fn finished(self, journal: &Journal) -> Result<(Vec<Entry>, Front), AllocError>
        requires { Begins self self.base self.header journal.now }
        ensures entries { IfOk result (λ begun. AreBlockEntries journal.now.calls
            journal.now.world.entries begun.0.items) }
        ensures front { IfOk result
            (λ begun. begun.1 ≡ front_bytes self.base self.header begun.0.items) }
    {
        let BlockPrefix {
            base: _,
            header: _,
            count: _,
            entries,
            front,
        } = self;
        let count = entries.len();
        let entries = journal.further_entries(entries)?;
        let (_first, more) = entries.as_slice().split_at(count);
        let front = front.with(more)?;
        Ok((entries, front))
    }
}

/// The entries of a journal's block, and its front over a ledger with the digest `base`.
pub(crate) fn begun_of(
    alloc: Global,
    journal: &Journal,
    prefix: Option<BlockPrefix>,
    base: &[u8; 32],
    header: &Header,
) -> Result<(Vec<Entry>, Front), AllocError>
    ensures entries { IfOk result (λ begun. AreBlockEntries journal.now.calls
        journal.now.world.entries begun.0.items) }
    ensures front { IfOk result
        (λ begun. begun.1 ≡ front_bytes base.now header.now begun.0.items) }
{
    match prefix {
        Some(prefix) if prefix.begins(base, header, journal) => prefix.finished(journal),
        _ => {
            let entries = journal.block_entries(alloc)?;
            let front = Front::of(alloc, base, header, entries.as_slice())?;
            Ok((entries, front))
        }
    }
}

/// How many bytes the entries of calls take at most.
fn room_for(calls: &[Call]) -> usize {
    let mut room = 0usize;
    for call in calls {
        room = room.saturating_add(entry_room(call));
    }
    room
}
