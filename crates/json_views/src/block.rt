//! A ledger and a block as JSON.

ghost use Rattle.std.specs.Prelude.{◌≡◌, ◌∷◌, ◌++◌, [], IfOk, OnOk, codes};
ghost use Rattle.json.specs.Tree.{json_tokens};
ghost use Rattle.teal_value.specs.Answer.{Gives};
ghost use Rattle.avm_block.specs.AcceptedCalls.{is_accepted};
ghost use Rattle.avm_block.specs.BlockReader.{block_at};
ghost use Rattle.avm_block.specs.BlockEncoding.{block_bytes};
ghost use Rattle.json_views.specs.Writing.{Adds};
ghost use Rattle.json_views.specs.Documents.{array_of, member_tokens, uint};
ghost use Rattle.json_views.specs.ShownBlocks.{block_digest, header_members, profile_number, shown_block, shown_block_entry, shown_digests};

use crate::accounts::put_accounts;
use crate::applications::put_applications;
use crate::call::put_call;
use crate::writing::{
    Writer, begin_array, begin_object, end_array, end_object, put_digits_member, put_name,
    put_text_member, put_uint_member,
};
use avm_block::{Block, BlockError, Entry, decode, encode};
use avm_input::outcome_text;
use avm_ledger::{Base, Header, Profile};
use std::alloc::{AllocError, Global};
use std::marker::Model;

/// A block, with the digest that its bytes end with.
#[derive(Drop)]
pub struct DigestedBlock {
    block: Block,
    digest: [u8; 32],
}

impl Model for DigestedBlock {
    ghost use Rattle.std.specs.Prelude.{◌≡◌};
    ghost use Rattle.avm_block.specs.Blocks.{Block as BlockRecord};
    ghost use Rattle.json_views.specs.ShownBlocks.{block_digest};

    ghost Value = { BlockRecord };

    ghost view = { λ b. b.block };

    ghost invariant = { λ b. b.digest ≡ block_digest b.block };
}

impl DigestedBlock {
    /// The block that the bytes are.
    pub fn read(alloc: Global, bytes: &[u8]) -> Result<DigestedBlock, BlockError>
        ensures { Gives (λ block. block) result (block_at is_accepted bytes.now) }
    {
        let block = decode(alloc, bytes)?;
        let digest = last_digest(bytes, &block);
        Ok(DigestedBlock { block, digest })
    }

    /// The block, with the digest that its bytes end with.
    pub fn of(alloc: Global, block: Block) -> Result<DigestedBlock, AllocError>
        ensures { IfOk result (λ digested. digested ≡ block) }
    {
        let bytes = encode(alloc, &block)?;
        let digest = last_digest(bytes.as_slice(), &block);
        Ok(DigestedBlock { block, digest })
    }

    /// The block.
    pub fn block(&self) -> &Block
        ensures { result.now ≡ self.now }
    {
        &self.block
    }

    fn digest(&self) -> &[u8; 32]
        ensures { result.now ≡ block_digest self.now }
    {
        &self.digest
    }
}

/// The digest that the bytes of a block end with.
fn last_digest(bytes: &[u8], block: &Block) -> [u8; 32]
    requires { block_bytes block.now ≡ bytes.now }
    ensures { result ≡ block_digest block.now }
{
    let (_body, end) = bytes.split_at(bytes.len() - 32);
    let mut digest = [0; 32];
    digest.copy_from_slice(end);
    digest
}

/// The document of a ledger and a block.
pub fn put_both(
    alloc: Global,
    out: &mut Writer,
    base: &Base,
    block: &DigestedBlock,
) -> Result<(), AllocError>
    ensures { OnOk result (Adds out.old out.new (json_tokens (shown_block base.now block.now))) }
{
    let ledger = base.ledger();
    begin_object(out)?;
    put_name(out, "accounts")?;
    put_accounts(alloc, out, ledger)?;
    put_name(out, "apps")?;
    put_applications(alloc, out, ledger)?;
    put_name(out, "digests")?;
    put_digests(alloc, out, base, block)?;
    put_header(out, block.block().header(), ledger.next_id())?;
    put_name(out, "txns")?;
    put_entries(alloc, out, block.block().entries())?;
    end_object(out)
}

fn put_digests(
    alloc: Global,
    out: &mut Writer,
    base: &Base,
    block: &DigestedBlock,
) -> Result<(), AllocError>
    ensures { OnOk result (Adds out.old out.new (json_tokens (shown_digests base.now block.now))) }
{
    begin_object(out)?;
    put_digits_member(alloc, out, "after", block.block().after())?;
    put_digits_member(alloc, out, "base", block.block().base())?;
    put_digits_member(alloc, out, "block", block.digest())?;
    put_digits_member(alloc, out, "ledger", base.digest())?;
    end_object(out)
}

/// The members of a header, and the next id of the ledger among them, since members are by rising name.
fn put_header(out: &mut Writer, header: &Header, next_id: u64) -> Result<(), AllocError>
    ensures { OnOk result
        (Adds out.old out.new (member_tokens (header_members header.now next_id))) }
{
    put_uint_member(out, "latest-timestamp", header.latest_timestamp)?;
    put_uint_member(out, "max-life", header.max_life)?;
    put_uint_member(out, "min-balance", header.min_balance)?;
    put_uint_member(out, "min-fee", header.min_fee)?;
    put_uint_member(out, "next-id", next_id)?;
    put_uint_member(out, "profile", profile_number(header.profile))?;
    put_uint_member(out, "round", header.round)
}

fn profile_number(profile: Profile) -> u64
    ensures { result ≡ profile_number profile }
{
    match profile {
        Profile::Two => 2,
        Profile::Three => 3,
    }
}

fn put_entries(alloc: Global, out: &mut Writer, entries: &[Entry]) -> Result<(), AllocError>
    ensures { OnOk result
        (Adds out.old out.new (json_tokens (array_of shown_block_entry entries.now))) }
{
    begin_array(out)?;
    for entry in entries {
        put_entry(alloc, out, entry)?;
    }
    end_array(out)
}

fn put_entry(alloc: Global, out: &mut Writer, entry: &Entry) -> Result<(), AllocError>
    ensures { OnOk result (Adds out.old out.new (json_tokens (shown_block_entry entry.now))) }
{
    let outcome = outcome_text(alloc, entry.outcome)?;
    begin_object(out)?;
    put_text_member(out, "outcome", outcome.as_str())?;
    put_uint_member(out, "timestamp", entry.timestamp)?;
    put_name(out, "txn")?;
    put_call(alloc, out, entry.call.fields())?;
    end_object(out)
}
