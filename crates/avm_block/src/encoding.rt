//! Blocks written as bytes, in their one encoding.

ghost use Rattle.std.specs.Prelude.{◌≡◌, Ok, IfOk};
ghost use Rattle.avm_block.specs.AcceptedCalls.{is_accepted};
ghost use Rattle.avm_block.specs.BlockReader.{block_at};
ghost use Rattle.avm_block.specs.BlockEncoding.{block_bytes};

use crate::block::Block;
use crate::front::Front;
use std::alloc::{AllocError, Global};

/// The block's one encoding.
pub fn encode(alloc: Global, block: &Block) -> Result<Vec<u8>, AllocError>
    ensures encoded { IfOk result (λ bytes. bytes.items ≡ block_bytes block.now) }
    // The block is read from it.
    ensures read { IfOk result (λ bytes. block_at is_accepted bytes.items ≡ Ok block.now) }
{
    let front = Front::of(alloc, block.base(), block.header(), block.entries())?;
    let bytes = front.finish(block.after())?;
    Ok(bytes)
}
