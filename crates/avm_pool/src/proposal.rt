//! What a pool proposes.

ghost use Rattle.std.specs.Prelude.{◌≡◌};
ghost use Rattle.avm_block.specs.BlockEncoding.{block_bytes};

use avm_block::Block;

/// A block, and which calls are in it.
#[derive(Drop)]
pub struct Proposal {
    pub block: Block,
    /// The bytes of the block, as [`avm_block::encode`] gives them.
    pub bytes: Vec<u8>,
    /// The numbers of the calls of the block, from 1, in its order.
    pub numbers: Vec<u32>,
    /// The numbers of all other calls: those to which memory was refused, also in the attempt after the workers had
    /// ended.
    pub left: Vec<u32>,
    ghost encoded: { bytes.items ≡ block_bytes block },
}
