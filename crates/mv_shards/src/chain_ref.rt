//! Where the chains of items stand.

/// Where an item's chain stands: the index of its shard, and the chain's number there. Neither changes.
#[derive(Clone, Copy)]
pub(crate) struct ChainRef {
    pub(crate) shard: usize,
    pub(crate) number: usize,
}
