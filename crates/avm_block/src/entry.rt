//! The entries of a block.

ghost use Rattle.std.specs.Prelude.{◌≡◌};

use avm_call::{Call, Outcome};
use std::alloc::AllocError;

/// A call of a block, and how it ended.
#[derive(Drop)]
pub struct Entry {
    /// Where the call stands among those of the block, by rising timestamp.
    pub timestamp: u64,
    pub call: Call,
    pub outcome: Outcome,
}

impl Clone for Entry {
    ghost is_clone = { λ entry copy. copy ≡ entry };

    fn clone(&self) -> Result<Entry, AllocError> {
        Ok(Entry {
            timestamp: self.timestamp,
            call: Call::clone(&self.call)?,
            outcome: self.outcome,
        })
    }
}
