//! What a store is opened with.

ghost use Rattle.std.specs.Prelude.{IfOk};
ghost use Rattle.mv_core.specs.AttemptSlots.{AreEmpty};

use mv_shards::Attempt;
use std::alloc::{AllocError, Global};

/// So many slots without an attempt.
pub(crate) fn empty_slots(alloc: Global, count: usize) -> Result<Vec<Option<Attempt>>, AllocError>
    ensures { IfOk result (λ slots. AreEmpty count slots.items) }
{
    let mut slots = Vec::with_capacity(alloc, count)?;
    for _index in 0..count {
        slots.push(None)?;
    }
    Ok(slots)
}
