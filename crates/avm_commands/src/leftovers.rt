//! What a command leaves.

use std::mem;

/// Lets a value go that is not needed any more: piece by piece, or, where the process ends, with all its memory.
pub fn leak_at_exit<T: Drop, const EXITS: bool>(value: T) {
    if EXITS {
        mem::forget(value);
    }
}
