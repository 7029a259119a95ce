//! Keys of an application's states.

ghost use Rattle.std.specs.Prelude.{◌≡◌, ◌<◌, ◌≤◌, ◌==◌, length, IfSome, IfNone};
ghost use Rattle.std.proofs.Common.{rules};
ghost use Rattle.std.specs.Cmp.{partial_order_from_own_ties};
ghost use Rattle.std.specs.Cmp.Lexicographic.{slice_cmp, pointwise};
ghost use Rattle.std.specs.Cmp.Rules.{comparing};
ghost use Rattle.std.specs.Ordering.{nat_cmp, as_partial_cmp};
ghost use Rattle.teal_value.specs.Keys.{most_key_bytes};

use arrayvec::ArrayVec;
use std::alloc::AllocError;
use std::cmp::Ordering;
use std::marker::Model;

/// The most bytes that a key has (AVM specification, "State").
pub const MAX_KEY_BYTES: usize = 64;

/// The key of an entry of a global or local state: at most [`MAX_KEY_BYTES`] bytes, kept in place, so that a key takes no memory.
#[derive(Debug, Drop)]
pub struct StateKey {
    bytes: ArrayVec<u8, MAX_KEY_BYTES>,
}

impl Model for StateKey {
    ghost use Rattle.std.specs.Prelude.{◌≤◌, length, List, ℕ};
    ghost use Rattle.teal_value.specs.Keys.{most_key_bytes};

    ghost Value = { List ℕ };

    ghost view = { λ k. k.bytes.items };

    ghost invariant = { λ k. length k.bytes.items ≤ most_key_bytes };
}

/// The bytes, in place.
fn kept(bytes: &[u8]) -> ArrayVec<u8, MAX_KEY_BYTES>
    requires { length bytes.now ≤ most_key_bytes }
    ensures { result.items ≡ bytes.now }
{
    let mut key = ArrayVec::new();
    match key.try_extend_from_slice(bytes) {
        Ok(()) => key,
        Err(_) => unreachable!(),
    }
}

impl StateKey {
    /// The key of these bytes, if they are not too many.
    pub fn of(bytes: &[u8]) -> Option<StateKey>
        ensures key { IfSome result (λ key. key ≡ bytes.now) }
        ensures none { IfNone result (most_key_bytes < length bytes.now) }
    {
        if bytes.len() > MAX_KEY_BYTES {
            return None;
        }
        Some(StateKey { bytes: kept(bytes) })
    }

    /// The bytes of the key, lent.
    pub fn as_slice(&self) -> &[u8]
        ensures value { result.now ≡ self.now }
        ensures short { length result.now ≤ most_key_bytes }
    {
        self.bytes.as_slice()
    }

    /// The same key. It takes no memory.
    pub fn copied(&self) -> StateKey
        ensures { result ≡ self.now }
    {
        StateKey {
            bytes: kept(self.as_slice()),
        }
    }
}

impl Clone for StateKey {
    ghost is_clone = { λ key copy. copy ≡ key };

    fn clone(&self) -> Result<StateKey, AllocError> {
        Ok(self.copied())
    }
}

impl PartialEq for StateKey {
    ghost eq = { pointwise ◌==◌ };

    ghost laws = { Prim.search (comparing, rules) };

    fn eq(&self, other: &StateKey) -> bool {
        self.as_slice() == other.as_slice()
    }
}

impl Eq for StateKey {
    ghost laws = { Prim.search (comparing, rules) };
}

impl PartialOrd for StateKey {
    ghost partial_cmp = { as_partial_cmp (slice_cmp nat_cmp) };

    ghost laws = { partial_order_from_own_ties (Prim.search (comparing, rules)) (Prim.search (comparing, rules)) };

    fn partial_cmp(&self, other: &StateKey) -> Option<Ordering> {
        Some(self.cmp(other))
    }
}

/// Keys are ordered byte by byte; a beginning comes before the longer.
impl Ord for StateKey {
    ghost cmp = { slice_cmp nat_cmp };

    ghost total = { Prim.search (comparing, rules) };

    ghost matches_partial_cmp = { Prim.search (comparing, rules) };

    ghost matches_eq = { Prim.search (comparing, rules) };

    fn cmp(&self, other: &StateKey) -> Ordering {
        self.as_slice().cmp(other.as_slice())
    }
}
