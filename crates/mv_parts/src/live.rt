//! Which calls are live.

ghost use Rattle.std.specs.Prelude.{◌≡◌, ◌↔◌, [], IsTrue, OnErr, OnOk, slice_get};
ghost use Rattle.std.specs.Map.{keys_of, lookup, remove_entry};
ghost use Rattle.std.specs.BTreeMap.{insert_entry, is_at};
ghost use Rattle.std.specs.Ordering.{nat_cmp};
ghost use Rattle.std.specs.List.Sorted.{IsStrictlySortedBy};

use avm_states::sorted_entries::{put, take, value_of};
use std::alloc::{AllocError, Global};
use std::marker::Model;

/// The numbers of the live calls, each by the timestamp of its attempt, in ascending order. They are few, and the newest
/// comes last: so a list serves, which takes no memory for a new one once it has grown.
#[derive(Drop)]
pub(crate) struct LiveCalls {
    entries: Vec<(u64, u32)>,
}

impl Model for LiveCalls {
    ghost use Rattle.std.specs.Prelude.{List, ℕ};
    ghost use Rattle.std.specs.Map.{keys_of};
    ghost use Rattle.std.specs.Ordering.{nat_cmp};
    ghost use Rattle.std.specs.List.Sorted.{IsStrictlySortedBy};

    ghost Value = { List (ℕ × ℕ) };

    ghost view = { λ l. l.entries.items };

    ghost invariant = { λ l. IsStrictlySortedBy nat_cmp (keys_of l.entries.items) };
}

impl LiveCalls {
    /// No call is live. It takes no memory.
    pub fn new(alloc: Global) -> LiveCalls
        ensures { result ≡ [] }
    {
        LiveCalls {
            entries: Vec::new(alloc),
        }
    }

    /// Whether no call is live.
    pub fn is_empty(&self) -> bool
        ensures { IsTrue result ↔ (self.now ≡ []) }
    {
        self.entries.is_empty()
    }

    /// The number of the call that is live at a timestamp.
    pub fn number_at(&self, timestamp: u64) -> Option<u32>
        ensures { result ≡ lookup (is_at (nat_cmp timestamp)) self.now }
    {
        value_of(self.entries.as_slice(), &timestamp).copied()
    }

    /// The lowest timestamp at which a call is live, and its number.
    pub fn first(&self) -> Option<(u64, u32)>
        ensures first { result ≡ slice_get self.now 0 }
        ensures ordered { IsStrictlySortedBy nat_cmp (keys_of self.now) }
    {
        self.entries.first().copied()
    }

    /// A call of a number is live at a timestamp.
    pub fn insert(&mut self, timestamp: u64, number: u32) -> Result<(), AllocError>
        ensures ok { OnOk result (self.new ≡ insert_entry nat_cmp self.old timestamp number) }
        ensures ordered { IsStrictlySortedBy nat_cmp (keys_of self.old) }
        ensures unchanged { OnErr result (self.new ≡ self.old) }
    {
        let _replaced = put(&mut self.entries, timestamp, number)?;
        Ok(())
    }

    /// The call at a timestamp is live no more.
    pub fn remove(&mut self, timestamp: u64)
        ensures removed { self.new ≡ remove_entry (is_at (nat_cmp timestamp)) self.old }
        ensures ordered { IsStrictlySortedBy nat_cmp (keys_of self.old) }
    {
        take(&mut self.entries, &timestamp);
    }
}
