//! The numbers of items' chains.

ghost use Rattle.std.specs.Prelude.{◌≡◌, OnErr, OnOk};
ghost use Rattle.mv_shards.specs.NumberMaps.{mix_of as item_mix, mixed_bytes, mixed_with, no_numbers, number_by_item, number_by_mix, with_number};

use avm_items::Item;
use std::alloc::{AllocError, Global};
use std::collections::BTreeMap;
use std::collections::btree_map::Entry;
use std::marker::Model;

/// The numbers of items. Almost all are found by a mix of the item, so that a look-up compares words, and a new one moves few
/// bytes. Where two items have the same mix, the second is found by the item itself: whatever items there are, a look-up
/// takes time that is logarithmic in their count.
#[derive(Drop)]
pub(crate) struct Numbers {
    by_mix: BTreeMap<u64, usize>,
    by_item: BTreeMap<Item, usize>,
}

impl Model for Numbers {
    ghost use Rattle.mv_shards.specs.NumberMaps.{NotedNumbers};

    ghost Value = { NotedNumbers };

    ghost view = { λ n. record { by_mix = n.by_mix.entries; by_item = n.by_item.entries } };
}

impl Numbers {
    /// No numbers. It takes no memory.
    pub(crate) fn new(alloc: Global) -> Numbers
        ensures { result ≡ no_numbers }
    {
        Numbers {
            by_mix: BTreeMap::new(alloc),
            by_item: BTreeMap::new(alloc),
        }
    }

    /// The number that an item's mix leads to. It may be another item's.
    pub(crate) fn by_mix(&self, item: &Item) -> Option<usize>
        ensures { result ≡ number_by_mix self.now item.now }
    {
        match self.by_mix.get(&mix_of(item)) {
            Some(number) => Some(*number),
            None => None,
        }
    }

    /// The number of an item whose mix another item has taken.
    pub(crate) fn by_item(&self, item: &Item) -> Option<usize>
        ensures { result ≡ number_by_item self.now item.now }
    {
        match self.by_item.get(item) {
            Some(number) => Some(*number),
            None => None,
        }
    }

    /// Notes an item's number.
    pub(crate) fn add(&mut self, item: &Item, number: usize) -> Result<(), AllocError>
        ensures ok { OnOk result (self.new ≡ with_number self.old item.now number) }
        ensures err { OnErr result (self.new ≡ self.old) }
    {
        match self.by_mix.entry(mix_of(item))? {
            Entry::Vacant(entry) => {
                entry.insert(number);
            }
            Entry::Occupied(_) => {
                self.by_item.insert(item.copied(), number)?;
            }
        }
        Ok(())
    }
}

/// A word for an item, the same for few of them.
fn mix_of(item: &Item) -> u64
    ensures { result ≡ item_mix item.now }
{
    match item {
        Item::NextApp => 0,
        Item::App(id) => with(*id, 1),
        Item::Counts(id) => with(*id, 2),
        Item::Key(id, key) => with_all(with(*id, 3), key.as_slice()),
        // The last bytes of an account tell it from others nearly as well as all of them.
        Item::Local(who, id) => with_all(with(*id, 4), &who.0[24..]),
    }
}

/// A mix with one more number.
fn with(mix: u64, number: u64) -> u64
    ensures { result ≡ mixed_with mix number }
{
    mix.wrapping_mul(257).wrapping_add(number)
}

/// A mix with more bytes.
fn with_all(mix: u64, bytes: &[u8]) -> u64
    ensures { result ≡ mixed_bytes mix bytes.now }
{
    let mut mixed = mix;
    for byte in bytes {
        mixed = with(mixed, u64::from(*byte));
    }
    mixed
}
