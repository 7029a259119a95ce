//! Slots of items, for the numbers of their chains.

use avm_items::Item;

/// How many slots there are for numbers of chains.
pub(crate) const SLOT_COUNT: usize = 256;

/// The slot of an item. It mixes little of the item, since a slot that two items share costs no more than a look into the
/// map for one of them.
pub(crate) fn slot_of(item: &Item) -> usize {
    let mixed = match item {
        Item::NextApp => 0,
        Item::App(id) => id.wrapping_mul(2),
        Item::Counts(id) => id.wrapping_mul(2).wrapping_add(1),
        Item::Key(id, key) => id.wrapping_add(mixed_end(key.as_slice())),
        Item::Local(who, id) => id.wrapping_add(mixed_end(&who.0)),
    };
    (mixed % SLOT_COUNT as u64) as usize
}

/// The last two bytes, mixed.
fn mixed_end(bytes: &[u8]) -> u64 {
    match bytes {
        [.., before, last] => u64::from(*before)
            .wrapping_mul(37)
            .wrapping_add(u64::from(*last)),
        [last] => u64::from(*last),
        [] => 0,
    }
}
