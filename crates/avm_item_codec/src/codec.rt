//! Items and lists of items with their values, as bytes.

ghost use Rattle.std.specs.Prelude.{◌≡◌, ◌^◌, ◌<◌, [], List, length, All, Ok, IfOk};
ghost use Rattle.teal_value.specs.Answer.{Gives};
ghost use Rattle.avm_ledger.specs.Encodings.{counted_bytes, u32_bytes};
ghost use Rattle.avm_items.specs.declared.item.Item.{Item as ItemName};
ghost use Rattle.avm_items.specs.declared.item_value.ItemValue.{ItemValue as ValueOfItem};
ghost use Rattle.avm_item_codec.specs.ItemReader.{items_at};
ghost use Rattle.avm_item_codec.specs.ItemRules.{AreNew, IsEntry, with_all};
ghost use Rattle.avm_item_codec.specs.ItemRoundTrip.{IsListOf};
ghost use Rattle.avm_item_codec.specs.ItemEncoding.{item_bytes, item_entry_bytes, items_bytes};

use crate::list_reading::items_alone;
use crate::writing::{put_item, put_items};
use avm_items::{Item, ItemMap, ItemValue};
use avm_ledger::LedgerError;
use std::alloc::{AllocError, Global};

/// The items with their values that the bytes are, in any order, each item once. The first fault in reading order counts.
/// Nothing grows by a count or a length that the bytes do not back.
///
/// An item that comes behind higher ones moves those, so that many items are read fastest by rising item.
pub fn read_items(alloc: Global, bytes: &[u8]) -> Result<ItemMap, LedgerError>
    // The items that the grammar reads, or the fault that it names.
    ensures exact { Gives (λ items. items) result (items_at bytes.now) }
    // What is read is encoded by those very bytes, in some order.
    ensures encoded { IfOk result (λ items.
        (es : List (ItemName × ValueOfItem)) × IsListOf bytes.now items [] es) }
    // What keeps the rules is read from its encoding, unless memory runs out.
    ensures only { (es : List (ItemName × ValueOfItem)) → All IsEntry es → AreNew [] es
        → length es < 2 ^ 32 → bytes.now ≡ counted_bytes u32_bytes item_entry_bytes es
        → Gives (λ items. items) result (Ok (with_all [] es)) }
{
    items_alone(alloc, bytes)
}

/// An item's one encoding.
pub fn item_bytes(alloc: Global, item: &Item) -> Result<Vec<u8>, AllocError>
    ensures { IfOk result (λ bytes. bytes.items ≡ item_bytes item.now) }
{
    let mut bytes = Vec::new(alloc);
    put_item(&mut bytes, item)?;
    Ok(bytes)
}

/// The encoding of items with their values in this order. Of a count or a length that has no room in its field, the low
/// bytes are written; an item with a value that it may have has none.
pub fn items_bytes(alloc: Global, items: &[(Item, ItemValue)]) -> Result<Vec<u8>, AllocError>
    ensures { IfOk result (λ bytes. bytes.items ≡ items_bytes items.now) }
{
    let mut bytes = Vec::new(alloc);
    put_items(&mut bytes, items)?;
    Ok(bytes)
}
